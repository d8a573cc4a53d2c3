// Texts that are due.

// What stands in for a number.
const MARK: &[u8] = b"ops=#";

// How many bytes at the front are digits.
fn digits(text: &[u8]) -> usize {
    text.iter().take_while(|b| b.is_ascii_digit()).count()
}

/// Whether a text is the one that is due, in which `ops=#` stands for any number behind `ops=`.
pub fn is_due(due: &[u8], text: &[u8]) -> bool {
    let mut due = due;
    let mut text = text;
    for _ in 0..u64::MAX {
        let Some(b) = due.first() else {
            break;
        };
        if due.starts_with(MARK) && text.starts_with(b"ops=") {
            due = due.get(5..).unwrap_or(b"");
            text = text.get(4..).unwrap_or(b"");
            text = text.get(digits(text)..).unwrap_or(b"");
        } else if text.first() == Some(b) {
            due = due.get(1..).unwrap_or(b"");
            text = text.get(1..).unwrap_or(b"");
        } else {
            return false;
        }
    }
    due.is_empty() && text.is_empty()
}
