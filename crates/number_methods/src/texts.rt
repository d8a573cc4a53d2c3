// Whole numbers from texts.

ghost use Rattle.std.specs.Prelude.{◌≡◌, ℤ, MatchOption, IfSome};
ghost use Rattle.std.specs.Prelude.{FitsSigned};
ghost use Rattle.std.specs.Int.{w32, w64};
ghost use Rattle.number_methods.specs.Methods.{IsWholeText};
ghost use Rattle.number_methods.specs.Values.{only_if, integer_fits, long_fits, decimal_fits, whole_value, decimal_value, without_l};

use apex_num::{Dec, read_dec};

/// `Integer.valueOf`: the Integer that a text is, an optional `-` and digits. `None` exactly where the text has another
/// form or the number is out of Integer's range.
pub fn read_integer(text: &str) -> Option<i32>
    ensures value { result ≡ only_if integer_fits (whole_value text.now) }
    ensures reads { MatchOption result ((z : ℤ) → IsWholeText text.now z → FitsSigned w32 z → ⊥) (λ n. IsWholeText text.now n) }
    ensures only { IfSome result (λ n. (z : ℤ) → IsWholeText text.now z → z ≡ n) }
{
    if text.starts_with('+') {
        return None;
    }
    text.parse::<i32>().ok()
}

/// The Long that a text is, an optional `-` and digits. `None` exactly where the text has another form or the number is
/// out of Long's range.
pub fn read_long(text: &str) -> Option<i64>
    ensures value { result ≡ only_if long_fits (whole_value text.now) }
    ensures reads { MatchOption result ((z : ℤ) → IsWholeText text.now z → FitsSigned w64 z → ⊥) (λ n. IsWholeText text.now n) }
    ensures only { IfSome result (λ n. (z : ℤ) → IsWholeText text.now z → z ≡ n) }
{
    if text.starts_with('+') {
        return None;
    }
    text.parse::<i64>().ok()
}

// The text without an `L` or `l` at its end.
fn without_l(text: &str) -> &str
    ensures { result.now ≡ without_l text.now }
{
    let bytes = text.as_bytes();
    if bytes.is_empty() {
        return text;
    }
    let rest = bytes.len() - 1;
    if bytes[rest] == b'L' || bytes[rest] == b'l' {
        text.split_at(rest).0
    } else {
        text
    }
}

/// `Long.valueOf`: the Long that a text is, an optional `-`, digits, and an optional `L` or `l`. `None` exactly where the
/// text has another form or the number is out of Long's range.
pub fn read_long_text(text: &str) -> Option<i64>
    ensures { result ≡ only_if long_fits (whole_value (without_l text.now)) }
{
    read_long(without_l(text))
}

/// `Decimal.valueOf`: the Decimal that a text is, an optional `-`, digits, and optionally a dot with one to six digits.
/// `None` exactly where the text has another form or the number is out of Decimal's range.
pub fn read_decimal(text: &str) -> Option<Dec>
    ensures { result ≡ only_if decimal_fits (decimal_value text.now) }
{
    read_dec(text.as_bytes()).ok()
}
