// Dates, times of the day, and moments as texts.

ghost use Rattle.std.specs.Prelude.{◌≡◌, ◌≤◌, ◌<◌, true, false, length, MatchOption, IfSome};
ghost use Rattle.std.specs.Str.Parse.{digits_value};
ghost use Rattle.civil_dates.specs.Texts as spec;

use crate::days::day_of;

// What digits come to, or None where a byte is no digit.
fn field(text: &[u8]) -> Option<u16>
    requires { length text.now ≤ 4 }
    ensures { MatchOption result (spec.are_digits text.now ≡ false) (λ n. (spec.are_digits text.now ≡ true) × (digits_value 10 text.now ≡ n)) }
{
    let mut value: u16 = 0;
    for byte in text {
        if !byte.is_ascii_digit() {
            return None;
        }
        value = value * 10 + (*byte - b'0') as u16;
    }
    Some(value)
}

// What three fields come to, the first of n digits and the others of two, with a sign between them.
fn three(text: &[u8], n: usize, sign: u8) -> Option<(u16, u16, u16)>
    requires { n ≤ 4 }
    ensures { MatchOption result (spec.is_three n sign text.now ≡ false)
        (λ r. (spec.is_three n sign text.now ≡ true) × (spec.first n text.now ≡ r.0) × (spec.second n text.now ≡ r.1) × (spec.third n text.now ≡ r.2)) }
{
    if text.len() != n + 6 || text[n] != sign || text[n + 3] != sign {
        return None;
    }
    let Some(first) = field(&text[..n]) else {
        return None;
    };
    let Some(second) = field(&text[n + 1..n + 3]) else {
        return None;
    };
    let Some(third) = field(&text[n + 4..n + 6]) else {
        return None;
    };
    Some((first, second, third))
}

/// The days from 1970-01-01 of a date written `YYYY-MM-DD`. `None` exactly where the text has another form or is no
/// date of the years 1 to 9999.
pub fn read_date(text: &[u8]) -> Option<i32>
    ensures { result ≡ spec.date_value text.now }
{
    match three(text, 4, b'-') {
        Some((year, month, day)) => day_of(year, month, day),
        None => None,
    }
}

// The seconds from the beginning of a day to a time of it.
fn clock(hour: u16, minute: u16, second: u16) -> Option<u32>
    ensures value { result ≡ spec.clock hour minute second }
    ensures small { IfSome result (λ n. n < 86400) }
{
    if hour < 24 && minute < 60 && second < 60 {
        Some(hour as u32 * 3600 + minute as u32 * 60 + second as u32)
    } else {
        None
    }
}

// The seconds from the beginning of the day, of a time written `hh:mm:ss`.
fn read_clock(text: &[u8]) -> Option<u32>
    ensures value { result ≡ spec.clock_value text.now }
    ensures small { IfSome result (λ n. n < 86400) }
{
    match three(text, 2, b':') {
        Some((hour, minute, second)) => clock(hour, minute, second),
        None => None,
    }
}

/// The seconds from 1970-01-01T00:00:00Z of a moment written `YYYY-MM-DDThh:mm:ssZ`, in capital `T` and `Z`. `None`
/// exactly where the text has another form or is no moment of the years 1 to 9999.
pub fn read_moment(text: &[u8]) -> Option<i64>
    ensures { result ≡ spec.moment_value text.now }
{
    if text.len() != 20 || text[10] != b'T' || text[19] != b'Z' {
        return None;
    }
    let Some(days) = read_date(&text[0..10]) else {
        return None;
    };
    let Some(seconds) = read_clock(&text[11..19]) else {
        return None;
    };
    Some(days as i64 * 86_400 + seconds as i64)
}

// Whether a text is three fields, the first of n digits and the others of two, with a sign between them.
fn is_three(text: &[u8], n: usize, sign: u8) -> bool
    requires { n ≤ 4 }
    ensures { result ≡ spec.is_three n sign text.now }
{
    match three(text, n, sign) {
        Some(_) => true,
        None => false,
    }
}

/// Whether a text begins in the form `YYYY-MM-DD`, digits for the letters, be it a date or not.
pub fn begins_date(text: &[u8]) -> bool
    ensures { result ≡ spec.begins_date text.now }
{
    if text.len() < 10 {
        return false;
    }
    is_three(&text[0..10], 4, b'-')
}

/// Whether a text begins in the form `YYYY-MM-DDThh:mm:ssZ`, digits for the small letters, be it a moment or not.
pub fn begins_moment(text: &[u8]) -> bool
    ensures { result ≡ spec.begins_moment text.now }
{
    if text.len() < 20 || text[10] != b'T' || text[19] != b'Z' || !begins_date(text) {
        return false;
    }
    is_three(&text[11..19], 2, b':')
}
