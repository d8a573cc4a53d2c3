// Moments, and the methods of Datetime.

ghost use Rattle.std.specs.Prelude.{◌≡◌, ◌<◌, true, false, pos, ◌+ℤ◌, ◌*ℤ◌, length, unsigned_abs, ◌^◌, MatchOption};
ghost use Rattle.civil_dates.specs.Dates as spec;
ghost use Rattle.civil_dates.specs.Texts as texts;

use crate::dates::{civil, date_of};
use crate::texts::read_moment;

/// The day of a moment, and how many seconds it is behind the day's beginning. `None` exactly where it is no moment of
/// the years 1 to 9999.
pub fn split(moment: i64) -> Option<(i32, u32)>
    ensures { MatchOption result (spec.is_moment moment ≡ false)
        (λ p. (spec.is_moment moment ≡ true) × (spec.day_part moment ≡ p.0) × (spec.second_part moment ≡ p.1) × (p.1 < 86400) × (unsigned_abs moment < 2 ^ 50)) }
{
    let second = moment.rem_euclid(86_400) as u32;
    let Ok(day) = i32::try_from(moment.div_euclid(86_400)) else {
        return None;
    };
    match civil(day) {
        Some(_) => Some((day, second)),
        None => None,
    }
}

// Whether it is a moment of the years 1 to 9999.
fn is_moment(moment: i64) -> bool
    ensures { result ≡ spec.is_moment moment }
{
    match split(moment) {
        Some(_) => true,
        None => false,
    }
}

// The moment with this number. `None` exactly where it is none of the years 1 to 9999.
fn moment_from(n: i128) -> Option<i64>
    ensures { result ≡ spec.only_moment n }
{
    match i64::try_from(n) {
        Ok(moment) => {
            if is_moment(moment) {
                Some(moment)
            } else {
                None
            }
        }
        Err(_) => None,
    }
}

/// `addDays` of a Datetime: so many days of 24 hours later. `None` exactly where that is no moment of the years 1 to 9999.
pub fn add_days(moment: i64, days: i64) -> Option<i64>
    ensures { result ≡ spec.only_moment (moment +ℤ days *ℤ pos 86400) }
{
    moment_from(i128::from(moment) + i128::from(days) * 86_400)
}

/// `addHours`: so many hours later. `None` exactly where that is no moment of the years 1 to 9999.
pub fn add_hours(moment: i64, hours: i64) -> Option<i64>
    ensures { result ≡ spec.only_moment (moment +ℤ hours *ℤ pos 3600) }
{
    moment_from(i128::from(moment) + i128::from(hours) * 3_600)
}

/// `addMinutes`: so many minutes later. `None` exactly where that is no moment of the years 1 to 9999.
pub fn add_minutes(moment: i64, minutes: i64) -> Option<i64>
    ensures { result ≡ spec.only_moment (moment +ℤ minutes *ℤ pos 60) }
{
    moment_from(i128::from(moment) + i128::from(minutes) * 60)
}

/// `addSeconds`: so many seconds later. `None` exactly where that is no moment of the years 1 to 9999.
pub fn add_seconds(moment: i64, seconds: i64) -> Option<i64>
    ensures { result ≡ spec.only_moment (moment +ℤ seconds) }
{
    moment_from(i128::from(moment) + i128::from(seconds))
}

// The seconds from the beginning of a day to a time of it. `None` exactly where the numbers are no time of the day.
fn seconds_at(hour: i64, minute: i64, second: i64) -> Option<u32>
    ensures { MatchOption result (spec.is_clock hour minute second ≡ false)
        (λ n. (spec.is_clock hour minute second ≡ true) × (pos n ≡ spec.clock_seconds hour minute second) × (n < 86400)) }
{
    let (Ok(h), Ok(m), Ok(s)) = (
        u8::try_from(hour),
        u8::try_from(minute),
        u8::try_from(second),
    ) else {
        return None;
    };
    if h >= 24 || m >= 60 || s >= 60 {
        return None;
    }
    Some(u32::from(h) * 3_600 + u32::from(m) * 60 + u32::from(s))
}

/// `Datetime.newInstanceGmt`: the moment of a date and a time of the day. `None` exactly where they are none, or the date
/// isn't of the years 1 to 9999.
pub fn new_moment(
    year: i64,
    month: i64,
    day: i64,
    hour: i64,
    minute: i64,
    second: i64,
) -> Option<i64>
    ensures { result ≡ spec.new_moment year month day hour minute second }
{
    let Some(seconds) = seconds_at(hour, minute, second) else {
        return None;
    };
    match date_of(year, month, day) {
        Some(day) => Some(i64::from(day) * 86_400 + i64::from(seconds)),
        None => None,
    }
}

// The text of a moment with a blank between date and time, as it is with `T` and `Z`.
fn zulu(text: &[u8]) -> [u8; 20]
    requires { length text.now ≡ 19 }
    ensures { result ≡ texts.zulu text.now }
{
    let mut zulu = [0; 20];
    zulu[..10].copy_from_slice(&text[..10]);
    zulu[10] = b'T';
    zulu[11..19].copy_from_slice(&text[11..]);
    zulu[19] = b'Z';
    zulu
}

/// `Datetime.valueOfGmt`: the moment of a text `YYYY-MM-DD hh:mm:ss`. `None` exactly where the text is none of the years 1
/// to 9999.
pub fn read_stamp(text: &[u8]) -> Option<i64>
    ensures { result ≡ texts.stamp_value text.now }
{
    if text.len() != 19 || text[10] != b' ' {
        return None;
    }
    read_moment(&zulu(text))
}
