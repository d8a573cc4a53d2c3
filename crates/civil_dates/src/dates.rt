// The methods of Date.

ghost use Rattle.std.specs.Prelude.{◌≡◌, ◌≤◌, true, false, pos, ◌+ℤ◌, ◌*ℤ◌, MatchOption, IfSome};
ghost use Rattle.civil_dates.specs.Dates as spec;

use crate::days::{Civil, day_of};
use jiff_core::civil::{self, Date};

/// `Date.newInstance`: the day of a year, a month and a day. `None` exactly where they are no date of the years 1 to
/// 9999.
pub fn date_of(year: i64, month: i64, day: i64) -> Option<i32>
    ensures { result ≡ spec.new_day year month day }
{
    let (Ok(y), Ok(m), Ok(d)) = (
        u16::try_from(year),
        u16::try_from(month),
        u16::try_from(day),
    ) else {
        return None;
    };
    day_of(y, m, d)
}

/// The date of a day: `year`, `month` and `day`. `None` exactly where it is no day of the years 1 to 9999.
pub fn civil(day: i32) -> Option<Civil>
    ensures value { MatchOption result (spec.is_day day ≡ false) (λ c. (spec.is_day day ≡ true) × ((spec.date_at day).year ≡ c.year) × ((spec.date_at day).month ≡ c.month) × ((spec.date_at day).day ≡ c.day)) }
    ensures within { IfSome result (λ c. (c.year ≤ 9999) × (1 ≤ c.month) × (c.month ≤ 12) × (1 ≤ c.day) × (c.day ≤ 31)) }
{
    match Date::from_unix_epoch_day(day as i64) {
        Ok(date) => {
            if date.year < 1 {
                return None;
            }
            Some(Civil {
                year: date.year as u16,
                month: date.month as u16,
                day: date.day as u16,
            })
        }
        Err(_) => None,
    }
}

// Whether it is a day of the years 1 to 9999.
fn is_day(day: i32) -> bool
    ensures { result ≡ spec.is_day day }
{
    match civil(day) {
        Some(_) => true,
        None => false,
    }
}

// The day with this number. `None` exactly where it is no day of the years 1 to 9999.
fn day_from(n: i64) -> Option<i32>
    ensures { result ≡ spec.only_day n }
{
    match i32::try_from(n) {
        Ok(day) => { if is_day(day) { Some(day) } else { None } }
        Err(_) => None,
    }
}

/// `addDays` of a Date: so many days later. `None` exactly where that is no day of the years 1 to 9999.
pub fn days_later(day: i32, days: i64) -> Option<i32>
    ensures { result ≡ spec.only_day (day +ℤ days) }
{
    match i64::from(day).checked_add(days) {
        Some(n) => day_from(n),
        None => None,
    }
}

// The day in a month, counted from 0 for January of the year 0, or the last one where the month is shorter. `None`
// exactly where it is no month of the years 1 to 9999.
fn in_month(count: i128, day: u16) -> Option<i32>
    requires { (1 ≤ day) × (day ≤ 31) }
    ensures { result ≡ spec.in_month count day }
{
    if count < 12 || count >= 120_000 {
        return None;
    }
    let count = count as u32;
    let date = Date::constrain((count / 12) as i16, (count % 12) as u8 + 1, day as u8);
    Some(date.to_unix_epoch_day())
}

/// `addMonths`: so many months later; the day is cut to the last one of the month. `None` exactly where the day is none
/// of the years 1 to 9999 or the month isn't one.
pub fn months_later(day: i32, months: i64) -> Option<i32>
    ensures { result ≡ spec.months_later months day }
{
    match civil(day) {
        Some(date) => in_month(
            i128::from(date.year) * 12 + i128::from(date.month) - 1 + i128::from(months),
            date.day,
        ),
        None => None,
    }
}

/// `addYears`: twelve times so many months later. `None` exactly where the day is none of the years 1 to 9999 or the
/// month isn't one.
pub fn years_later(day: i32, years: i64) -> Option<i32>
    ensures { result ≡ spec.months_later (years *ℤ pos 12) day }
{
    match civil(day) {
        Some(date) => in_month(
            i128::from(date.year) * 12 + i128::from(date.month) - 1 + i128::from(years) * 12,
            date.day,
        ),
        None => None,
    }
}

/// `toStartOfMonth`: the first day of the month in which a day lies. `None` exactly where it is no day of the years 1
/// to 9999.
pub fn month_start(day: i32) -> Option<i32>
    ensures { result ≡ spec.start_of_month day }
{
    match civil(day) {
        Some(date) => day_of(date.year, date.month, 1),
        None => None,
    }
}

/// `Date.daysInMonth`: how many days a month has. `None` exactly where the year isn't 1 to 9999 or the month isn't 1 to
/// 12.
pub fn days_in(year: i64, month: i64) -> Option<i64>
    ensures { result ≡ spec.days_in year month }
{
    if year < 1 || year > 9999 || month < 1 || month > 12 {
        return None;
    }
    Some(i64::from(civil::days_in_month(year as i16, month as u8)))
}

/// `Date.isLeapYear`. `None` exactly where the year isn't 1 to 9999.
pub fn is_leap(year: i64) -> Option<bool>
    ensures { result ≡ spec.leap year }
{
    if year < 1 || year > 9999 {
        return None;
    }
    Some(civil::is_leap_year(year as i16))
}
