// Dates, and the numbers of their days.

ghost use Rattle.std.specs.Prelude.{◌≡◌};
ghost use Rattle.civil_dates.specs.Dates as spec;

use jiff_core::civil::Date;

/// A date: its year, its month from 1 and its day from 1.
#[derive(Clone, Copy, Drop)]
pub struct Civil {
    pub year: u16,
    pub month: u16,
    pub day: u16,
}

// The number of a date's day. `None` exactly where the parts are no date of the years 1 to 9999.
pub(crate) fn day_of(year: u16, month: u16, day: u16) -> Option<i32>
    ensures { result ≡ spec.day_number year month day }
{
    if year == 0 || year > 9999 || month > 12 || day > 31 {
        return None;
    }
    match Date::new(year as i16, month as i8, day as i8) {
        Ok(date) => Some(date.to_unix_epoch_day()),
        Err(_) => None,
    }
}
