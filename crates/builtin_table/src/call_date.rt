// Methods of Date and Datetime.

ghost use Rattle.std.specs.Prelude.{◌<◌, ◌^◌, unsigned_abs};
ghost use Rattle.builtin_table.specs.Answers.{Answers};
ghost use Rattle.builtin_table.specs.Meanings as spec;
ghost use Rattle.civil_dates.specs.Dates.{Date as TheDate};

use crate::exception::{invalid_conversion, invalid_date};
use crate::method::{DateMethod, MomentMethod};
use crate::values::{Call, day, moment};
use apex_num::Cell;
use civil_dates::{civil, split};
use std::alloc::Global;

fn year(alloc: Global, n: i32) -> Call
    ensures { Answers (spec.of_date n (λ (d : TheDate). d.year)) result }
{
    match civil(n) {
        Some(date) => Ok(Cell::Whole(i64::from(date.year))),
        None => Err(invalid_date(alloc)),
    }
}

fn month(alloc: Global, n: i32) -> Call
    ensures { Answers (spec.of_date n (λ (d : TheDate). d.month)) result }
{
    match civil(n) {
        Some(date) => Ok(Cell::Whole(i64::from(date.month))),
        None => Err(invalid_date(alloc)),
    }
}

fn day_of_month(alloc: Global, n: i32) -> Call
    ensures { Answers (spec.of_date n (λ (d : TheDate). d.day)) result }
{
    match civil(n) {
        Some(date) => Ok(Cell::Whole(i64::from(date.day))),
        None => Err(invalid_date(alloc)),
    }
}

/// A method of a Date alone.
pub(crate) fn date_method(alloc: Global, method: DateMethod, n: i32) -> Call
    ensures { Answers (spec.date_meaning method n) result }
{
    match method {
        DateMethod::Year => year(alloc, n),
        DateMethod::Month => month(alloc, n),
        DateMethod::Day => day_of_month(alloc, n),
        DateMethod::ToStartOfMonth => day(alloc, civil_dates::month_start(n)),
        _ => Err(invalid_conversion(alloc)),
    }
}

/// A method of a Date and a number.
pub(crate) fn date_later(alloc: Global, method: DateMethod, n: i32, count: i64) -> Call
    ensures { Answers (spec.date_later_meaning method n count) result }
{
    match method {
        DateMethod::AddDays => day(alloc, civil_dates::days_later(n, count)),
        DateMethod::AddMonths => day(alloc, civil_dates::months_later(n, count)),
        DateMethod::AddYears => day(alloc, civil_dates::years_later(n, count)),
        _ => Err(invalid_conversion(alloc)),
    }
}

/// A method of two Dates.
pub(crate) fn dates_method(alloc: Global, method: DateMethod, a: i32, b: i32) -> Call
    ensures { Answers (spec.dates_meaning method a b) result }
{
    match method {
        DateMethod::DaysBetween => Ok(Cell::Whole(i64::from(b) - i64::from(a))),
        _ => Err(invalid_conversion(alloc)),
    }
}

// What a moment has of its day and of its second.
fn moment_part(alloc: Global, method: MomentMethod, n: i64, day: i32, second: u32) -> Call
    requires small { second < 86400 }
    requires range { unsigned_abs n < 2 ^ 50 }
    ensures { Answers (spec.moment_part method n day second) result }
{
    match method {
        MomentMethod::GetTime => Ok(Cell::Whole(n * 1000)),
        MomentMethod::Date => Ok(Cell::Day(day)),
        MomentMethod::Year => year(alloc, day),
        MomentMethod::Month => month(alloc, day),
        MomentMethod::Day => day_of_month(alloc, day),
        MomentMethod::Hour => Ok(Cell::Whole(i64::from(second / 3600))),
        MomentMethod::Minute => Ok(Cell::Whole(i64::from(second / 60 % 60))),
        MomentMethod::Second => Ok(Cell::Whole(i64::from(second % 60))),
        _ => Err(invalid_conversion(alloc)),
    }
}

/// A method of a Datetime alone.
pub(crate) fn moment_method(alloc: Global, method: MomentMethod, n: i64) -> Call
    ensures { Answers (spec.moment_meaning method n) result }
{
    match split(n) {
        Some((day, second)) => moment_part(alloc, method, n, day, second),
        None => Err(invalid_date(alloc)),
    }
}

/// A method of a Datetime and a number.
pub(crate) fn moment_later(alloc: Global, method: MomentMethod, n: i64, count: i64) -> Call
    ensures { Answers (spec.moment_later_meaning method n count) result }
{
    match method {
        MomentMethod::AddDays => moment(alloc, civil_dates::add_days(n, count)),
        MomentMethod::AddHours => moment(alloc, civil_dates::add_hours(n, count)),
        MomentMethod::AddMinutes => moment(alloc, civil_dates::add_minutes(n, count)),
        MomentMethod::AddSeconds => moment(alloc, civil_dates::add_seconds(n, count)),
        _ => Err(invalid_conversion(alloc)),
    }
}
