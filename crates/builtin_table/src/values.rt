// Values as answers.

ghost use Rattle.std.specs.Prelude.{◌≡◌, ◌<◌, ◌^◌, string_bytes, MatchOption, IfSome};
ghost use Rattle.builtin_table.specs.Answers.{Answers, Gives, out_of_bounds, out_of_range};
ghost use Rattle.builtin_table.specs.Meanings as spec;

use crate::exception::{BuiltinEnd, ExceptionClass, invalid_date, out_of_range, thrown};
use apex_num::{Cell, Dec, Text};
use std::alloc::Global;

/// The answer of a method.
pub(crate) type Call = Result<Cell, BuiltinEnd>;

/// A copy of a text.
pub(crate) fn copied(alloc: Global, text: &str) -> Call
    ensures { Answers (spec.text text.now) result }
{
    match Text::from_str(alloc, text) {
        Ok(text) => Ok(Cell::Text(text)),
        Err(_) => Err(BuiltinEnd::NoMemory),
    }
}

/// A text that was made.
pub(crate) fn made(alloc: Global, text: String) -> Call
    ensures { Answers (spec.text (string_bytes text)) result }
{
    match Text::from_string(alloc, text) {
        Ok(text) => Ok(Cell::Text(text)),
        Err(_) => Err(BuiltinEnd::NoMemory),
    }
}

/// A place, or -1.
pub(crate) fn place(place: Option<usize>) -> Cell
    requires { IfSome place (λ n. n < 2 ^ 63) }
    ensures { spec.place place ≡ Gives result }
{
    match place {
        Some(n) => Cell::Whole(n as i64),
        None => Cell::Whole(-1),
    }
}

/// A part of a text, or the exception.
pub(crate) fn part(alloc: Global, cut: Option<&str>) -> Call
    ensures { MatchOption cut.entry (Answers out_of_bounds result) (λ s. Answers (spec.text s.now) result) }
{
    match cut {
        Some(text) => copied(alloc, text),
        None => Err(thrown(alloc, ExceptionClass::String, "Position out of bounds")),
    }
}

/// A day, or the exception.
pub(crate) fn day(alloc: Global, day: Option<i32>) -> Call
    ensures { Answers (spec.day_or day) result }
{
    match day {
        Some(n) => Ok(Cell::Day(n)),
        None => Err(invalid_date(alloc)),
    }
}

/// A moment, or the exception.
pub(crate) fn moment(alloc: Global, moment: Option<i64>) -> Call
    ensures { Answers (spec.moment_or moment) result }
{
    match moment {
        Some(n) => Ok(Cell::Moment(n)),
        None => Err(invalid_date(alloc)),
    }
}

/// A whole number, or out of range.
pub(crate) fn integer(alloc: Global, n: Option<i32>) -> Call
    ensures { Answers (spec.whole_or n out_of_range) result }
{
    match n {
        Some(n) => Ok(Cell::Whole(i64::from(n))),
        None => Err(out_of_range(alloc)),
    }
}
