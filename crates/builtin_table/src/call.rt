// Calls by their arguments.

ghost use Rattle.std.specs.Prelude.{◌≡◌, min};
ghost use Rattle.std.specs.List.{list_any};
ghost use Rattle.builtin_table.specs.Answers.{Answers, invalid_date};
ghost use Rattle.builtin_table.specs.Meanings as spec;
ghost use Rattle.builtin_table.specs.declared.method.Builtin.TheVariants as B;

use crate::call_date::{date_later, date_method, dates_method, moment_later, moment_method};
use crate::call_number::{
    decimal_math, decimal_method, decimals_math, read_method, set_scale, whole_math, wholes_math,
};
use crate::call_text::{nullable_method, text_at_method, text_method, texts_method};
use crate::exception::{BuiltinEnd, invalid_conversion, invalid_date, null_object};
use crate::method::{
    Builtin, DateMethod, DecimalMethod, MathMethod, MomentMethod, NullableMethod, ReadMethod,
    TextAtMethod, TextMethod, TextsMethod,
};
use crate::shown::text_of;
use crate::values::{Call, copied, day, made, moment, part, place};
use apex_num::Cell;
use std::alloc::Global;

fn on_text(alloc: Global, method: TextMethod, args: &[Cell]) -> Call
    ensures { Answers (spec.plain (B.Text method) args.now) result }
{
    match args {
        [Cell::Text(s)] => text_method(alloc, method, s),
        _ => Err(invalid_conversion(alloc)),
    }
}

fn on_read(alloc: Global, method: ReadMethod, args: &[Cell]) -> Call
    ensures { Answers (spec.plain (B.Read method) args.now) result }
{
    match args {
        [Cell::Text(s)] => read_method(alloc, method, s.as_str()),
        _ => Err(invalid_conversion(alloc)),
    }
}

fn on_texts(alloc: Global, method: TextsMethod, args: &[Cell]) -> Call
    ensures { Answers (spec.plain (B.Texts method) args.now) result }
{
    match args {
        [Cell::Text(s), Cell::Text(t)] => texts_method(alloc, method, s.as_str(), t.as_str()),
        _ => Err(invalid_conversion(alloc)),
    }
}

fn on_text_at(alloc: Global, method: TextAtMethod, args: &[Cell]) -> Call
    ensures { Answers (spec.plain (B.TextAt method) args.now) result }
{
    match args {
        [Cell::Text(s), Cell::Whole(n)] => text_at_method(alloc, method, s, *n),
        _ => Err(invalid_conversion(alloc)),
    }
}

fn index_of_from(alloc: Global, args: &[Cell]) -> Call
    ensures { Answers (spec.plain B.IndexOfFrom args.now) result }
{
    match args {
        [Cell::Text(s), Cell::Text(t), Cell::Whole(n)] => Ok(place(text_methods::index_from(
            s,
            t.as_str(),
            *n,
        ))),
        _ => Err(invalid_conversion(alloc)),
    }
}

fn substring_to(alloc: Global, args: &[Cell]) -> Call
    ensures { Answers (spec.plain B.SubstringTo args.now) result }
{
    match args {
        [Cell::Text(s), Cell::Whole(n), Cell::Whole(m)] => {
            part(alloc, text_methods::part(s, *n, *m))
        }
        _ => Err(invalid_conversion(alloc)),
    }
}

fn mid(alloc: Global, args: &[Cell]) -> Call
    ensures { Answers (spec.plain B.Mid args.now) result }
{
    match args {
        [Cell::Text(s), Cell::Whole(n), Cell::Whole(m)] => {
            copied(alloc, text_methods::mid(s, *n, *m))
        }
        _ => Err(invalid_conversion(alloc)),
    }
}

fn replace(alloc: Global, args: &[Cell]) -> Call
    ensures { Answers (spec.plain B.Replace args.now) result }
{
    match args {
        [Cell::Text(s), Cell::Text(t), Cell::Text(u)] => made(
            alloc,
            text_methods::replace(alloc, s.as_str(), t.as_str(), u.as_str())?,
        ),
        _ => Err(invalid_conversion(alloc)),
    }
}

fn math(alloc: Global, method: MathMethod, args: &[Cell]) -> Call
    ensures { Answers (spec.plain (B.Math method) args.now) result }
{
    match args {
        [Cell::Whole(x)] => whole_math(alloc, method, *x),
        [Cell::Num(x)] => decimal_math(alloc, method, *x),
        [Cell::Whole(x), Cell::Whole(y)] => wholes_math(alloc, method, *x, *y),
        [Cell::Num(x), Cell::Num(y)] => decimals_math(alloc, method, *x, *y),
        _ => Err(invalid_conversion(alloc)),
    }
}

// `intValue` of a Long.
fn long_method(alloc: Global, method: DecimalMethod, n: i64) -> Call
    ensures { Answers (spec.long_meaning method n) result }
{
    match method {
        DecimalMethod::IntValue => Ok(Cell::Whole(i64::from(number_methods::wrapped(n)))),
        _ => Err(invalid_conversion(alloc)),
    }
}

fn on_number(alloc: Global, method: DecimalMethod, args: &[Cell]) -> Call
    ensures { Answers (spec.plain (B.Decimal method) args.now) result }
{
    match args {
        [Cell::Num(d)] => decimal_method(alloc, method, *d),
        [Cell::Whole(n)] => long_method(alloc, method, *n),
        _ => Err(invalid_conversion(alloc)),
    }
}

fn on_scale(alloc: Global, args: &[Cell]) -> Call
    ensures { Answers (spec.plain B.SetScale args.now) result }
{
    match args {
        [Cell::Num(d), Cell::Whole(n)] => set_scale(alloc, *d, *n),
        _ => Err(invalid_conversion(alloc)),
    }
}

fn on_date(alloc: Global, method: DateMethod, args: &[Cell]) -> Call
    ensures { Answers (spec.plain (B.Date method) args.now) result }
{
    match args {
        [Cell::Day(n)] => date_method(alloc, method, *n),
        [Cell::Day(n), Cell::Whole(k)] => date_later(alloc, method, *n, *k),
        [Cell::Day(a), Cell::Day(b)] => dates_method(alloc, method, *a, *b),
        _ => Err(invalid_conversion(alloc)),
    }
}

fn on_moment(alloc: Global, method: MomentMethod, args: &[Cell]) -> Call
    ensures { Answers (spec.plain (B.Moment method) args.now) result }
{
    match args {
        [Cell::Moment(n)] => moment_method(alloc, method, *n),
        [Cell::Moment(n), Cell::Whole(k)] => moment_later(alloc, method, *n, *k),
        _ => Err(invalid_conversion(alloc)),
    }
}

fn new_date(alloc: Global, args: &[Cell]) -> Call
    ensures { Answers (spec.plain B.NewDate args.now) result }
{
    match args {
        [Cell::Whole(y), Cell::Whole(m), Cell::Whole(d)] => {
            day(alloc, civil_dates::date_of(*y, *m, *d))
        }
        _ => Err(invalid_conversion(alloc)),
    }
}

fn count_or(alloc: Global, n: Option<i64>) -> Call
    ensures { Answers (spec.whole_or n invalid_date) result }
{
    match n {
        Some(n) => Ok(Cell::Whole(n)),
        None => Err(invalid_date(alloc)),
    }
}

fn days_in_month(alloc: Global, args: &[Cell]) -> Call
    ensures { Answers (spec.plain B.DaysInMonth args.now) result }
{
    match args {
        [Cell::Whole(y), Cell::Whole(m)] => count_or(alloc, civil_dates::days_in(*y, *m)),
        _ => Err(invalid_conversion(alloc)),
    }
}

fn leap_or(alloc: Global, leap: Option<bool>) -> Call
    ensures { Answers (spec.leap_or leap) result }
{
    match leap {
        Some(b) => Ok(Cell::Bool(b)),
        None => Err(invalid_date(alloc)),
    }
}

fn is_leap_year(alloc: Global, args: &[Cell]) -> Call
    ensures { Answers (spec.plain B.IsLeapYear args.now) result }
{
    match args {
        [Cell::Whole(y)] => leap_or(alloc, civil_dates::is_leap(*y)),
        _ => Err(invalid_conversion(alloc)),
    }
}

fn three_wholes(args: &[Cell]) -> Option<(i64, i64, i64)>
    ensures { result ≡ spec.three_wholes args.now }
{
    match args {
        [Cell::Whole(a), Cell::Whole(b), Cell::Whole(c)] => Some((*a, *b, *c)),
        _ => None,
    }
}

fn moment_of(alloc: Global, date: Option<(i64, i64, i64)>, time: Option<(i64, i64, i64)>) -> Call
    ensures { Answers (spec.new_moment_meaning date time) result }
{
    match (date, time) {
        (Some((y, m, d)), Some((h, mi, s))) => {
            moment(alloc, civil_dates::new_moment(y, m, d, h, mi, s))
        }
        _ => Err(invalid_conversion(alloc)),
    }
}

fn at_most_three(n: usize) -> usize
    ensures { result ≡ min 3 n }
{
    if n < 3 { n } else { 3 }
}

fn new_moment(alloc: Global, args: &[Cell]) -> Call
    ensures { Answers (spec.plain B.NewMoment args.now) result }
{
    let (date, time) = args.split_at(at_most_three(args.len()));
    moment_of(alloc, three_wholes(date), three_wholes(time))
}

// A call none of whose arguments is null.
fn plain(alloc: Global, which: Builtin, args: &[Cell]) -> Call
    ensures { Answers (spec.plain which args.now) result }
{
    match which {
        Builtin::Text(method) => on_text(alloc, method, args),
        Builtin::Texts(method) => on_texts(alloc, method, args),
        Builtin::TextAt(method) => on_text_at(alloc, method, args),
        Builtin::IndexOfFrom => index_of_from(alloc, args),
        Builtin::SubstringTo => substring_to(alloc, args),
        Builtin::Mid => mid(alloc, args),
        Builtin::Replace => replace(alloc, args),
        Builtin::Read(method) => on_read(alloc, method, args),
        Builtin::Math(method) => math(alloc, method, args),
        Builtin::Decimal(method) => on_number(alloc, method, args),
        Builtin::SetScale => on_scale(alloc, args),
        Builtin::Date(method) => on_date(alloc, method, args),
        Builtin::NewDate => new_date(alloc, args),
        Builtin::DaysInMonth => days_in_month(alloc, args),
        Builtin::IsLeapYear => is_leap_year(alloc, args),
        Builtin::Moment(method) => on_moment(alloc, method, args),
        Builtin::NewMoment => new_moment(alloc, args),
        _ => Err(invalid_conversion(alloc)),
    }
}

fn is_null(cell: &Cell) -> bool
    ensures { result ≡ spec.is_null cell.now }
{
    match cell {
        Cell::Null => true,
        _ => false,
    }
}

/// Whether a receiver or an argument is null.
pub fn has_null(args: &[Cell]) -> bool
    ensures { result ≡ list_any spec.is_null args.now }
{
    for cell in args {
        if is_null(cell) {
            return true;
        }
    }
    false
}

fn on_nullable(alloc: Global, method: NullableMethod, args: &[Cell]) -> Call
    ensures { Answers (spec.on_one (spec.nullable_meaning method) args.now) result }
{
    match args {
        [cell] => nullable_method(method, cell),
        _ => Err(invalid_conversion(alloc)),
    }
}

fn on_text_of(alloc: Global, args: &[Cell]) -> Call
    ensures { Answers (spec.meaning B.TextOf args.now) result }
{
    match args {
        [cell] => Ok(Cell::Text(text_of(alloc, cell)?)),
        _ => Err(invalid_conversion(alloc)),
    }
}

/// What a method on primitives answers; the first of the arguments is the receiver, where there is one. A null receiver
/// or argument throws NullPointerException, except where the method is for nulls too; arguments that aren't of the
/// method's types, which checked code never hands in, throw TypeException.
pub fn call_builtin(alloc: Global, which: Builtin, args: &[Cell]) -> Result<Cell, BuiltinEnd>
    ensures { Answers (spec.meaning which args.now) result }
{
    match which {
        Builtin::Nullable(method) => on_nullable(alloc, method, args),
        Builtin::TextOf => on_text_of(alloc, args),
        _ => {
            if has_null(args) {
                return Err(null_object(alloc));
            }
            plain(alloc, which, args)
        }
    }
}
