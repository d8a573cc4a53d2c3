// Methods that read texts, and methods of numbers.

ghost use Rattle.std.specs.Prelude.{◌≡◌, ◌≤◌, IfSome, pos, ◌*ℤ◌, unsigned_abs};
ghost use Rattle.std.specs.Int.{int_max, int_min};
ghost use Rattle.builtin_table.specs.declared.method.ReadMethod.TheVariants as R;
ghost use Rattle.builtin_table.specs.declared.method.MathMethod.TheVariants as M;
ghost use Rattle.builtin_table.specs.Answers.{Answers, Fails, invalid_number};
ghost use Rattle.number_methods.specs.Values.{scaled, in_range};
ghost use Rattle.builtin_table.specs.Meanings as spec;

use crate::exception::{
    BuiltinEnd, ExceptionClass, invalid_conversion, out_of_range, thrown, thrown_with,
};
use crate::method::{DecimalMethod, MathMethod, ReadMethod};
use crate::shown::decimal_text;
use crate::values::{Call, day, integer, moment};
use apex_num::{Cell, Dec, read_id};
use std::alloc::Global;

fn invalid_number(alloc: Global, text: &str) -> BuiltinEnd
    ensures { Fails (invalid_number text.now) result }
{
    thrown_with(alloc, ExceptionClass::Type, "Invalid number: ", text)
}

fn whole(alloc: Global, n: Option<i64>, text: &str) -> Call
    ensures { Answers (spec.whole_or n (invalid_number text.now)) result }
{
    match n {
        Some(n) => Ok(Cell::Whole(n)),
        None => Err(invalid_number(alloc, text)),
    }
}

fn decimal(alloc: Global, d: Option<Dec>, text: &str) -> Call
    ensures { Answers (spec.decimal_or d (invalid_number text.now)) result }
{
    match d {
        Some(d) => Ok(Cell::Num(d)),
        None => Err(invalid_number(alloc, text)),
    }
}

fn id(alloc: Global, text: &str) -> Call
    ensures { Answers (spec.read_meaning R.Id text.now) result }
{
    match read_id(text.as_bytes()) {
        Some(id) => Ok(Cell::Id(id)),
        None => Err(thrown_with(alloc, ExceptionClass::String, "Invalid id: ", text)),
    }
}

/// A method that reads a text.
pub(crate) fn read_method(alloc: Global, method: ReadMethod, s: &str) -> Call
    ensures { Answers (spec.read_meaning method s.now) result }
{
    match method {
        ReadMethod::Integer => whole(alloc, number_methods::read_integer(s).map(i64::from), s),
        ReadMethod::Long => whole(alloc, number_methods::read_long_text(s), s),
        ReadMethod::Decimal => decimal(alloc, number_methods::read_decimal(s), s),
        ReadMethod::Date => day(alloc, civil_dates::read_date(s.as_bytes())),
        ReadMethod::Moment => moment(alloc, civil_dates::read_stamp(s.as_bytes())),
        ReadMethod::Id => id(alloc, s),
    }
}

// The size of a Long, where it is one.
fn long_size(n: i64) -> i64
    ensures { result ≡ spec.size_within 63 n }
{
    n.wrapping_abs()
}

// The size of an Integer, where it is one.
fn integer_size(n: i64) -> i64
    ensures { result ≡ spec.size_within 31 n }
{
    if n.unsigned_abs() < 2_147_483_648 {
        n.wrapping_abs()
    } else {
        n
    }
}

// -1, 0 or 1.
fn sign(n: i128) -> i64
    ensures { result ≡ spec.sign_of n }
{
    if n < 0 {
        -1
    } else if n == 0 {
        0
    } else {
        1
    }
}

// So many ones.
fn ones(n: i64) -> Dec
    requires { unsigned_abs n ≤ 1 }
    ensures { result ≡ n *ℤ pos 1000000 }
{
    match Dec::of(i128::from(n) * 1_000_000) {
        Some(d) => d,
        None => unreachable!(),
    }
}

// The size of a Decimal.
fn size(d: Dec) -> Dec
    ensures { result ≡ pos (unsigned_abs d) }
{
    match Dec::of(d.millionths().abs()) {
        Some(d) => d,
        None => unreachable!(),
    }
}

/// A method of Math of a whole number.
pub(crate) fn whole_math(alloc: Global, method: MathMethod, n: i64) -> Call
    ensures { Answers (spec.whole_math method n) result }
{
    match method {
        MathMethod::Abs => Ok(Cell::Whole(long_size(n))),
        MathMethod::AbsInteger => Ok(Cell::Whole(integer_size(n))),
        MathMethod::Signum => Ok(Cell::Whole(sign(i128::from(n)))),
        _ => Err(invalid_conversion(alloc)),
    }
}

/// A method of Math of a Decimal.
pub(crate) fn decimal_math(alloc: Global, method: MathMethod, d: Dec) -> Call
    ensures { Answers (spec.decimal_math method d) result }
{
    match method {
        MathMethod::Abs => Ok(Cell::Num(size(d))),
        MathMethod::Signum => Ok(Cell::Num(ones(sign(d.millionths())))),
        _ => Err(invalid_conversion(alloc)),
    }
}

fn remainder(alloc: Global, x: i64, y: i64) -> Call
    ensures { Answers (spec.wholes_math M.Mod x y) result }
{
    match number_methods::modulo(x, y) {
        Some(rest) => Ok(Cell::Whole(rest)),
        None => Err(thrown(alloc, ExceptionClass::Math, "Divide by 0")),
    }
}

/// A method of Math of two whole numbers.
pub(crate) fn wholes_math(alloc: Global, method: MathMethod, x: i64, y: i64) -> Call
    ensures { Answers (spec.wholes_math method x y) result }
{
    match method {
        MathMethod::Max => Ok(Cell::Whole(x.max(y))),
        MathMethod::Min => Ok(Cell::Whole(x.min(y))),
        MathMethod::Mod => remainder(alloc, x, y),
        _ => Err(invalid_conversion(alloc)),
    }
}

fn greater(x: Dec, y: Dec) -> Dec
    ensures { result ≡ int_max x y }
{
    if y.millionths() < x.millionths() {
        x
    } else {
        y
    }
}

fn smaller(x: Dec, y: Dec) -> Dec
    ensures { result ≡ int_min x y }
{
    if y.millionths() < x.millionths() {
        y
    } else {
        x
    }
}

/// A method of Math of two Decimals.
pub(crate) fn decimals_math(alloc: Global, method: MathMethod, x: Dec, y: Dec) -> Call
    ensures { Answers (spec.decimals_math method x y) result }
{
    match method {
        MathMethod::Max => Ok(Cell::Num(greater(x, y))),
        MathMethod::Min => Ok(Cell::Num(smaller(x, y))),
        _ => Err(invalid_conversion(alloc)),
    }
}

/// A method of a Decimal.
pub(crate) fn decimal_method(alloc: Global, method: DecimalMethod, d: Dec) -> Call
    ensures { Answers (spec.decimal_meaning method d) result }
{
    match method {
        DecimalMethod::IntValue => integer(alloc, number_methods::to_integer(d)),
        DecimalMethod::LongValue => Ok(Cell::Whole(number_methods::whole(d))),
        DecimalMethod::Round => Ok(Cell::Whole(number_methods::nearest(d))),
        DecimalMethod::Abs => Ok(Cell::Num(size(d))),
        DecimalMethod::ToPlainString => Ok(Cell::Text(decimal_text(alloc, d)?)),
    }
}

// So many digits behind the dot, from 0 to 6.
fn places_of(n: i64) -> Option<usize>
    ensures value { result ≡ spec.places n }
    ensures few { IfSome result (λ k. k ≤ 6) }
{
    if n < 0 || n > 6 {
        return None;
    }
    Some(n as usize)
}

// A Decimal rounded to so many digits behind the dot.
fn scaled(alloc: Global, d: Dec, places: usize) -> Call
    requires { places ≤ 6 }
    ensures { Answers (spec.scaled_or (in_range (scaled d places))) result }
{
    match number_methods::set_scale(d, places) {
        Ok(d) => Ok(Cell::Num(d)),
        Err(_) => Err(out_of_range(alloc)),
    }
}

/// `setScale`.
pub(crate) fn set_scale(alloc: Global, d: Dec, places: i64) -> Call
    ensures { Answers (spec.set_scale_meaning d places) result }
{
    match places_of(places) {
        Some(places) => scaled(alloc, d, places),
        None => Err(out_of_range(alloc)),
    }
}
