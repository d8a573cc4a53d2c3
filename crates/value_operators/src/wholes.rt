// Operators on Integers and Longs.

ghost use Rattle.std.specs.Prelude.{◌≡◌, ◌<◌, ◌^◌, ℤ, unsigned_abs, Some};
ghost use Rattle.std.specs.Int.{w32, w64, int_wrap};
ghost use Rattle.value_operators.specs.Operators as spec;

use crate::calculated::{Calculated, plain};
use apex_num::Cell;
use platform_errors::Thrown;
use typed_program::Arithmetic;

// What 32 bits have of a number.
fn low_32(n: i128) -> i32
    ensures { result ≡ int_wrap w32 n }
{
    let low = n.rem_euclid(4_294_967_296) as u32;
    low.cast_signed()
}

// What 64 bits have of a number.
fn low_64(n: i128) -> i64
    ensures { result ≡ int_wrap w64 n }
{
    let low = n.rem_euclid(18_446_744_073_709_551_616) as u64;
    low.cast_signed()
}

// The exact result.
fn exactly(op: Arithmetic, x: i64, y: i64) -> Option<i128>
    ensures { result ≡ spec.exactly op x y }
{
    let x = i128::from(x);
    let y = i128::from(y);
    match op {
        Arithmetic::Plus => Some(x + y),
        Arithmetic::Minus => Some(x - y),
        Arithmetic::Times => Some(x * y),
        Arithmetic::Over => if y == 0 { None } else { Some(x / y) },
    }
}

pub(crate) fn integer(n: i128) -> Calculated
    ensures { result ≡ spec.wrapped w32 (Some n) }
{
    plain(Cell::Whole(i64::from(low_32(n))))
}

pub(crate) fn long(n: i128) -> Calculated
    ensures { result ≡ spec.wrapped w64 (Some n) }
{
    plain(Cell::Whole(low_64(n)))
}

pub(crate) fn on_integers(op: Arithmetic, x: i64, y: i64) -> Calculated
    ensures { result ≡ spec.wrapped w32 (spec.exactly op x y) }
{
    match exactly(op, x, y) {
        Some(n) => integer(n),
        None => Calculated::Fails(Thrown::DivideByZero),
    }
}

pub(crate) fn on_longs(op: Arithmetic, x: i64, y: i64) -> Calculated
    ensures { result ≡ spec.wrapped w64 (spec.exactly op x y) }
{
    match exactly(op, x, y) {
        Some(n) => long(n),
        None => Calculated::Fails(Thrown::DivideByZero),
    }
}
