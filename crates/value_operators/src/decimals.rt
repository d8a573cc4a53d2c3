// Operators on Decimals.

ghost use Rattle.std.specs.Prelude.{◌≡◌, ℤ, neg_ℤ};
ghost use Rattle.apex_num.specs.Decimals.{Answers};
ghost use Rattle.apex_num.specs.declared.cell.Cell.TheVariants as C;
ghost use Rattle.apex_num.specs.declared.dec.NumFault.TheVariants as Fault;
ghost use Rattle.platform_errors.specs.declared.thrown.Thrown.TheVariants as T;
ghost use Rattle.txn_heap.specs.declared.thing.Value.TheVariants.{Plain};
ghost use Rattle.value_operators.specs.declared.calculated.Calculated.TheVariants.{Val, Fails};
ghost use Rattle.value_operators.specs.Operators as spec;

use crate::calculated::{Calculated, plain};
use apex_num::{Cell, Dec, NumFault, dec_add, dec_div, dec_mul, dec_sub};
use platform_errors::Thrown;
use typed_program::Arithmetic;

// A Decimal, or why there is none.
fn answered(res: Result<Dec, NumFault>) -> Calculated
    ensures range { (c : ℤ) → Answers c res → result ≡ spec.decimal c }
    ensures zero { res ≡ Err Fault.DivideByZero → result ≡ Fails T.DivideByZero }
{
    match res {
        Ok(d) => plain(Cell::Num(d)),
        Err(NumFault::DivideByZero) => Calculated::Fails(Thrown::DivideByZero),
        Err(_) => Calculated::Fails(Thrown::OutOfRange),
    }
}

pub(crate) fn on_decimals(op: Arithmetic, x: Dec, y: Dec) -> Calculated
    ensures { result ≡ spec.on_decimals op x y }
{
    match op {
        Arithmetic::Plus => answered(dec_add(x, y)),
        Arithmetic::Minus => answered(dec_sub(x, y)),
        Arithmetic::Times => answered(dec_mul(x, y)),
        Arithmetic::Over => answered(dec_div(x, y)),
    }
}

pub(crate) fn negative(x: Dec) -> Calculated
    ensures { result ≡ Val (Plain (C.Num (neg_ℤ x))) }
{
    match Dec::of(-x.millionths()) {
        Some(d) => plain(Cell::Num(d)),
        None => unreachable!(),
    }
}
