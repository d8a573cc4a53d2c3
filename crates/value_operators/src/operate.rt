// Operators at values.

ghost use Rattle.std.specs.Prelude.{◌≡◌, IfOk, pos, MatchBool, ⊤};
ghost use Rattle.apex_num.specs.declared.cell.Cell.TheVariants as C;
ghost use Rattle.txn_heap.specs.declared.thing.Value.TheVariants.{Plain};
ghost use Rattle.typed_program.specs.declared.expr.Conversion.TheVariants.{Same};
ghost use Rattle.typed_program.specs.declared.expr.Number.TheVariants.{Integer, Long, Decimal};
ghost use Rattle.value_operators.specs.Operators as spec;

use crate::calculated::{Calculated, boolean, some_null};
use crate::compared::{equal, in_order};
use crate::convert::converted;
use crate::decimals::{negative, on_decimals};
use crate::wholes::{integer, long, on_integers, on_longs};
use apex_num::{Cell, Dec, NoMemory};
use platform_errors::Thrown;
use std::alloc::Global;
use txn_heap::Value;
use typed_program::{Arithmetic, Conversion, Number, TypedOp};

// With a left operand that is a whole number.
fn integer_with(a: Arithmetic, x: i64, w: &Value) -> Calculated
    ensures { result ≡ spec.arithmetic a Integer (Plain (C.Whole x)) w.now }
{
    match w {
        Value::Plain(Cell::Whole(y)) => on_integers(a, x, *y),
        _ => Calculated::Fails(Thrown::NullObject),
    }
}

fn integers(a: Arithmetic, v: &Value, w: &Value) -> Calculated
    ensures { result ≡ spec.arithmetic a Integer v.now w.now }
{
    match v {
        Value::Plain(Cell::Whole(x)) => integer_with(a, *x, w),
        _ => Calculated::Fails(Thrown::NullObject),
    }
}

fn long_with(a: Arithmetic, x: i64, w: &Value) -> Calculated
    ensures { result ≡ spec.arithmetic a Long (Plain (C.Whole x)) w.now }
{
    match w {
        Value::Plain(Cell::Whole(y)) => on_longs(a, x, *y),
        _ => Calculated::Fails(Thrown::NullObject),
    }
}

fn longs(a: Arithmetic, v: &Value, w: &Value) -> Calculated
    ensures { result ≡ spec.arithmetic a Long v.now w.now }
{
    match v {
        Value::Plain(Cell::Whole(x)) => long_with(a, *x, w),
        _ => Calculated::Fails(Thrown::NullObject),
    }
}

fn decimal_with(a: Arithmetic, x: Dec, w: &Value) -> Calculated
    ensures { result ≡ spec.arithmetic a Decimal (Plain (C.Num x)) w.now }
{
    match w {
        Value::Plain(Cell::Num(y)) => on_decimals(a, x, *y),
        _ => Calculated::Fails(Thrown::NullObject),
    }
}

fn decimals(a: Arithmetic, v: &Value, w: &Value) -> Calculated
    ensures { result ≡ spec.arithmetic a Decimal v.now w.now }
{
    match v {
        Value::Plain(Cell::Num(x)) => decimal_with(a, *x, w),
        _ => Calculated::Fails(Thrown::NullObject),
    }
}

fn arithmetic(a: Arithmetic, number: Number, v: &Value, w: &Value) -> Calculated
    ensures { result ≡ spec.arithmetic a number v.now w.now }
{
    match number {
        Number::Integer => integers(a, v, w),
        Number::Long => longs(a, v, w),
        Number::Decimal => decimals(a, v, w),
    }
}

// An operator at operands that are converted.
fn calculated(op: TypedOp, v: &Value, w: &Value) -> Calculated
    ensures { result ≡ spec.calculated op v.now w.now }
{
    match op {
        TypedOp::Arithmetic(a, number) => arithmetic(a, number, v, w),
        TypedOp::Equal => boolean(equal(v, w)),
        TypedOp::Differs => boolean(!equal(v, w)),
        TypedOp::Order(o) => boolean(in_order(o, v, w)),
        TypedOp::Join | TypedOp::And | TypedOp::Or => Calculated::Fails(Thrown::NullObject),
    }
}

// The right operand is converted.
fn with_right(
    alloc: Global,
    op: TypedOp,
    v: &Value,
    right: Conversion,
    w: &Value,
) -> Result<Calculated, NoMemory>
    ensures { IfOk result (λ c. c ≡ spec.then (spec.converted right w.now) (spec.calculated op v.now)) }
{
    match converted(alloc, right, w.copy()?)? {
        Calculated::Val(w) => Ok(calculated(op, v, &w)),
        Calculated::Fails(t) => Ok(Calculated::Fails(t)),
    }
}

// The left operand is converted, and then the right one.
fn with_both(
    alloc: Global,
    left: Conversion,
    op: TypedOp,
    right: Conversion,
    v: &Value,
    w: &Value,
) -> Result<Calculated, NoMemory>
    ensures { IfOk result (λ c. c ≡ spec.then (spec.converted left v.now) (λ x. spec.then (spec.converted right w.now) (spec.calculated op x))) }
{
    match converted(alloc, left, v.copy()?)? {
        Calculated::Val(v) => with_right(alloc, op, &v, right, w),
        Calculated::Fails(t) => Ok(Calculated::Fails(t)),
    }
}

// Whether both operands stay what they are.
fn both_same(left: Conversion, right: Conversion) -> bool
    ensures { MatchBool result ((left ≡ Same) × (right ≡ Same)) ⊤ }
{
    left == Conversion::Same && right == Conversion::Same
}

/// What a binary operator gives, other than the join of texts, `&&` and `||`. Operands that aren't converted take no memory.
pub fn applied(
    alloc: Global,
    left: Conversion,
    op: TypedOp,
    right: Conversion,
    v: &Value,
    w: &Value,
) -> Result<Calculated, NoMemory>
    ensures { IfOk result (λ c. c ≡ spec.applied left op right v.now w.now) }
{
    if both_same(left, right) {
        return Ok(calculated(op, v, w));
    }
    if some_null(v, w) {
        return Ok(calculated(op, v, w));
    }
    with_both(alloc, left, op, right, v, w)
}

fn negative_integer(v: &Value) -> Calculated
    ensures { result ≡ spec.negated Integer v.now }
{
    match v {
        Value::Plain(Cell::Whole(x)) => integer(-i128::from(*x)),
        _ => Calculated::Fails(Thrown::NullObject),
    }
}

fn negative_long(v: &Value) -> Calculated
    ensures { result ≡ spec.negated Long v.now }
{
    match v {
        Value::Plain(Cell::Whole(x)) => long(-i128::from(*x)),
        _ => Calculated::Fails(Thrown::NullObject),
    }
}

fn negative_decimal(v: &Value) -> Calculated
    ensures { result ≡ spec.negated Decimal v.now }
{
    match v {
        Value::Plain(Cell::Num(x)) => negative(*x),
        _ => Calculated::Fails(Thrown::NullObject),
    }
}

/// What `-` before a number gives.
pub fn negated(number: Number, v: &Value) -> Calculated
    ensures { result ≡ spec.negated number v.now }
{
    match number {
        Number::Integer => negative_integer(v),
        Number::Long => negative_long(v),
        Number::Decimal => negative_decimal(v),
    }
}

fn one_decimal() -> Dec
    ensures { result ≡ pos 1000000 }
{
    match Dec::of(1_000_000) {
        Some(d) => d,
        None => unreachable!(),
    }
}

fn one(number: Number) -> Value
    ensures { result ≡ spec.one number }
{
    match number {
        Number::Integer | Number::Long => Value::Plain(Cell::Whole(1)),
        Number::Decimal => Value::Plain(Cell::Num(one_decimal())),
    }
}

/// The number that `++`, where it goes up, or `--` makes of a number.
pub fn stepped(up: bool, number: Number, v: &Value) -> Calculated
    ensures { result ≡ spec.stepped up number v.now }
{
    let one = one(number);
    if up {
        arithmetic(Arithmetic::Plus, number, v, &one)
    } else {
        arithmetic(Arithmetic::Minus, number, v, &one)
    }
}
