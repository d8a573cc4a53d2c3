// Instructions of constants and operators.

ghost use Rattle.std.specs.Prelude.{◌≡◌, ◌<◌, ◌+◌, ◌^◌, ◌∷◌, true, false, cond, IfOk};
ghost use Rattle.apex_num.specs.declared.cell.Cell.TheVariants as C;
ghost use Rattle.txn_heap.specs.declared.thing.Value.TheVariants.{Plain};
ghost use Rattle.value_operators.specs.Operators as operators;
ghost use Rattle.stack_code.specs.Machine as spec;
ghost use Rattle.stack_code.specs.Steps as steps;
ghost use Rattle.stack_code.specs.Things as things;
ghost use Rattle.program_things.specs.Steps.{IsStep};

use crate::charges::charge_sized;
use crate::moved::Moved;
use crate::operands::{next, next_with, raise, take};
use apex_num::{Cell, NoMemory};
use platform_errors::Thrown;
use stack_code::Config;
use std::alloc::Global;
use txn_heap::Value;
use typed_program::{Conversion, Number, TypedOp};
use value_operators::{Calculated, applied, converted, joined, joined_size, negated, truth};

/// Puts a constant.
pub fn act_push(cell: &Cell, c: &mut Config) -> Result<Moved, NoMemory>
    requires { c.old.top.pc + 1 < 2 ^ 64 }
    ensures { IfOk result (λ m. IsStep (spec.next c.old (Plain cell.now ∷ c.old.top.stack)) m c.new) }
{
    let value = Value::Plain(cell.copy()?);
    next_with(value, c)
}

/// Puts the instance that the code runs on.
pub fn act_this(c: &mut Config) -> Result<Moved, NoMemory>
    requires { c.old.top.pc + 1 < 2 ^ 64 }
    ensures { IfOk result (λ m. IsStep (spec.next c.old (c.old.top.here.this ∷ c.old.top.stack)) m c.new) }
{
    let value = c.top.here.this.copy()?;
    next_with(value, c)
}

/// Takes a value.
pub fn act_pop(c: &mut Config) -> Moved
    requires { c.old.top.pc + 1 < 2 ^ 64 }
    ensures { IsStep (spec.on_top c.old.top.stack (λ v stack. spec.next c.old stack)) result c.new }
{
    take(&mut c.top.stack);
    next(c)
}

/// On with a value, or with what is thrown in its place.
pub(crate) fn calc_next(
    alloc: Global,
    calculated: Calculated,
    c: &mut Config,
) -> Result<Moved, NoMemory>
    requires { c.old.top.pc + 1 < 2 ^ 64 }
    ensures { IfOk result (λ m. IsStep (spec.on_calc calculated c.old (λ w. spec.next c.old (w ∷ c.old.top.stack))) m c.new) }
{
    match calculated {
        Calculated::Val(value) => next_with(value, c),
        Calculated::Fails(thrown) => Ok(raise(alloc, thrown, c)),
    }
}

/// Takes a value and puts what it becomes.
pub fn act_convert(alloc: Global, how: Conversion, c: &mut Config) -> Result<Moved, NoMemory>
    requires { c.old.top.pc + 1 < 2 ^ 64 }
    ensures { IfOk result (λ m. IsStep (spec.on_top c.old.top.stack (λ v stack. spec.on_calc (operators.converted how v) c.old (λ w. spec.next c.old (w ∷ stack)))) m c.new) }
{
    let value = take(&mut c.top.stack);
    calc_next(alloc, converted(alloc, how, value)?, c)
}

/// Takes a number and puts its negative.
pub fn act_negate(alloc: Global, number: Number, c: &mut Config) -> Result<Moved, NoMemory>
    requires { c.old.top.pc + 1 < 2 ^ 64 }
    ensures { IfOk result (λ m. IsStep (spec.on_top c.old.top.stack (λ v stack. spec.on_calc (operators.negated number v) c.old (λ w. spec.next c.old (w ∷ stack)))) m c.new) }
{
    let value = take(&mut c.top.stack);
    calc_next(alloc, negated(number, &value), c)
}

fn other(b: bool) -> bool
    ensures { result ≡ cond b false true }
{
    !b
}

// The other truth; where there is none, a null is thrown.
fn not_next(alloc: Global, b: Option<bool>, c: &mut Config) -> Result<Moved, NoMemory>
    requires { c.old.top.pc + 1 < 2 ^ 64 }
    ensures { IfOk result (λ m. IsStep (spec.on_truth b c.old (λ t. spec.next c.old (Plain (C.Bool (cond t false true)) ∷ c.old.top.stack))) m c.new) }
{
    match b {
        Some(b) => next_with(Value::Plain(Cell::Bool(other(b))), c),
        None => Ok(raise(alloc, Thrown::NullObject, c)),
    }
}

/// Takes a Boolean and puts the other one.
pub fn act_not(alloc: Global, c: &mut Config) -> Result<Moved, NoMemory>
    requires { c.old.top.pc + 1 < 2 ^ 64 }
    ensures { IfOk result (λ m. IsStep (spec.on_top c.old.top.stack (λ v stack. spec.on_truth (operators.truth v) c.old (λ b. spec.next c.old (Plain (C.Bool (cond b false true)) ∷ stack)))) m c.new) }
{
    let value = take(&mut c.top.stack);
    not_next(alloc, truth(&value), c)
}

fn truth_next(alloc: Global, b: Option<bool>, c: &mut Config) -> Result<Moved, NoMemory>
    requires { c.old.top.pc + 1 < 2 ^ 64 }
    ensures { IfOk result (λ m. IsStep (spec.on_truth b c.old (λ t. spec.next c.old (Plain (C.Bool t) ∷ c.old.top.stack))) m c.new) }
{
    match b {
        Some(b) => next_with(Value::Plain(Cell::Bool(b)), c),
        None => Ok(raise(alloc, Thrown::NullObject, c)),
    }
}

/// Takes a Boolean that is there and puts it.
pub fn act_truth(alloc: Global, c: &mut Config) -> Result<Moved, NoMemory>
    requires { c.old.top.pc + 1 < 2 ^ 64 }
    ensures { IfOk result (λ m. IsStep (spec.on_top c.old.top.stack (λ v stack. spec.on_truth (operators.truth v) c.old (λ b. spec.next c.old (Plain (C.Bool b) ∷ stack)))) m c.new) }
{
    let value = take(&mut c.top.stack);
    truth_next(alloc, truth(&value), c)
}

// A joined text is charged before it is made.
fn join_next(alloc: Global, v: &Value, w: &Value, c: &mut Config) -> Result<Moved, NoMemory>
    requires { c.old.top.pc + 1 < 2 ^ 64 }
    ensures { IfOk result (λ m. IsStep (things.text_next (operators.joined v.now w.now) c.old c.old.top.stack) m c.new) }
{
    match charge_sized(Some(joined_size(v, w) as u64), c) {
        Some(moved) => Ok(moved),
        None => {
            let text = joined(alloc, v, w)?;
            next_with(Value::Plain(Cell::Text(text)), c)
        }
    }
}

fn applied_next(
    alloc: Global,
    left: Conversion,
    op: TypedOp,
    right: Conversion,
    v: &Value,
    w: &Value,
    c: &mut Config,
) -> Result<Moved, NoMemory>
    requires { c.old.top.pc + 1 < 2 ^ 64 }
    ensures { IfOk result (λ m. IsStep (spec.on_calc (operators.applied left op right v.now w.now) c.old (λ x. spec.next c.old (x ∷ c.old.top.stack))) m c.new) }
{
    calc_next(alloc, applied(alloc, left, op, right, v, w)?, c)
}

// What an operator gives at two values.
fn operator_next(
    alloc: Global,
    left: Conversion,
    op: TypedOp,
    right: Conversion,
    v: &Value,
    w: &Value,
    c: &mut Config,
) -> Result<Moved, NoMemory>
    requires { c.old.top.pc + 1 < 2 ^ 64 }
    ensures { IfOk result (λ m. IsStep (steps.operator_next left op right v.now w.now c.old c.old.top.stack) m c.new) }
{
    match op {
        TypedOp::Join => join_next(alloc, v, w, c),
        TypedOp::Arithmetic(_, _) => applied_next(alloc, left, op, right, v, w, c),
        TypedOp::Equal => applied_next(alloc, left, op, right, v, w, c),
        TypedOp::Differs => applied_next(alloc, left, op, right, v, w, c),
        TypedOp::Order(_) => applied_next(alloc, left, op, right, v, w, c),
        TypedOp::And => applied_next(alloc, left, op, right, v, w, c),
        TypedOp::Or => applied_next(alloc, left, op, right, v, w, c),
    }
}

/// Takes two values and puts what the operator gives.
pub fn act_calc(
    alloc: Global,
    left: Conversion,
    op: TypedOp,
    right: Conversion,
    c: &mut Config,
) -> Result<Moved, NoMemory>
    requires { c.old.top.pc + 1 < 2 ^ 64 }
    ensures { IfOk result (λ m. IsStep (spec.on_top c.old.top.stack (λ w rest. spec.on_top rest (λ v stack. steps.operator_next left op right v w c.old stack))) m c.new) }
{
    let second = take(&mut c.top.stack);
    let first = take(&mut c.top.stack);
    operator_next(alloc, left, op, right, &first, &second, c)
}
