// Instructions that charge a step and that jump.

ghost use Rattle.std.specs.Prelude.{◌≡◌, ◌≤◌, ◌<◌, ◌+◌, ◌-◌, ◌^◌, ◌∷◌, IfOk};
ghost use Rattle.apex_num.specs.declared.kind.LimitKind.TheVariants as K;
ghost use Rattle.value_operators.specs.Operators as operators;
ghost use Rattle.stack_code.specs.Machine as machine;
ghost use Rattle.stack_code.specs.Steps as spec;
ghost use Rattle.program_things.specs.Steps.{IsStep};

use apex_num::{Cell, LimitKind, NoMemory};
use platform_errors::Thrown;
use program_things::{Moved, charge, next, raise, take};
use stack_code::Config;
use std::alloc::Global;
use txn_heap::Value;
use value_operators::truth;

/// Charges one step.
pub fn act_step(c: &mut Config) -> Moved
    requires { c.old.top.pc + 1 < 2 ^ 64 }
    ensures { IsStep (machine.charged K.Steps 1 c.old (λ d. machine.next d d.top.stack)) result c.new }
{
    match charge(LimitKind::Steps, 1, c) {
        Some(over) => over,
        None => {
            c.top.pc += 1;
            Moved::Went
        }
    }
}

/// Jumps forwards.
pub fn jump(count: usize, c: &mut Config) -> Moved
    requires { c.old.top.pc + 1 + count < 2 ^ 64 }
    ensures { IsStep (spec.jump count (c.old) c.old.top.stack) result c.new }
{
    c.top.pc += 1 + count;
    Moved::Went
}

// A Boolean is put, and the machine jumps forwards.
fn jump_with(count: usize, answer: bool, c: &mut Config) -> Result<Moved, NoMemory>
    requires { c.old.top.pc + 1 + count < 2 ^ 64 }
    ensures { IfOk result (λ m. IsStep (spec.jump count (c.old) (Value.Plain (Cell.Bool answer) ∷ c.old.top.stack)) m c.new) }
{
    c.top.stack.push(Value::Plain(Cell::Bool(answer)))?;
    c.top.pc += 1 + count;
    Ok(Moved::Went)
}

/// Takes a Boolean, and jumps forwards where it is false.
pub fn act_unless(alloc: Global, count: usize, c: &mut Config) -> Moved
    requires { c.old.top.pc + 1 + count < 2 ^ 64 }
    ensures { IsStep (machine.on_top c.old.top.stack (λ v stack. machine.on_truth (operators.truth v) c.old (spec.unless count c.old stack))) result c.new }
{
    let value = take(&mut c.top.stack);
    match truth(&value) {
        None => raise(alloc, Thrown::NullObject, c),
        Some(true) => next(c),
        Some(false) => jump(count, c),
    }
}

/// Takes a Boolean, and where it is false puts it and jumps forwards.
pub fn act_both(alloc: Global, count: usize, c: &mut Config) -> Result<Moved, NoMemory>
    requires { c.old.top.pc + 1 + count < 2 ^ 64 }
    ensures { IfOk result (λ m. IsStep (machine.on_top c.old.top.stack (λ v stack. machine.on_truth (operators.truth v) c.old (spec.both count c.old stack))) m c.new) }
{
    let value = take(&mut c.top.stack);
    match truth(&value) {
        None => Ok(raise(alloc, Thrown::NullObject, c)),
        Some(true) => Ok(next(c)),
        Some(false) => jump_with(count, false, c),
    }
}

/// Takes a Boolean, and where it is true puts it and jumps forwards.
pub fn act_either(alloc: Global, count: usize, c: &mut Config) -> Result<Moved, NoMemory>
    requires { c.old.top.pc + 1 + count < 2 ^ 64 }
    ensures { IfOk result (λ m. IsStep (machine.on_top c.old.top.stack (λ v stack. machine.on_truth (operators.truth v) c.old (spec.either count c.old stack))) m c.new) }
{
    let value = take(&mut c.top.stack);
    match truth(&value) {
        None => Ok(raise(alloc, Thrown::NullObject, c)),
        Some(true) => jump_with(count, true, c),
        Some(false) => Ok(next(c)),
    }
}

/// Jumps backwards.
pub fn act_back(count: usize, c: &mut Config) -> Moved
    requires { count ≤ c.old.top.pc }
    ensures { IsStep (machine.Next.Goes (machine.move c.old (c.old.top.pc - count) c.old.top.stack)) result c.new }
{
    c.top.pc -= count;
    Moved::Went
}
