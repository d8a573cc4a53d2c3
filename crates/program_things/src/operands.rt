// Operands, and where the machine goes on.

ghost use Rattle.std.specs.Prelude.{◌≡◌, ◌<◌, ◌+◌, ◌^◌, ◌∷◌, [], IfOk};
ghost use Rattle.stack_code.specs.Machine as spec;
ghost use Rattle.program_things.specs.Steps.{IsStep, Takes};

use crate::moved::Moved;
use activations::{Abrupt, Raised};
use apex_list::Stack;
use apex_num::{Cell, NoMemory};
use platform_errors::Thrown;
use stack_code::{Config, Mode};
use std::alloc::Global;
use txn_heap::Value;

/// It does this.
pub fn set_mode(c: &mut Config, mode: Mode)
    ensures { c.new ≡ spec.in_mode c.old mode }
{
    c.mode = mode;
}

/// Code is left.
pub fn leave(alloc: Global, why: Abrupt, c: &mut Config) -> Moved
    ensures { IsStep (spec.leave why c.old) result c.new }
{
    c.top.stack = Stack::new(alloc);
    c.mode = Mode::Leaving(why);
    Moved::Went
}

/// The platform throws.
pub fn raise(alloc: Global, thrown: Thrown, c: &mut Config) -> Moved
    ensures { IsStep (spec.raise thrown c.old) result c.new }
{
    leave(alloc, Abrupt::Throws(Raised::Platform(thrown)), c)
}

/// On to the next place.
pub fn next(c: &mut Config) -> Moved
    requires { c.old.top.pc + 1 < 2 ^ 64 }
    ensures { IsStep (spec.next c.old c.old.top.stack) result c.new }
{
    c.top.pc += 1;
    Moved::Went
}

/// On to the next place, with one value more.
pub fn next_with(value: Value, c: &mut Config) -> Result<Moved, NoMemory>
    requires { c.old.top.pc + 1 < 2 ^ 64 }
    ensures { IfOk result (λ m. IsStep (spec.next c.old (value ∷ c.old.top.stack)) m c.new) }
{
    c.top.stack.push(value)?;
    c.top.pc += 1;
    Ok(Moved::Went)
}

/// Takes the value on top; where there is none it is null.
pub fn take(stack: &mut Stack<Value>) -> Value
    ensures { Takes stack.old result stack.new }
{
    match stack.pop() {
        Some(value) => value,
        None => Value::Plain(Cell::Null),
    }
}

/// Takes so many values, the one that was put first in front.
pub fn take_values(
    alloc: Global,
    count: usize,
    stack: &mut Stack<Value>,
) -> Result<Vec<Value>, NoMemory>
    ensures { IfOk result (λ values. spec.taken count stack.old [] ≡ (values.items, stack.new)) }
{
    let mut values = Vec::new(alloc);
    'values: for i in 0..count {
        values.push(take(stack))?;
    }
    values.reverse();
    Ok(values)
}
