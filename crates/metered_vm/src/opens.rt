// Instructions that open and close handlers, and those that leave code.

ghost use Rattle.std.specs.Prelude.{◌≡◌, ◌<◌, ◌+◌, ◌^◌, ◌∷◌, [], List, map, None, IfOk};
ghost use Rattle.std.specs.Option.{option_copied};
ghost use Rattle.activations.specs.declared.abrupt.Abrupt.TheVariants as Why;
ghost use Rattle.apex_num.specs.declared.kind.LimitKind.TheVariants as K;
ghost use Rattle.apex_meaning.specs.Collections as items;
ghost use Rattle.txn_heap.specs.declared.thing.Value.{Value as AnyValue};
ghost use Rattle.value_operators.specs.Operators as operators;
ghost use Rattle.stack_code.specs.Machine as machine;
ghost use Rattle.stack_code.specs.Steps as spec;
ghost use Rattle.stack_code.specs.declared.state.Handler.TheVariants as H;
ghost use Rattle.program_things.specs.Steps.{IsStep};

use crate::jumps::jump;
use activations::{Abrupt, Raised};
use apex_list::Stack;
use apex_num::{Cell, LimitKind, NoMemory};
use platform_errors::Thrown;
use program_things::{Moved, charge, leave, next, put_at, raise, take};
use stack_code::{Config, Handler};
use std::alloc::Global;
use txn_heap::{Heap, Thing, Value};
use typed_program::Conversion;
use value_operators::{Calculated, converted};

// ---- ways out

/// Takes a value, with which the body ends.
pub fn act_return(alloc: Global, c: &mut Config) -> Moved
    ensures { IsStep (machine.on_top c.old.top.stack (λ v stack. machine.leave (Why.Returns v) c.old)) result c.new }
{
    let value = take(&mut c.top.stack);
    leave(alloc, Abrupt::Returns(value), c)
}

/// Takes an exception and throws it; a null throws for itself.
pub fn act_throw(alloc: Global, c: &mut Config) -> Moved
    ensures { IsStep (machine.on_top c.old.top.stack (λ v stack. spec.thrown v c.old)) result c.new }
{
    match take(&mut c.top.stack) {
        Value::Plain(_) => raise(alloc, Thrown::NullObject, c),
        Value::Object(thing) => leave(alloc, Abrupt::Throws(Raised::Made(thing)), c),
    }
}

// ---- what is opened

/// Opens a handler.
pub fn open(handler: Handler, c: &mut Config) -> Result<Moved, NoMemory>
    requires { c.old.top.pc + 1 < 2 ^ 64 }
    ensures { IfOk result (λ m. IsStep (spec.opened handler (c.old) c.old.top.stack) m c.new) }
{
    c.top.handlers.push(handler)?;
    c.top.pc += 1;
    Ok(Moved::Went)
}

// The cells as values, the first one on top.
fn stacked_cells(alloc: Global, cells: &[Cell]) -> Result<Stack<Value>, NoMemory>
    ensures { IfOk result (λ items. items ≡ map AnyValue.Plain cells.now) }
{
    let mut items = Stack::new(alloc);
    let mut left = cells.len();
    'cells: while left > 0 {
        left -= 1;
        items.push(Value::Plain(cells[left].copy()?))?;
    }
    Ok(items)
}

// The values, the first one on top.
fn stacked(alloc: Global, values: &[Value]) -> Result<Stack<Value>, NoMemory>
    ensures { IfOk result (λ items. items ≡ values.now) }
{
    let mut items = Stack::new(alloc);
    let mut left = values.len();
    'values: while left > 0 {
        left -= 1;
        items.push(values[left].copy()?)?;
    }
    Ok(items)
}

// The items of a list or a set.
fn items_of_thing(alloc: Global, thing: Option<&Thing>) -> Result<Option<Stack<Value>>, NoMemory>
    ensures { IfOk result (λ found. found ≡ items.items_of_thing (option_copied thing.entry)) }
{
    match thing {
        Some(Thing::List(values)) => Ok(Some(stacked(alloc, values.as_slice())?)),
        Some(Thing::Set(cells)) => Ok(Some(stacked_cells(alloc, cells.as_slice())?)),
        _ => Ok(None),
    }
}

fn items_of(alloc: Global, value: &Value, heap: &Heap) -> Result<Option<Stack<Value>>, NoMemory>
    ensures { IfOk result (λ found. found ≡ items.items_of value.now heap.now) }
{
    match value {
        Value::Plain(_) => Ok(None),
        Value::Object(thing) => items_of_thing(alloc, heap.get(*thing)),
    }
}

// Opens a loop over these items.
fn open_each(
    alloc: Global,
    found: Option<Stack<Value>>,
    again: usize,
    out: usize,
    c: &mut Config,
) -> Result<Moved, NoMemory>
    requires room { c.old.top.pc + 1 < 2 ^ 64 }
    requires again { c.old.top.pc + 1 + again < 2 ^ 64 }
    requires out { c.old.top.pc + 1 + out < 2 ^ 64 }
    ensures { IfOk result (λ m. IsStep (spec.open_each found again out (c.old) c.old.top.stack) m c.new) }
{
    match found {
        None => Ok(raise(alloc, Thrown::NullObject, c)),
        Some(items) => {
            let behind = c.top.pc + 1;
            open(Handler::Each(items, behind + again, behind + out), c)
        }
    }
}

/// Takes a list or a set, a null one throws, and opens a loop over its items.
pub fn act_open_each(
    alloc: Global,
    again: usize,
    out: usize,
    c: &mut Config,
) -> Result<Moved, NoMemory>
    requires room { c.old.top.pc + 1 < 2 ^ 64 }
    requires again { c.old.top.pc + 1 + again < 2 ^ 64 }
    requires out { c.old.top.pc + 1 + out < 2 ^ 64 }
    ensures { IfOk result (λ m. IsStep (machine.on_top c.old.top.stack (λ v stack. spec.open_each (items.items_of v c.old.world.heap) again out c.old stack)) m c.new) }
{
    let value = take(&mut c.top.stack);
    let found = items_of(alloc, &value, &c.world.heap)?;
    open_each(alloc, found, again, out, c)
}

// ---- the items of a loop

// The next item is in its slot, or what is thrown in its place.
fn item_next(
    alloc: Global,
    slot: usize,
    calculated: Calculated,
    c: &mut Config,
) -> Result<Moved, NoMemory>
    requires { c.old.top.pc + 1 < 2 ^ 64 }
    ensures { IfOk result (λ m. IsStep (machine.on_calc calculated c.old (λ w. machine.next (machine.with_local c.old slot w) c.old.top.stack)) m c.new) }
{
    match calculated {
        Calculated::Fails(thrown) => Ok(raise(alloc, thrown, c)),
        Calculated::Val(value) => {
            put_at(slot, value, &mut c.top.here.locals)?;
            c.top.pc += 1;
            Ok(Moved::Went)
        }
    }
}

// Goes on with what was opened last, which was taken out.
fn each_item(
    alloc: Global,
    slot: usize,
    how: Conversion,
    out: usize,
    handler: Handler,
    c: &mut Config,
) -> Result<Moved, NoMemory>
    requires room { c.old.top.pc + 1 < 2 ^ 64 }
    requires out { c.old.top.pc + 1 + out < 2 ^ 64 }
    ensures { IfOk result (λ m. IsStep (spec.each_item slot how out handler c.old.top.handlers (machine.with_handlers c.old (handler ∷ c.old.top.handlers))) m c.new) }
{
    match handler {
        Handler::Each(items, again, end) => {
            let mut items = items;
            match items.pop() {
                Some(value) => {
                    c.top.handlers.push(Handler::Each(items, again, end))?;
                    item_next(alloc, slot, converted(alloc, how, value)?, c)
                }
                None => {
                    c.top.handlers.push(Handler::Each(items, again, end))?;
                    Ok(jump(out, c))
                }
            }
        }
        handler => {
            c.top.handlers.push(handler)?;
            Ok(jump(out, c))
        }
    }
}

// The next item is in a slot, or the machine jumps forwards where there is none.
fn each_next(
    alloc: Global,
    slot: usize,
    how: Conversion,
    out: usize,
    c: &mut Config,
) -> Result<Moved, NoMemory>
    requires room { c.old.top.pc + 1 < 2 ^ 64 }
    requires out { c.old.top.pc + 1 + out < 2 ^ 64 }
    ensures { IfOk result (λ m. IsStep (spec.on_handler c.old.top.handlers (λ h hs. spec.each_item slot how out h hs c.old)) m c.new) }
{
    match c.top.handlers.pop() {
        Some(handler) => each_item(alloc, slot, how, out, handler, c),
        None => Ok(jump(out, c)),
    }
}

/// Charges one step; puts the next item, converted, into a slot, or jumps forwards where there is none.
pub fn act_each(
    alloc: Global,
    slot: usize,
    how: Conversion,
    out: usize,
    c: &mut Config,
) -> Result<Moved, NoMemory>
    requires room { c.old.top.pc + 1 < 2 ^ 64 }
    requires out { c.old.top.pc + 1 + out < 2 ^ 64 }
    ensures { IfOk result (λ m. IsStep (machine.charged K.Steps 1 c.old (λ d. spec.on_handler d.top.handlers (λ h hs. spec.each_item slot how out h hs d))) m c.new) }
{
    match charge(LimitKind::Steps, 1, c) {
        Some(over) => Ok(over),
        None => each_next(alloc, slot, how, out, c),
    }
}

// ---- what is closed

/// Closes what was opened last.
pub fn act_close(c: &mut Config) -> Moved
    requires { c.old.top.pc + 1 < 2 ^ 64 }
    ensures { IsStep (spec.on_handler c.old.top.handlers (λ h hs. machine.next (machine.with_handlers c.old hs) c.old.top.stack)) result c.new }
{
    c.top.handlers.pop();
    c.top.pc += 1;
    Moved::Went
}

/// Closes what was opened last, and holds that nothing was left.
pub fn act_hold(c: &mut Config) -> Result<Moved, NoMemory>
    requires { c.old.top.pc + 1 < 2 ^ 64 }
    ensures { IfOk result (λ m. IsStep (spec.on_handler c.old.top.handlers (λ h hs. machine.next (machine.with_handlers c.old (H.Held None ∷ hs)) c.old.top.stack)) m c.new) }
{
    c.top.handlers.pop();
    c.top.handlers.push(Handler::Held(None))?;
    c.top.pc += 1;
    Ok(Moved::Went)
}

/// Goes on with what was held.
pub fn act_resume(alloc: Global, c: &mut Config) -> Moved
    requires { c.old.top.pc + 1 < 2 ^ 64 }
    ensures { IsStep (spec.on_handler c.old.top.handlers (λ h hs. spec.resume h hs c.old)) result c.new }
{
    match c.top.handlers.pop() {
        Some(Handler::Held(Some(why))) => leave(alloc, why, c),
        _ => {
            c.top.pc += 1;
            Moved::Went
        }
    }
}
