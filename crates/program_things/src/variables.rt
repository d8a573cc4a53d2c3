// Instructions of variables.

ghost use Rattle.std.specs.Prelude.{◌≡◌, ◌≤◌, ◌<◌, ◌+◌, ◌^◌, ◌∷◌, [], cond, slice_get, slice_index_or, length, IfOk, OnOk};
ghost use Rattle.std.specs.Option.{option_copied};
ghost use Rattle.request_states.specs.States.{put_at as put_there};
ghost use Rattle.request_states.specs.Values.{null};
ghost use Rattle.heap_methods.specs.Operands.{or_null};
ghost use Rattle.txn_heap.specs.Statics.{static_at};
ghost use Rattle.txn_heap.specs.declared.thing.Value.{Value as AnyValue};
ghost use Rattle.stack_code.specs.declared.code.Slot.TheVariants as S;
ghost use Rattle.stack_code.specs.Machine as spec;
ghost use Rattle.stack_code.specs.Things as things;
ghost use Rattle.program_things.specs.Steps.{IsStep};
ghost use Rattle.program_things.specs.Variables.{element, field_at, field_fetched, field_got, field_of, instance_at, is_instance, item_fetched, item_got};

use crate::cells::{fetch_cell, get_cell};
use crate::collections::collect;
use crate::moved::Moved;
use crate::operands::{next_with, raise, take};
use apex_list::Items;
use apex_num::{Cell, NoMemory};
use apex_schema::Schema;
use builtin_table::{Builtin, ListMethod};
use platform_errors::Thrown;
use stack_code::{Config, Slot};
use std::alloc::Global;
use txn_heap::{Heap, Ref, Statics, Thing, Value};

// ---- what variables are

// The value in a slot; null where the slot has none yet.
pub(crate) fn local_at(locals: &Items<Value>, slot: usize) -> Result<Value, NoMemory>
    ensures { IfOk result (λ v. v ≡ slice_index_or locals.now slot null) }
{
    if slot < locals.len() {
        locals.as_slice()[slot].copy()
    } else {
        Ok(Value::Plain(Cell::Null))
    }
}

// Slots in front of this one have a null at least.
fn fill(slot: usize, locals: &mut Items<Value>) -> Result<(), NoMemory>
    ensures same { OnOk result ((v : AnyValue) → put_there slot v locals.new ≡ put_there slot v locals.old) }
    ensures long { OnOk result (slot ≤ length locals.new) }
{
    'fill: while locals.len() < slot {
        locals.push(Value::Plain(Cell::Null))?;
    }
    Ok(())
}

/// A local has its slot from its first value on.
pub fn put_at(slot: usize, value: Value, locals: &mut Items<Value>) -> Result<(), NoMemory>
    ensures { OnOk result (locals.new ≡ put_there slot value locals.old) }
{
    fill(slot, locals)?;
    if slot < locals.len() {
        locals.set(slot, value);
    } else {
        locals.push(value)?;
    }
    Ok(())
}

// The value of a static; null where there is none.
pub(crate) fn static_value(statics: &Statics, class: usize, place: usize) -> Result<Value, NoMemory>
    ensures { IfOk result (λ v. v ≡ or_null (static_at class place statics.now)) }
{
    match statics.get(class, place) {
        Some(value) => value.copy(),
        None => Ok(Value::Plain(Cell::Null)),
    }
}

// A field of an instance.
fn field_in(place: usize, thing: Option<&Thing>) -> Result<Option<Value>, NoMemory>
    ensures { IfOk result (λ v. v ≡ field_of place (option_copied thing.entry)) }
{
    match thing {
        Some(Thing::Instance(instance)) => Ok(Some(local_at(&instance.fields, place)?)),
        _ => Ok(None),
    }
}

// A field of the instance that a value names; none where it names no instance.
pub(crate) fn field_value(place: usize, on: &Value, heap: &Heap) -> Result<Option<Value>, NoMemory>
    ensures { IfOk result (λ v. v ≡ field_at place on.now heap.now) }
{
    match on {
        Value::Plain(_) => Ok(None),
        Value::Object(thing) => field_in(place, heap.get(*thing)),
    }
}

fn is_an_instance(thing: Option<&Thing>) -> bool
    ensures { result ≡ is_instance (option_copied thing.entry) }
{
    match thing {
        Some(Thing::Instance(_)) => true,
        _ => false,
    }
}

// The instance that a value names; none where it names no instance.
pub(crate) fn instance_named(on: &Value, heap: &Heap) -> Option<Ref>
    ensures { result ≡ instance_at on.now heap.now }
{
    match on {
        Value::Plain(_) => None,
        Value::Object(thing) => {
            if is_an_instance(heap.get(*thing)) {
                Some(*thing)
            } else {
                None
            }
        }
    }
}

// ---- loads

fn get_local(slot: usize, c: &mut Config) -> Result<Moved, NoMemory>
    requires { c.old.top.pc + 1 < 2 ^ 64 }
    ensures { IfOk result (λ m. IsStep (spec.next c.old (slice_index_or c.old.top.here.locals slot null ∷ c.old.top.stack)) m c.new) }
{
    let value = local_at(&c.top.here.locals, slot)?;
    next_with(value, c)
}

fn get_static(class: usize, place: usize, c: &mut Config) -> Result<Moved, NoMemory>
    requires { c.old.top.pc + 1 < 2 ^ 64 }
    ensures { IfOk result (λ m. IsStep (spec.next c.old (or_null (static_at class place c.old.world.statics) ∷ c.old.top.stack)) m c.new) }
{
    let value = static_value(&c.world.statics, class, place)?;
    next_with(value, c)
}

fn get_field(alloc: Global, place: usize, c: &mut Config) -> Result<Moved, NoMemory>
    requires { c.old.top.pc + 1 < 2 ^ 64 }
    ensures { IfOk result (λ m. IsStep (field_got place c.old) m c.new) }
{
    let on = take(&mut c.top.stack);
    match field_value(place, &on, &c.world.heap)? {
        Some(value) => next_with(value, c),
        None => Ok(raise(alloc, Thrown::NullObject, c)),
    }
}

fn item_next(alloc: Global, on: &Value, at: Value, c: &mut Config) -> Result<Moved, NoMemory>
    requires { c.old.top.pc + 1 < 2 ^ 64 }
    ensures { IfOk result (λ m. IsStep (element on.now at c.old (λ v d. spec.next d (v ∷ c.old.top.stack))) m c.new) }
{
    match collect(alloc, Builtin::List(ListMethod::Get), on, &[at], c)? {
        Ok(value) => next_with(value, c),
        Err(moved) => Ok(moved),
    }
}

fn get_item(alloc: Global, c: &mut Config) -> Result<Moved, NoMemory>
    requires { c.old.top.pc + 1 < 2 ^ 64 }
    ensures { IfOk result (λ m. IsStep (item_got c.old) m c.new) }
{
    let at = take(&mut c.top.stack);
    let on = take(&mut c.top.stack);
    item_next(alloc, &on, at, c)
}

/// Takes the parts of a variable and puts its value.
pub fn act_get(
    alloc: Global,
    schema: &Schema,
    slot: Slot,
    c: &mut Config,
) -> Result<Moved, NoMemory>
    requires { c.old.top.pc + 1 < 2 ^ 64 }
    ensures { IfOk result (λ m. IsStep (things.get_next schema.now slot c.old) m c.new) }
{
    match slot {
        Slot::Local(slot) => get_local(slot, c),
        Slot::Static(class, place) => get_static(class, place, c),
        Slot::Field(place) => get_field(alloc, place, c),
        Slot::Item => get_item(alloc, c),
        Slot::Cell(field, goes_on) => get_cell(alloc, schema, field, goes_on, c),
    }
}

fn fetch_field(alloc: Global, place: usize, c: &mut Config) -> Result<Moved, NoMemory>
    requires { c.old.top.pc + 1 < 2 ^ 64 }
    ensures { IfOk result (λ m. IsStep (field_fetched place c.old) m c.new) }
{
    let Some(on) = c.top.stack.pop() else {
        return Ok(raise(alloc, Thrown::NullObject, c));
    };
    match field_value(place, &on, &c.world.heap)? {
        Some(value) => {
            c.top.stack.push(on)?;
            next_with(value, c)
        }
        None => Ok(raise(alloc, Thrown::NullObject, c)),
    }
}

// Puts a list, a position in it, and the element there.
fn put_item(alloc: Global, on: Value, at: Value, c: &mut Config) -> Result<Moved, NoMemory>
    requires { c.old.top.pc + 1 < 2 ^ 64 }
    ensures { IfOk result (λ m. IsStep (element on at c.old (λ v d. spec.next d (v ∷ at ∷ on ∷ c.old.top.stack))) m c.new) }
{
    match collect(alloc, Builtin::List(ListMethod::Get), &on, &[at.copy()?], c)? {
        Ok(value) => {
            c.top.stack.push(on)?;
            c.top.stack.push(at)?;
            next_with(value, c)
        }
        Err(moved) => Ok(moved),
    }
}

fn fetch_item(alloc: Global, c: &mut Config) -> Result<Moved, NoMemory>
    requires { c.old.top.pc + 1 < 2 ^ 64 }
    ensures { IfOk result (λ m. IsStep (item_fetched c.old) m c.new) }
{
    let Some(at) = c.top.stack.pop() else {
        return Ok(raise(alloc, Thrown::NullObject, c));
    };
    let Some(on) = c.top.stack.pop() else {
        return Ok(raise(alloc, Thrown::NullObject, c));
    };
    put_item(alloc, on, at, c)
}

/// Puts the value of a variable behind its parts, which stay.
pub fn act_fetch(
    alloc: Global,
    schema: &Schema,
    slot: Slot,
    c: &mut Config,
) -> Result<Moved, NoMemory>
    requires { c.old.top.pc + 1 < 2 ^ 64 }
    ensures { IfOk result (λ m. IsStep (things.fetch_next schema.now slot c.old) m c.new) }
{
    match slot {
        Slot::Local(slot) => get_local(slot, c),
        Slot::Static(class, place) => get_static(class, place, c),
        Slot::Field(place) => fetch_field(alloc, place, c),
        Slot::Item => fetch_item(alloc, c),
        Slot::Cell(field, goes_on) => fetch_cell(alloc, schema, field, goes_on, c),
    }
}
