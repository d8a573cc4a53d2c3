// Instructions that store.

ghost use Rattle.std.specs.Prelude.{◌≡◌, ◌<◌, ◌+◌, ◌^◌, ◌∷◌, [], cond, IfOk};
ghost use Rattle.heap_methods.specs.Operands.{or_null};
ghost use Rattle.txn_heap.specs.Statics.{static_at, with_static};
ghost use Rattle.value_operators.specs.Operators as operators;
ghost use Rattle.stack_code.specs.declared.code.Slot.TheVariants as S;
ghost use Rattle.stack_code.specs.Machine as spec;
ghost use Rattle.stack_code.specs.Things as things;
ghost use Rattle.program_things.specs.Steps.{IsStep};
ghost use Rattle.program_things.specs.Variables.{element, field_stepped, item_stepped, local_changed, static_changed};

use crate::cells::{change_cell, set_cell};
use crate::collections::collect;
use crate::moved::Moved;
use crate::operands::{next, next_with, raise, take};
use crate::variables::{field_value, instance_named, local_at, put_at, static_value};
use apex_num::NoMemory;
use apex_schema::Schema;
use builtin_table::{Builtin, ListMethod};
use platform_errors::Thrown;
use stack_code::{Config, Slot};
use std::alloc::Global;
use txn_heap::{Change, Value};
use typed_program::{Number, StepKind};
use value_operators::{Calculated, stepped};

// ---- values that are stored

fn set_local(slot: usize, c: &mut Config) -> Result<Moved, NoMemory>
    requires { c.old.top.pc + 1 < 2 ^ 64 }
    ensures { IfOk result (λ m. IsStep (things.set_next (S.Local slot) c.old) m c.new) }
{
    let value = take(&mut c.top.stack);
    put_at(slot, value.copy()?, &mut c.top.here.locals)?;
    next_with(value, c)
}

fn set_static(class: usize, place: usize, c: &mut Config) -> Result<Moved, NoMemory>
    requires { c.old.top.pc + 1 < 2 ^ 64 }
    ensures { IfOk result (λ m. IsStep (things.set_next (S.Static class place) c.old) m c.new) }
{
    let value = take(&mut c.top.stack);
    c.world.statics.set(class, place, value.copy()?);
    next_with(value, c)
}

// Stores in a field, and puts another value.
fn field_stored(
    alloc: Global,
    place: usize,
    on: &Value,
    value: Value,
    put: Value,
    c: &mut Config,
) -> Result<Moved, NoMemory>
    requires { c.old.top.pc + 1 < 2 ^ 64 }
    ensures { IfOk result (λ m. IsStep (things.field_stored place on.now value c.old (λ d. spec.next d (put ∷ c.old.top.stack))) m c.new) }
{
    match instance_named(on, &c.world.heap) {
        Some(instance) => {
            c.world.heap.change(instance, Change::Set(place, value))?;
            next_with(put, c)
        }
        None => Ok(raise(alloc, Thrown::NullObject, c)),
    }
}

fn set_field(alloc: Global, place: usize, c: &mut Config) -> Result<Moved, NoMemory>
    requires { c.old.top.pc + 1 < 2 ^ 64 }
    ensures { IfOk result (λ m. IsStep (things.set_next (S.Field place) c.old) m c.new) }
{
    let value = take(&mut c.top.stack);
    let on = take(&mut c.top.stack);
    field_stored(alloc, place, &on, value.copy()?, value, c)
}

// Stores in a list, and puts another value.
fn item_stored(
    alloc: Global,
    on: &Value,
    at: Value,
    value: Value,
    put: Value,
    c: &mut Config,
) -> Result<Moved, NoMemory>
    requires { c.old.top.pc + 1 < 2 ^ 64 }
    ensures { IfOk result (λ m. IsStep (things.stored S.Item (on.now ∷ at ∷ []) value c.old (λ d. spec.next d (put ∷ c.old.top.stack))) m c.new) }
{
    match collect(alloc, Builtin::List(ListMethod::Set), on, &[at, value], c)? {
        Ok(_) => next_with(put, c),
        Err(moved) => Ok(moved),
    }
}

fn set_item(alloc: Global, c: &mut Config) -> Result<Moved, NoMemory>
    requires { c.old.top.pc + 1 < 2 ^ 64 }
    ensures { IfOk result (λ m. IsStep (things.set_next S.Item c.old) m c.new) }
{
    let value = take(&mut c.top.stack);
    let at = take(&mut c.top.stack);
    let on = take(&mut c.top.stack);
    item_stored(alloc, &on, at, value.copy()?, value, c)
}

/// Takes a value and the parts of a variable, stores it and puts it.
pub fn act_set(alloc: Global, slot: Slot, c: &mut Config) -> Result<Moved, NoMemory>
    requires { c.old.top.pc + 1 < 2 ^ 64 }
    ensures { IfOk result (λ m. IsStep (things.set_next slot c.old) m c.new) }
{
    match slot {
        Slot::Local(slot) => set_local(slot, c),
        Slot::Static(class, place) => set_static(class, place, c),
        Slot::Field(place) => set_field(alloc, place, c),
        Slot::Item => set_item(alloc, c),
        Slot::Cell(field, goes_on) => set_cell(alloc, field, goes_on, c),
    }
}

/// Takes a value into a local.
pub fn act_store(slot: usize, c: &mut Config) -> Result<Moved, NoMemory>
    requires { c.old.top.pc + 1 < 2 ^ 64 }
    ensures { IfOk result (λ m. IsStep (spec.on_top c.old.top.stack (λ v stack. spec.next (spec.with_local c.old slot v) stack)) m c.new) }
{
    let value = take(&mut c.top.stack);
    put_at(slot, value, &mut c.top.here.locals)?;
    Ok(next(c))
}

/// Takes a value into a static of a class that is being prepared.
pub fn act_set_static(class: usize, place: usize, c: &mut Config) -> Moved
    requires { c.old.top.pc + 1 < 2 ^ 64 }
    ensures { IsStep (spec.on_top c.old.top.stack (λ v stack. spec.next (spec.with_statics c.old (with_static class place v c.old.world.statics)) stack)) result c.new }
{
    let value = take(&mut c.top.stack);
    c.world.statics.set(class, place, value);
    next(c)
}

/// Takes a value into a field of the instance that the code runs on.
pub fn act_set_own(alloc: Global, place: usize, c: &mut Config) -> Result<Moved, NoMemory>
    requires { c.old.top.pc + 1 < 2 ^ 64 }
    ensures { IfOk result (λ m. IsStep (spec.on_top c.old.top.stack (λ v stack. things.field_stored place c.old.top.here.this v c.old (λ d. spec.next d stack))) m c.new) }
{
    let value = take(&mut c.top.stack);
    match instance_named(&c.top.here.this, &c.world.heap) {
        Some(instance) => {
            c.world.heap.change(instance, Change::Set(place, value))?;
            Ok(next(c))
        }
        None => Ok(raise(alloc, Thrown::NullObject, c)),
    }
}

// ---- `++` and `--`

pub(crate) fn chosen(before: bool, new: Value, old: Value) -> Value
    ensures { result ≡ cond before new old }
{
    if before { new } else { old }
}

fn change_local(
    alloc: Global,
    kind: StepKind,
    number: Number,
    slot: usize,
    c: &mut Config,
) -> Result<Moved, NoMemory>
    requires { c.old.top.pc + 1 < 2 ^ 64 }
    ensures { IfOk result (λ m. IsStep (local_changed kind number slot c.old) m c.new) }
{
    let old = local_at(&c.top.here.locals, slot)?;
    match stepped(kind.up, number, &old) {
        Calculated::Val(new) => {
            put_at(slot, new.copy()?, &mut c.top.here.locals)?;
            next_with(chosen(kind.before, new, old), c)
        }
        Calculated::Fails(thrown) => Ok(raise(alloc, thrown, c)),
    }
}

fn change_static(
    alloc: Global,
    kind: StepKind,
    number: Number,
    class: usize,
    place: usize,
    c: &mut Config,
) -> Result<Moved, NoMemory>
    requires { c.old.top.pc + 1 < 2 ^ 64 }
    ensures { IfOk result (λ m. IsStep (static_changed kind number class place c.old) m c.new) }
{
    let old = static_value(&c.world.statics, class, place)?;
    match stepped(kind.up, number, &old) {
        Calculated::Val(new) => {
            c.world.statics.set(class, place, new.copy()?);
            next_with(chosen(kind.before, new, old), c)
        }
        Calculated::Fails(thrown) => Ok(raise(alloc, thrown, c)),
    }
}

fn field_changed(
    alloc: Global,
    kind: StepKind,
    number: Number,
    place: usize,
    on: &Value,
    old: Value,
    c: &mut Config,
) -> Result<Moved, NoMemory>
    requires { c.old.top.pc + 1 < 2 ^ 64 }
    ensures { IfOk result (λ m. IsStep (spec.on_calc (operators.stepped kind.up number old) c.old (λ new. things.field_stored place on.now new c.old (λ e. spec.next e (cond kind.before new old ∷ c.old.top.stack)))) m c.new) }
{
    match stepped(kind.up, number, &old) {
        Calculated::Val(new) => {
            let value = new.copy()?;
            field_stored(alloc, place, on, value, chosen(kind.before, new, old), c)
        }
        Calculated::Fails(thrown) => Ok(raise(alloc, thrown, c)),
    }
}

fn change_field(
    alloc: Global,
    kind: StepKind,
    number: Number,
    place: usize,
    c: &mut Config,
) -> Result<Moved, NoMemory>
    requires { c.old.top.pc + 1 < 2 ^ 64 }
    ensures { IfOk result (λ m. IsStep (field_stepped kind number place c.old) m c.new) }
{
    let on = take(&mut c.top.stack);
    match field_value(place, &on, &c.world.heap)? {
        Some(old) => field_changed(alloc, kind, number, place, &on, old, c),
        None => Ok(raise(alloc, Thrown::NullObject, c)),
    }
}

// The element has its new value, and the new or the old one is put.
fn item_changed(
    alloc: Global,
    kind: StepKind,
    number: Number,
    on: &Value,
    at: Value,
    old: Value,
    c: &mut Config,
) -> Result<Moved, NoMemory>
    requires { c.old.top.pc + 1 < 2 ^ 64 }
    ensures { IfOk result (λ m. IsStep (spec.on_calc (operators.stepped kind.up number old) c.old (λ new. things.stored S.Item (on.now ∷ at ∷ []) new c.old (λ e. spec.next e (cond kind.before new old ∷ c.old.top.stack)))) m c.new) }
{
    match stepped(kind.up, number, &old) {
        Calculated::Val(new) => {
            let value = new.copy()?;
            item_stored(alloc, on, at, value, chosen(kind.before, new, old), c)
        }
        Calculated::Fails(thrown) => Ok(raise(alloc, thrown, c)),
    }
}

fn step_item(
    alloc: Global,
    kind: StepKind,
    number: Number,
    on: &Value,
    at: Value,
    c: &mut Config,
) -> Result<Moved, NoMemory>
    requires { c.old.top.pc + 1 < 2 ^ 64 }
    ensures { IfOk result (λ m. IsStep (element on.now at c.old (λ old d. spec.on_calc (operators.stepped kind.up number old) d (λ new. things.stored S.Item (on.now ∷ at ∷ []) new d (λ e. spec.next e (cond kind.before new old ∷ c.old.top.stack))))) m c.new) }
{
    match collect(alloc, Builtin::List(ListMethod::Get), on, &[at.copy()?], c)? {
        Ok(old) => item_changed(alloc, kind, number, on, at, old, c),
        Err(moved) => Ok(moved),
    }
}

fn change_item(
    alloc: Global,
    kind: StepKind,
    number: Number,
    c: &mut Config,
) -> Result<Moved, NoMemory>
    requires { c.old.top.pc + 1 < 2 ^ 64 }
    ensures { IfOk result (λ m. IsStep (item_stepped kind number c.old) m c.new) }
{
    let at = take(&mut c.top.stack);
    let on = take(&mut c.top.stack);
    step_item(alloc, kind, number, &on, at, c)
}

/// `++` or `--`: takes the parts of a variable, changes it, and puts its new or its old value.
pub fn act_change(
    alloc: Global,
    schema: &Schema,
    kind: StepKind,
    number: Number,
    slot: Slot,
    c: &mut Config,
) -> Result<Moved, NoMemory>
    requires { c.old.top.pc + 1 < 2 ^ 64 }
    ensures { IfOk result (λ m. IsStep (things.change_next schema.now kind number slot c.old) m c.new) }
{
    match slot {
        Slot::Local(slot) => change_local(alloc, kind, number, slot, c),
        Slot::Static(class, place) => change_static(alloc, kind, number, class, place, c),
        Slot::Field(place) => change_field(alloc, kind, number, place, c),
        Slot::Item => change_item(alloc, kind, number, c),
        Slot::Cell(field, goes_on) => change_cell(alloc, schema, kind, number, field, goes_on, c),
    }
}
