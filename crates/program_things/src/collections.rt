// Methods of collections, and collections that are made.

ghost use Rattle.std.specs.Prelude.{◌≡◌, ◌<◌, ◌+◌, ◌*◌, ◌^◌, ◌∷◌, ◌++◌, [], slice_get, length, IfOk};
ghost use Rattle.apex_num.specs.declared.kind.LimitKind.TheVariants as K;
ghost use Rattle.heap_methods.specs.Outcomes.{content};
ghost use Rattle.heap_methods.specs.Making as making;
ghost use Rattle.heap_methods.specs.Plans.{planned};
ghost use Rattle.std.specs.Option.{is_some, option_copied};
ghost use Rattle.apex_meaning.specs.Collections as items;
ghost use Rattle.apex_meaning.specs.Collections.{collection as made_as};
ghost use Rattle.txn_heap.specs.declared.thing.Thing.TheVariants as T;
ghost use Rattle.stack_code.specs.Machine as spec;
ghost use Rattle.stack_code.specs.Steps as steps;
ghost use Rattle.stack_code.specs.Things as things;
ghost use Rattle.program_things.specs.Steps.{IsStep};
ghost use Rattle.program_things.specs.Collects.{Collects, Carries, SameFrame, Throws, ThrowsBy, TakesPair, filled_of, flat};

use crate::charges::charge;
use crate::moved::Moved;
use crate::operands::{next_with, raise, take, take_values};
use apex_list::{Items, Stack};
use apex_num::{LimitKind, NoMemory, Text};
use builtin_table::{Builtin, BuiltinEnd, ExceptionClass};
use heap_methods::{Collection, Plan, carry_out, copied, map_of, plan_call, set_of};
use heap_units::{plan_units, thing_units};
use platform_errors::Thrown;
use stack_code::Config;
use std::alloc::{AllocError, Global};
use txn_heap::{Entries, Heap, Ref, Thing, Value};
use typed_program::CollectionKind;

// ---- methods

// What is planned is charged and then carried out.
fn carry(on: Ref, plan: Plan, c: &mut Config) -> Result<Result<Value, Moved>, NoMemory>
    ensures does { IfOk result (λ r. Carries (planned plan (slice_get c.old.world.heap on.place)) on.place c.old r c.new) }
    ensures frame { IfOk result (λ r. SameFrame c.old r c.new) }
{
    let units = plan_units(&c.world.heap, on, &plan)?;
    match charge(LimitKind::Alloc, units, c) {
        Some(moved) => Ok(Err(moved)),
        None => Ok(Ok(carry_out(&mut c.world.heap, on, plan)?)),
    }
}

// A method that throws charges nothing.
fn throw(alloc: Global, class: ExceptionClass, message: Text, c: &mut Config) -> Moved
    ensures { Throws class message c.old result c.new }
{
    match charge(LimitKind::Alloc, 0, c) {
        Some(moved) => moved,
        None => raise(alloc, Thrown::Builtin(class, message), c),
    }
}

// A method that can't be carried out.
fn ended(alloc: Global, end: BuiltinEnd, c: &mut Config) -> Result<Moved, NoMemory>
    ensures { IfOk result (λ m. ThrowsBy end c.old m c.new) }
{
    match end {
        BuiltinEnd::Throw(class, message) => Ok(throw(alloc, class, message, c)),
        BuiltinEnd::NoMemory => Err(AllocError),
    }
}

// A method of the collection that is there.
fn collect_on(
    alloc: Global,
    which: Builtin,
    on: Ref,
    args: &[Value],
    c: &mut Config,
) -> Result<Result<Value, Moved>, NoMemory>
    ensures does { IfOk result (λ r. Collects which (Value.Object on) args.now c.old r c.new) }
    ensures frame { IfOk result (λ r. SameFrame c.old r c.new) }
{
    match plan_call(&c.world.heap, which, on, args) {
        Ok(plan) => carry(on, plan, c),
        Err(end) => Ok(Err(ended(alloc, end, c)?)),
    }
}

/// Calls a method of a collection: its answer, or the step that the machine makes in its place. What it adds is charged first; a
/// null one throws.
pub(crate) fn collect(
    alloc: Global,
    which: Builtin,
    on: &Value,
    args: &[Value],
    c: &mut Config,
) -> Result<Result<Value, Moved>, NoMemory>
    ensures does { IfOk result (λ r. Collects which on.now args.now c.old r c.new) }
    ensures frame { IfOk result (λ r. SameFrame c.old r c.new) }
{
    match on {
        Value::Plain(_) => Ok(Err(raise(alloc, Thrown::NullObject, c))),
        Value::Object(thing) => collect_on(alloc, which, *thing, args, c),
    }
}

// ---- things that are made

/// On to the next place, with a new thing.
pub(crate) fn made_next(thing: Thing, c: &mut Config) -> Result<Moved, NoMemory>
    requires { c.old.top.pc + 1 < 2 ^ 64 }
    ensures { IfOk result (λ m. IsStep (spec.next (spec.with_heap c.old (c.old.world.heap ++ thing ∷ [])) (Value.Object (record { place = length c.old.world.heap }) ∷ c.old.top.stack)) m c.new) }
{
    let made = c.world.heap.make(thing)?;
    next_with(Value::Object(made), c)
}

/// A new thing is charged at 32 units and those of what is in it, and put.
pub(crate) fn make_thing(thing: Thing, c: &mut Config) -> Result<Moved, NoMemory>
    requires { c.old.top.pc + 1 < 2 ^ 64 }
    ensures { IfOk result (λ m. IsStep (things.make_for (32 + content thing) thing c.old c.old.top.stack) m c.new) }
{
    match charge(LimitKind::Alloc, thing_units(&thing), c) {
        Some(moved) => Ok(moved),
        None => made_next(thing, c),
    }
}

// The list, set or map of these items.
fn filled(alloc: Global, kind: CollectionKind, values: Vec<Value>) -> Result<Thing, NoMemory>
    ensures { IfOk result (λ thing. thing ≡ filled_of kind values.items) }
{
    match kind {
        CollectionKind::List => Ok(Thing::List(Items::of(values))),
        CollectionKind::Set(_) => Ok(Thing::Set(set_of(alloc, values.as_slice())?)),
        CollectionKind::Map(_) => Ok(Thing::Map(Entries::new(alloc))),
    }
}

/// Takes so many values and puts a new list or set of them.
pub fn act_filled(
    alloc: Global,
    kind: CollectionKind,
    count: usize,
    c: &mut Config,
) -> Result<Moved, NoMemory>
    requires { c.old.top.pc + 1 < 2 ^ 64 }
    ensures { IfOk result (λ m. IsStep (spec.on_taken count c.old.top.stack (λ vs stack. things.filled_next kind vs c.old stack)) m c.new) }
{
    let values = take_values(alloc, count, &mut c.top.stack)?;
    let thing = filled(alloc, kind, values)?;
    make_thing(thing, c)
}

// A key and its value, which lie on top.
fn take_pair(stack: &mut Stack<Value>) -> (Value, Value)
    ensures { TakesPair stack.old result.0 result.1 stack.new }
{
    let value = take(stack);
    let key = take(stack);
    (key, value)
}

// So many keys, each in front of its value, the pair that was put first in front.
fn take_pairs(
    alloc: Global,
    count: usize,
    stack: &mut Stack<Value>,
) -> Result<Vec<(Value, Value)>, NoMemory>
    ensures { IfOk result (λ pairs. spec.taken (count + count) stack.old [] ≡ (flat pairs.items, stack.new)) }
{
    let mut pairs = Vec::new(alloc);
    'pairs: for i in 0..count {
        pairs.push(take_pair(stack))?;
    }
    pairs.reverse();
    Ok(pairs)
}

/// Takes so many pairs of a key and a value, and puts a new map of them.
pub fn act_entries(alloc: Global, count: usize, c: &mut Config) -> Result<Moved, NoMemory>
    requires { c.old.top.pc + 1 < 2 ^ 64 }
    ensures { IfOk result (λ m. IsStep (spec.on_taken (count + count) c.old.top.stack (λ vs stack. things.entries_next vs c.old stack)) m c.new) }
{
    let pairs = take_pairs(alloc, count, &mut c.top.stack)?;
    let entries = map_of(alloc, pairs.as_slice())?;
    make_thing(Thing::Map(entries), c)
}

fn collection_of(kind: CollectionKind) -> Collection
    ensures { result ≡ made_as kind }
{
    match kind {
        CollectionKind::List => Collection::List,
        CollectionKind::Set(_) => Collection::Set,
        CollectionKind::Map(_) => Collection::Map,
    }
}

fn copied_next(
    alloc: Global,
    into: Collection,
    from: &Value,
    c: &mut Config,
) -> Result<Moved, NoMemory>
    requires { c.old.top.pc + 1 < 2 ^ 64 }
    ensures { IfOk result (λ m. IsStep (things.copied_next (making.copied into from.now c.old.world.heap) c.old c.old.top.stack) m c.new) }
{
    match copied(&c.world.heap, into, from) {
        Ok(thing) => make_thing(thing, c),
        Err(BuiltinEnd::Throw(class, message)) => Ok(throw(alloc, class, message, c)),
        Err(BuiltinEnd::NoMemory) => Err(AllocError),
    }
}

/// Takes a collection and puts a new one of what is in it.
pub fn act_copied(alloc: Global, kind: CollectionKind, c: &mut Config) -> Result<Moved, NoMemory>
    requires { c.old.top.pc + 1 < 2 ^ 64 }
    ensures { IfOk result (λ m. IsStep (spec.on_top c.old.top.stack (λ v stack. things.copied_next (making.copied (made_as kind) v c.old.world.heap) c.old stack)) m c.new) }
{
    let from = take(&mut c.top.stack);
    copied_next(alloc, collection_of(kind), &from, c)
}

// ---- items

// Whether the thing is a list or a set.
fn has_items(thing: Option<&Thing>) -> bool
    ensures { result ≡ is_some (items.items_of_thing (option_copied thing.entry)) }
{
    match thing {
        Some(Thing::List(_)) | Some(Thing::Set(_)) => true,
        _ => false,
    }
}

fn names_items(value: &Value, heap: &Heap) -> bool
    ensures { result ≡ is_some (items.items_of value.now heap.now) }
{
    match value {
        Value::Plain(_) => false,
        Value::Object(thing) => has_items(heap.get(*thing)),
    }
}

fn seen_next(alloc: Global, value: Value, c: &mut Config) -> Result<Moved, NoMemory>
    requires { c.old.top.pc + 1 < 2 ^ 64 }
    ensures { IfOk result (λ m. IsStep (steps.seen_next (items.items_of value c.old.world.heap) value c.old c.old.top.stack) m c.new) }
{
    let seen = names_items(&value, &c.world.heap);
    if seen {
        next_with(value, c)
    } else {
        Ok(raise(alloc, Thrown::NullObject, c))
    }
}

/// Takes a list or a set that is there and puts it; a null one throws.
pub fn act_seen(alloc: Global, c: &mut Config) -> Result<Moved, NoMemory>
    requires { c.old.top.pc + 1 < 2 ^ 64 }
    ensures { IfOk result (λ m. IsStep (spec.on_top c.old.top.stack (λ v stack. steps.seen_next (items.items_of v c.old.world.heap) v c.old stack)) m c.new) }
{
    let value = take(&mut c.top.stack);
    seen_next(alloc, value, c)
}
