// Collections that are made of items, and out of other collections.

ghost use Rattle.std.specs.Prelude.{◌≡◌, ◌∷◌, ◌++◌, [], map, Some, IfOk, OnOk};
ghost use Rattle.std.specs.Option.{option_copied, option_map};
ghost use Rattle.apex_num.specs.declared.cell.Cell.TheVariants as C;
ghost use Rattle.txn_heap.specs.declared.thing.Thing.TheVariants as T;
ghost use Rattle.txn_heap.specs.declared.thing.Value.TheVariants as V;
ghost use Rattle.heap_methods.specs.Making as spec;
ghost use Rattle.heap_methods.specs.Outcomes.{Makes};
ghost use Rattle.heap_methods.specs.Plans.{Copies};

use crate::operands::{key_of, keys_of_values, thing_at};
use crate::plan::null_object;
use apex_list::Items;
use apex_num::{Cell, Id, NoMemory, copy_list};
use builtin_table::BuiltinEnd;
use std::alloc::Global;
use txn_heap::{Entries, Heap, Keys, Thing, Value};

/// A kind of collection.
#[derive(Clone, Copy, PartialEq, Eq, Drop)]
pub enum Collection {
    List,
    Set,
    Map,
}

/// A new collection, or what is thrown.
pub type Copied = Result<Thing, BuiltinEnd>;

/// The set of these values, one after the other. Want of memory is the only error.
pub fn set_of(alloc: Global, values: &[Value]) -> Result<Keys, NoMemory>
    ensures { IfOk result (λ keys. keys ≡ spec.set_of values.now) }
{
    Keys::of(alloc, keys_of_values(alloc, values)?)
}

fn copy_pair(pair: &(Value, Value)) -> Result<(Cell, Value), NoMemory>
    ensures { IfOk result (λ p. p ≡ spec.pair_of pair.now) }
{
    let key = key_of(&pair.0)?;
    Ok((key, pair.1.copy()?))
}

fn copy_pairs(alloc: Global, pairs: &[(Value, Value)]) -> Result<Items<(Cell, Value)>, NoMemory>
    ensures { IfOk result (λ done. done ≡ map spec.pair_of pairs.now) }
{
    let mut done = Items::new(alloc);
    for pair in pairs {
        done.push(copy_pair(pair)?)?;
    }
    Ok(done)
}

/// The map of these keys with their values, one after the other. Want of memory is the only error.
pub fn map_of(alloc: Global, pairs: &[(Value, Value)]) -> Result<Entries, NoMemory>
    ensures { IfOk result (λ entries. entries ≡ spec.map_of pairs.now) }
{
    Entries::of(alloc, copy_pairs(alloc, pairs)?)
}

// The Id of a record, where it knows one.
fn id_of(thing: Option<&Thing>) -> Option<Id>
    ensures { option_map C.Id result ≡ spec.id_of (option_copied thing.entry) }
{
    match thing {
        Some(Thing::Record(known)) => id_in(known.cells.get(0)),
        _ => None,
    }
}

fn id_in(cell: Option<&Option<Cell>>) -> Option<Id>
    ensures { option_map C.Id result ≡ spec.id_in (option_copied cell.entry) }
{
    match cell {
        Some(Some(Cell::Id(id))) => Some(*id),
        _ => None,
    }
}

fn push_entry(done: &mut Items<(Cell, Value)>, id: Id, value: &Value) -> Result<(), NoMemory>
    ensures { OnOk result (done.new ≡ done.old ++ (C.Id id, value.now) ∷ []) }
{
    done.push((Cell::Id(id), value.copy()?))
}

// The records by their Ids, or `None` where one has none.
fn entries_by_id(heap: &Heap, values: &[Value]) -> Result<Option<Items<(Cell, Value)>>, NoMemory>
    ensures { IfOk result (λ done. done ≡ spec.entries_by_id heap.now values.now) }
{
    let mut done = Items::new(heap.allocator());
    for value in values {
        let Some(id) = id_of(thing_at(heap, value)) else {
            return Ok(None);
        };
        push_entry(&mut done, id, value)?;
    }
    Ok(Some(done))
}

fn map_by(alloc: Global, pairs: Option<Items<(Cell, Value)>>) -> Copied
    ensures { Copies (spec.map_by pairs) result }
{
    match pairs {
        None => Err(null_object(alloc)),
        Some(pairs) => map_from(alloc, pairs),
    }
}

fn map_from(alloc: Global, pairs: Items<(Cell, Value)>) -> Copied
    ensures { Copies (spec.map_by (Some pairs)) result }
{
    Ok(Thing::Map(Entries::of(alloc, pairs)?))
}

fn map_of_records(heap: &Heap, values: &[Value]) -> Copied
    ensures { Copies (spec.map_by (spec.entries_by_id heap.now values.now)) result }
{
    match entries_by_id(heap, values) {
        Ok(pairs) => map_by(heap.allocator(), pairs),
        Err(_) => Err(BuiltinEnd::NoMemory),
    }
}

fn copy_items(items: &Items<Value>) -> Copied
    ensures { Copies (Makes (T.List items.now)) result }
{
    Ok(Thing::List(copy_list(items)?))
}

fn list_keys(alloc: Global, keys: &[Cell]) -> Result<Items<Value>, NoMemory>
    ensures { IfOk result (λ done. done ≡ map V.Plain keys.now) }
{
    let mut done = Items::new(alloc);
    for key in keys {
        done.push(Value::Plain(key.copy()?))?;
    }
    Ok(done)
}

fn list_of_set(keys: &Keys) -> Copied
    ensures { Copies (Makes (T.List (map V.Plain keys.now))) result }
{
    Ok(Thing::List(list_keys(keys.allocator(), keys.as_slice())?))
}

fn list_out_of(alloc: Global, thing: Option<&Thing>) -> Copied
    ensures { Copies (spec.list_out_of (option_copied thing.entry)) result }
{
    match thing {
        Some(Thing::List(items)) => copy_items(items),
        Some(Thing::Set(keys)) => list_of_set(keys),
        _ => Err(null_object(alloc)),
    }
}

fn set_of_list(items: &Items<Value>) -> Copied
    ensures { Copies (Makes (T.Set (spec.set_of items.now))) result }
{
    Ok(Thing::Set(set_of(items.allocator(), items.as_slice())?))
}

fn copy_keys(keys: &Keys) -> Copied
    ensures { Copies (Makes (T.Set keys.now)) result }
{
    Ok(Thing::Set(keys.copy()?))
}

fn set_out_of(alloc: Global, thing: Option<&Thing>) -> Copied
    ensures { Copies (spec.set_out_of (option_copied thing.entry)) result }
{
    match thing {
        Some(Thing::List(items)) => set_of_list(items),
        Some(Thing::Set(keys)) => copy_keys(keys),
        _ => Err(null_object(alloc)),
    }
}

fn copy_entries(entries: &Entries) -> Copied
    ensures { Copies (Makes (T.Map entries.now)) result }
{
    Ok(Thing::Map(entries.copy()?))
}

fn map_out_of(heap: &Heap, thing: Option<&Thing>) -> Copied
    ensures { Copies (spec.map_out_of heap.now (option_copied thing.entry)) result }
{
    match thing {
        Some(Thing::Map(entries)) => copy_entries(entries),
        Some(Thing::List(items)) => map_of_records(heap, items.as_slice()),
        _ => Err(null_object(heap.allocator())),
    }
}

/// A collection out of another one, or out of a list of records by their Ids. It throws `NullPointerException` where the value
/// is null or another thing, or a record is null or has no Id.
pub fn copied(heap: &Heap, into: Collection, from: &Value) -> Copied
    ensures { Copies (spec.copied into from.now heap.now) result }
{
    match into {
        Collection::List => list_out_of(heap.allocator(), thing_at(heap, from)),
        Collection::Set => set_out_of(heap.allocator(), thing_at(heap, from)),
        Collection::Map => map_out_of(heap, thing_at(heap, from)),
    }
}
