// Methods of maps.

ghost use Rattle.std.specs.Prelude.{◌≡◌, Some, IfOk};
ghost use Rattle.std.specs.Option.{option_copied};
ghost use Rattle.builtin_table.specs.declared.method.MapMethod.TheVariants as M;
ghost use Rattle.txn_heap.specs.declared.thing.Thing.TheVariants as T;
ghost use Rattle.txn_heap.specs.Words.{value_at, with_entry, without_entry};
ghost use Rattle.heap_methods.specs.Maps as spec;
ghost use Rattle.heap_methods.specs.Operands as operand;
ghost use Rattle.heap_methods.specs.Outcomes.{Tells, Becomes};
ghost use Rattle.heap_methods.specs.Plans.{Plans};

use crate::operands::{copy_or_null, count, key_of, null, thing_at, truth};
use crate::plan::{Plan, Planned, null_object};
use apex_list::Items;
use apex_num::{Cell, NoMemory};
use builtin_table::MapMethod;
use std::alloc::Global;
use txn_heap::{Change, Entries, Heap, Keys, Thing, Value, copy_cells};

fn clone_map(entries: &Entries) -> Planned
    ensures { Plans (spec.map_alone M.Clone entries.now) (Some (T.Map entries.now)) result }
{
    Ok(Plan::Makes(Thing::Map(entries.copy()?)))
}

fn key_set(entries: &Entries) -> Planned
    ensures { Plans (spec.map_alone M.KeySet entries.now) (Some (T.Map entries.now)) result }
{
    let alloc = entries.allocator();
    let keys = copy_cells(alloc, entries.keys())?;
    Ok(Plan::Makes(Thing::Set(Keys::of(alloc, keys)?)))
}

fn copy_values(alloc: Global, values: &[Value]) -> Result<Items<Value>, NoMemory>
    ensures { IfOk result (λ copy. copy ≡ values.now) }
{
    let mut copy = Items::new(alloc);
    for value in values {
        copy.push(value.copy()?)?;
    }
    Ok(copy)
}

fn values(entries: &Entries) -> Planned
    ensures { Plans (spec.map_alone M.Values entries.now) (Some (T.Map entries.now)) result }
{
    let values = copy_values(entries.allocator(), entries.values())?;
    Ok(Plan::Makes(Thing::List(values)))
}

fn map_alone(which: MapMethod, entries: &Entries) -> Planned
    ensures { Plans (spec.map_alone which entries.now) (Some (T.Map entries.now)) result }
{
    let size = entries.keys().len();
    match which {
        MapMethod::KeySet => key_set(entries),
        MapMethod::Values => values(entries),
        MapMethod::Size => Ok(Plan::Tells(count(size))),
        MapMethod::IsEmpty => Ok(Plan::Tells(truth(size == 0))),
        MapMethod::Clear => Ok(Plan::Replaces(
            Thing::Map(Entries::new(entries.allocator())),
            null(),
        )),
        MapMethod::Clone => clone_map(entries),
        _ => Err(null_object(entries.allocator())),
    }
}

// The value of the key that a value is.
fn value_of<'a>(entries: &'a Entries, key: &Value) -> Option<&'a Value>
    ensures { option_copied result ≡ value_at (operand.key_of key.now) entries.now }
{
    match key {
        Value::Plain(cell) => entries.get(cell),
        Value::Object(_) => entries.get(&Cell::Null),
    }
}

fn get(entries: &Entries, key: &Value) -> Planned
    ensures { Plans (Tells (operand.or_null (value_at (operand.key_of key.now) entries.now))) (Some (T.Map entries.now)) result }
{
    Ok(Plan::Tells(copy_or_null(value_of(entries, key))?))
}

fn remove(entries: &Entries, key: &Value) -> Planned
    ensures { Plans (Becomes (T.Map (without_entry entries.now (operand.key_of key.now))) (operand.or_null (value_at (operand.key_of key.now) entries.now))) (Some (T.Map entries.now)) result }
{
    let old = copy_or_null(value_of(entries, key))?;
    Ok(Plan::Changes(Change::RemoveKey(key_of(key)?), old))
}

fn put_entries(entries: &Entries, more: &Entries) -> Planned
    ensures { Plans (spec.put_all entries.now (Some more.now)) (Some (T.Map entries.now)) result }
{
    Ok(Plan::Changes(Change::PutAll(more.copy_pairs()?), null()))
}

fn put_all(entries: &Entries, more: Option<&Entries>) -> Planned
    ensures { Plans (spec.put_all entries.now (option_copied more.entry)) (Some (T.Map entries.now)) result }
{
    match more {
        None => Err(null_object(entries.allocator())),
        Some(more) => put_entries(entries, more),
    }
}

// The entries of a map.
pub(crate) fn as_map(thing: Option<&Thing>) -> Option<&Entries>
    ensures { option_copied result ≡ operand.as_map (option_copied thing.entry) }
{
    match thing {
        Some(Thing::Map(entries)) => Some(entries),
        _ => None,
    }
}

fn map_with(heap: &Heap, which: MapMethod, entries: &Entries, x: &Value) -> Planned
    ensures { Plans (spec.map_with which heap.now entries.now x.now) (Some (T.Map entries.now)) result }
{
    match which {
        MapMethod::Get => get(entries, x),
        MapMethod::ContainsKey => Ok(Plan::Tells(truth(value_of(entries, x).is_some()))),
        MapMethod::Remove => remove(entries, x),
        MapMethod::PutAll => put_all(entries, as_map(thing_at(heap, x))),
        _ => Err(null_object(entries.allocator())),
    }
}

fn put(entries: &Entries, key: &Value, value: &Value) -> Planned
    ensures { Plans (Becomes (T.Map (with_entry entries.now (operand.key_of key.now) value.now)) (operand.or_null (value_at (operand.key_of key.now) entries.now))) (Some (T.Map entries.now)) result }
{
    let old = copy_or_null(value_of(entries, key))?;
    let key = key_of(key)?;
    Ok(Plan::Changes(Change::Put(key, value.copy()?), old))
}

fn map_with_two(which: MapMethod, entries: &Entries, x: &Value, y: &Value) -> Planned
    ensures { Plans (spec.map_with_two which entries.now x.now y.now) (Some (T.Map entries.now)) result }
{
    match which {
        MapMethod::Put => put(entries, x, y),
        _ => Err(null_object(entries.allocator())),
    }
}

/// A call of a method of a map.
pub(crate) fn map_method(
    heap: &Heap,
    which: MapMethod,
    entries: &Entries,
    args: &[Value],
) -> Planned
    ensures { Plans (spec.map_method which heap.now entries.now args.now) (Some (T.Map entries.now)) result }
{
    match args {
        [] => map_alone(which, entries),
        [x] => map_with(heap, which, entries, x),
        [x, y] => map_with_two(which, entries, x, y),
        _ => Err(null_object(entries.allocator())),
    }
}
