// Methods of sets.

ghost use Rattle.std.specs.Prelude.{◌≡◌, not, filter, Some, IfOk};
ghost use Rattle.std.specs.List.{list_any, list_all};
ghost use Rattle.std.specs.Option.{option_copied};
ghost use Rattle.builtin_table.specs.declared.method.SetMethod.TheVariants as M;
ghost use Rattle.txn_heap.specs.declared.thing.Thing.TheVariants as T;
ghost use Rattle.txn_heap.specs.Words.{has, with_key, without_key};
ghost use Rattle.heap_methods.specs.Outcomes.{Becomes};
ghost use Rattle.heap_methods.specs.Operands as operand;
ghost use Rattle.heap_methods.specs.Sets as spec;
ghost use Rattle.heap_methods.specs.Plans.{Plans};
ghost use Rattle.heap_methods.specs.Members.{agrees};

use crate::operands::{copy_elements, count, key_of, null, thing_at, truth};
use crate::plan::{Plan, Planned, null_object};
use apex_list::Items;
use apex_num::{Cell, NoMemory};
use builtin_table::{BuiltinEnd, SetMethod};
use std::alloc::Global;
use txn_heap::{Change, Heap, Keys, Thing, Value};

fn clone_set(keys: &Keys) -> Planned
    ensures { Plans (spec.set_alone M.Clone keys.now) (Some (T.Set keys.now)) result }
{
    Ok(Plan::Makes(Thing::Set(keys.copy()?)))
}

fn set_alone(which: SetMethod, keys: &Keys) -> Planned
    ensures { Plans (spec.set_alone which keys.now) (Some (T.Set keys.now)) result }
{
    let size = keys.as_slice().len();
    match which {
        SetMethod::Size => Ok(Plan::Tells(count(size))),
        SetMethod::IsEmpty => Ok(Plan::Tells(truth(size == 0))),
        SetMethod::Clear => Ok(Plan::Replaces(Thing::Set(Keys::new(keys.allocator())), null())),
        SetMethod::Clone => clone_set(keys),
        _ => Err(null_object(keys.allocator())),
    }
}

// Whether a value is an element.
fn has_value(keys: &Keys, value: &Value) -> bool
    ensures { result ≡ has (operand.key_of value.now) keys.now }
{
    match value {
        Value::Plain(cell) => keys.contains(cell),
        Value::Object(_) => keys.contains(&Cell::Null),
    }
}

fn add(keys: &Keys, value: &Value) -> Planned
    ensures { Plans (Becomes (T.Set (with_key keys.now (operand.key_of value.now))) (operand.truth (not (has (operand.key_of value.now) keys.now)))) (Some (T.Set keys.now)) result }
{
    let new = !has_value(keys, value);
    Ok(Plan::Changes(Change::Add(key_of(value)?), truth(new)))
}

fn remove(keys: &Keys, value: &Value) -> Planned
    ensures { Plans (Becomes (T.Set (without_key keys.now (operand.key_of value.now))) (operand.truth (has (operand.key_of value.now) keys.now))) (Some (T.Set keys.now)) result }
{
    let there = has_value(keys, value);
    Ok(Plan::Changes(Change::RemoveKey(key_of(value)?), truth(there)))
}

// Whether one of the cells is among the keys, or isn't.
fn any(cells: &[Cell], keys: &Keys, member: bool) -> bool
    ensures { result ≡ list_any (λ k. agrees member (has k keys.now)) cells.now }
{
    for cell in cells {
        if keys.contains(cell) == member {
            return true;
        }
    }
    false
}

// Whether all of the cells are among the keys.
fn all(cells: &[Cell], keys: &Keys) -> bool
    ensures { result ≡ list_all (λ k. has k keys.now) cells.now }
{
    for cell in cells {
        if !keys.contains(cell) {
            return false;
        }
    }
    true
}

// The cells that are among the keys, or aren't.
fn kept(alloc: Global, cells: &[Cell], keys: &Keys, member: bool) -> Result<Items<Cell>, NoMemory>
    ensures { IfOk result (λ done. done ≡ filter (λ k. agrees member (has k keys.now)) cells.now) }
{
    let mut done = Items::new(alloc);
    for cell in cells {
        if keys.contains(cell) == member {
            done.push(cell.copy()?)?;
        }
    }
    Ok(done)
}

// The elements that are among the others, or aren't.
fn kept_keys(keys: &Keys, others: &Keys, member: bool) -> Result<Keys, NoMemory>
    ensures { IfOk result (λ done. done ≡ filter (λ k. agrees member (has k others.now)) keys.now) }
{
    let alloc = keys.allocator();
    Keys::of(alloc, kept(alloc, keys.as_slice(), others, member)?)
}

fn add_all(keys: &Keys, more: Option<Items<Cell>>) -> Planned
    ensures { Plans (spec.add_all keys.now more) (Some (T.Set keys.now)) result }
{
    match more {
        None => Err(null_object(keys.allocator())),
        Some(more) => {
            let new = any(more.as_slice(), keys, false);
            Ok(Plan::Changes(Change::AddAll(more), truth(new)))
        }
    }
}

fn add_elements(keys: &Keys, thing: Option<&Thing>) -> Planned
    ensures { Plans (spec.add_all keys.now (operand.as_elements (option_copied thing.entry))) (Some (T.Set keys.now)) result }
{
    match copy_elements(keys.allocator(), thing) {
        Ok(more) => add_all(keys, more),
        Err(_) => Err(BuiltinEnd::NoMemory),
    }
}

fn remove_others(keys: &Keys, others: &Keys) -> Planned
    ensures { Plans (spec.remove_all keys.now (Some others.now)) (Some (T.Set keys.now)) result }
{
    let changes = any(keys.as_slice(), others, true);
    let rest = kept_keys(keys, others, false)?;
    Ok(Plan::Replaces(Thing::Set(rest), truth(changes)))
}

fn remove_all(keys: &Keys, others: Option<&Keys>) -> Planned
    ensures { Plans (spec.remove_all keys.now (option_copied others.entry)) (Some (T.Set keys.now)) result }
{
    match others {
        None => Err(null_object(keys.allocator())),
        Some(others) => remove_others(keys, others),
    }
}

fn retain_others(keys: &Keys, others: &Keys) -> Planned
    ensures { Plans (spec.retain_all keys.now (Some others.now)) (Some (T.Set keys.now)) result }
{
    let changes = any(keys.as_slice(), others, false);
    let rest = kept_keys(keys, others, true)?;
    Ok(Plan::Replaces(Thing::Set(rest), truth(changes)))
}

fn retain_all(keys: &Keys, others: Option<&Keys>) -> Planned
    ensures { Plans (spec.retain_all keys.now (option_copied others.entry)) (Some (T.Set keys.now)) result }
{
    match others {
        None => Err(null_object(keys.allocator())),
        Some(others) => retain_others(keys, others),
    }
}

fn contains_all(keys: &Keys, others: Option<&Keys>) -> Planned
    ensures { Plans (spec.contains_all keys.now (option_copied others.entry)) (Some (T.Set keys.now)) result }
{
    match others {
        None => Err(null_object(keys.allocator())),
        Some(others) => Ok(Plan::Tells(truth(all(others.as_slice(), keys)))),
    }
}

// The elements of a set.
fn as_set(thing: Option<&Thing>) -> Option<&Keys>
    ensures { option_copied result ≡ operand.as_set (option_copied thing.entry) }
{
    match thing {
        Some(Thing::Set(keys)) => Some(keys),
        _ => None,
    }
}

fn set_with(heap: &Heap, which: SetMethod, keys: &Keys, x: &Value) -> Planned
    ensures { Plans (spec.set_with which heap.now keys.now x.now) (Some (T.Set keys.now)) result }
{
    match which {
        SetMethod::Add => add(keys, x),
        SetMethod::Remove => remove(keys, x),
        SetMethod::Contains => Ok(Plan::Tells(truth(has_value(keys, x)))),
        SetMethod::AddAll => add_elements(keys, thing_at(heap, x)),
        SetMethod::RemoveAll => remove_all(keys, as_set(thing_at(heap, x))),
        SetMethod::RetainAll => retain_all(keys, as_set(thing_at(heap, x))),
        SetMethod::ContainsAll => contains_all(keys, as_set(thing_at(heap, x))),
        _ => Err(null_object(keys.allocator())),
    }
}

/// A call of a method of a set.
pub(crate) fn set_method(heap: &Heap, which: SetMethod, keys: &Keys, args: &[Value]) -> Planned
    ensures { Plans (spec.set_method which heap.now keys.now args.now) (Some (T.Set keys.now)) result }
{
    match args {
        [] => set_alone(which, keys),
        [x] => set_with(heap, which, keys, x),
        _ => Err(null_object(keys.allocator())),
    }
}
