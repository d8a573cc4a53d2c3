// Changes of a thing.

ghost use Rattle.std.specs.Prelude.{◌≡◌, MatchResult, slice_set, insert, remove, Some};
ghost use Rattle.txn_heap.specs.Changes as spec;

use crate::entries::Entries;
use crate::keys::Keys;
use crate::thing::{Instance, Record, Thing, Value};
use apex_list::Items;
use apex_num::{Cell, NoMemory};
use std::alloc::AllocError;
use std::mem;

/// A change of one thing. Positions count from 0; one that isn't there changes nothing, and a change that isn't for things of
/// its kind does nothing either.
#[derive(Drop)]
pub enum Change {
    /// An item behind the others of a list.
    Push(Value),
    /// An item before the one at this position, or behind all.
    Insert(usize, Value),
    /// An item of a list or a field of an instance.
    Set(usize, Value),
    /// The item at this position is taken out.
    RemoveAt(usize),
    /// Items behind the others of a list.
    Append(Items<Value>),
    /// An element of a set.
    Add(Cell),
    /// Elements of a set, one after the other.
    AddAll(Items<Cell>),
    /// The element of a set or the entry of a map is taken out.
    RemoveKey(Cell),
    /// An entry of a map.
    Put(Cell, Value),
    /// Entries of a map, one after the other.
    PutAll(Items<(Cell, Value)>),
    /// A record knows a cell.
    Know(usize, Cell),
}

fn insert_item(items: &mut Items<Value>, at: usize, item: Value) -> Result<(), NoMemory>
    ensures { MatchResult result (λ _. items.new ≡ insert items.old at item) (λ _. items.new ≡ items.old) }
{
    if at >= items.len() {
        return items.push(item);
    }
    let alloc = items.allocator();
    let mut all = mem::replace(items, Items::new(alloc)).into_vec();
    let done = all.insert(at, item);
    *items = Items::of(all);
    match done {
        Ok(()) => Ok(()),
        Err(_) => Err(AllocError),
    }
}

fn remove_item(items: &mut Items<Value>, at: usize)
    ensures { items.new ≡ remove items.old at }
{
    if at < items.len() {
        let alloc = items.allocator();
        let mut all = mem::replace(items, Items::new(alloc)).into_vec();
        all.remove(at);
        *items = Items::of(all);
    }
}

pub(crate) fn set_item(items: &mut Items<Value>, at: usize, item: Value)
    ensures { items.new ≡ slice_set items.old at item }
{
    if at < items.len() {
        items.set(at, item);
    }
}

fn set_cell(cells: &mut Items<Option<Cell>>, at: usize, cell: Cell)
    ensures { cells.new ≡ slice_set cells.old at (Some cell) }
{
    if at < cells.len() {
        cells.set(at, Some(cell));
    }
}

fn change_list(items: &mut Items<Value>, change: Change) -> Result<(), NoMemory>
    ensures { MatchResult result (λ _. items.new ≡ spec.list_after change items.old) (λ _. items.new ≡ items.old) }
{
    match change {
        Change::Push(item) => items.push(item),
        Change::Insert(at, item) => insert_item(items, at, item),
        Change::Set(at, item) => {
            set_item(items, at, item);
            Ok(())
        }
        Change::RemoveAt(at) => {
            remove_item(items, at);
            Ok(())
        }
        Change::Append(more) => items.append(more),
        _ => Ok(()),
    }
}

fn change_set(keys: &mut Keys, change: Change) -> Result<(), NoMemory>
    ensures { MatchResult result (λ _. keys.new ≡ spec.set_after change keys.old) (λ _. keys.new ≡ keys.old) }
{
    match change {
        Change::Add(key) => keys.insert(key),
        Change::AddAll(more) => keys.insert_all(more),
        Change::RemoveKey(key) => {
            keys.remove(&key);
            Ok(())
        }
        _ => Ok(()),
    }
}

fn change_map(entries: &mut Entries, change: Change) -> Result<(), NoMemory>
    ensures { MatchResult result (λ _. entries.new ≡ spec.map_after change entries.old) (λ _. entries.new ≡ entries.old) }
{
    match change {
        Change::Put(key, value) => entries.insert(key, value),
        Change::PutAll(more) => entries.insert_all(more),
        Change::RemoveKey(key) => {
            entries.remove(&key);
            Ok(())
        }
        _ => Ok(()),
    }
}

fn change_instance(instance: &mut Instance, change: Change)
    ensures { instance.new ≡ spec.instance_after change instance.old }
{
    match change {
        Change::Set(at, value) => set_item(&mut instance.fields, at, value),
        _ => {}
    }
}

fn change_record(known: &mut Record, change: Change)
    ensures { known.new ≡ spec.record_after change known.old }
{
    match change {
        Change::Know(at, cell) => set_cell(&mut known.cells, at, cell),
        _ => {}
    }
}

impl Thing {
    /// Becomes another thing.
    pub(crate) fn put_in_place(&mut self, thing: Thing)
        ensures { self.new ≡ thing }
    {
        *self = thing;
    }

    /// Changes the thing. Want of memory is the only error, and changes nothing.
    pub fn change(&mut self, change: Change) -> Result<(), NoMemory>
        ensures { MatchResult result (λ _. self.new ≡ spec.thing_after change self.old) (λ _. self.new ≡ self.old) }
    {
        match self {
            Thing::Record(known) => {
                change_record(known, change);
                Ok(())
            }
            Thing::Instance(instance) => {
                change_instance(instance, change);
                Ok(())
            }
            Thing::List(items) => change_list(items, change),
            Thing::Set(keys) => change_set(keys, change),
            Thing::Map(entries) => change_map(entries, change),
            Thing::Exception(_) | Thing::Guard(_) => Ok(()),
        }
    }
}
