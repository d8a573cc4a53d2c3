// The entries of a map.

ghost use Rattle.std.specs.Prelude.{◌≡◌, ◌≤◌, [], length, slice_get, MatchResult, IfOk, OnOk};
ghost use Rattle.std.specs.List.{IsDistinct};
ghost use Rattle.std.specs.Map.{keys_of, values_of, lookup, remove_entry};
ghost use Rattle.std.specs.Option.{option_copied, is_some};
ghost use Rattle.indexmap.specs.IndexMap.{insert_entry, insert_all, spare};
ghost use Rattle.txn_heap.specs.Equal.{same};

use crate::thing::Value;
use apex_list::Items;
use apex_num::{Cell, NoMemory};
use indexmap::IndexMap;
use std::alloc::{AllocError, Global};
use std::marker::Model;

/// The entries of a map, which contracts see as the list of its keys with their values in order of insertion.
#[derive(Drop)]
pub struct Entries {
    inner: IndexMap<Cell, Value>,
}

impl Model for Entries {
    ghost use Rattle.std.specs.Prelude.{List};
    ghost use Rattle.apex_num.specs.declared.cell.Cell.{Cell};
    ghost use Rattle.txn_heap.specs.declared.thing.Value.{Value as TheValue};

    ghost Value = { List (Cell × TheValue) };

    ghost view = { λ m. m.inner.entries };
}

// Puts entries for which there is room.
fn insert_each(inner: &mut IndexMap<Cell, Value>, more: Vec<(Cell, Value)>)
    requires { length more.items ≤ spare inner.old }
    ensures { inner.new.entries ≡ insert_all same inner.old.entries more.items }
{
    for (key, value) in more {
        let Ok(_) = inner.insert(key, value) else {
            unreachable!()
        };
    }
}

impl Entries {
    /// No entries, which take no memory.
    pub fn new(alloc: Global) -> Entries
        ensures { result ≡ [] }
    {
        Entries {
            inner: IndexMap::new(alloc),
        }
    }

    /// The map of these entries. Want of memory is the only error.
    pub fn of(alloc: Global, pairs: Items<(Cell, Value)>) -> Result<Entries, NoMemory>
        ensures { IfOk result (λ entries. entries ≡ insert_all same [] pairs) }
    {
        let mut entries = Entries::new(alloc);
        entries.insert_all(pairs)?;
        Ok(entries)
    }

    /// Where the map takes its memory.
    pub fn allocator(&self) -> Global {
        *self.inner.allocator()
    }

    /// The number of entries.
    pub fn len(&self) -> usize
        ensures { result ≡ length self.now }
    {
        self.inner.len()
    }

    /// The keys in order of insertion; no two are the same.
    pub fn keys(&self) -> &[Cell]
        ensures elements { result.now ≡ keys_of self.now }
        ensures distinct { IsDistinct same (keys_of self.now) }
    {
        self.inner.keys().as_slice()
    }

    /// The values in the order of their keys.
    pub fn values(&self) -> &[Value]
        ensures { result.now ≡ values_of self.now }
    {
        self.inner.values().as_slice()
    }

    /// The value of a key, or `None` where there is no such key.
    pub fn get(&self, key: &Cell) -> Option<&Value>
        ensures { option_copied result ≡ lookup (same key.now) self.now }
    {
        self.inner.get(key)
    }

    /// Puts an entry: a present key keeps its place. Want of memory is the only error, and changes nothing.
    pub fn insert(&mut self, key: Cell, value: Value) -> Result<(), NoMemory>
        ensures { MatchResult result (λ _. self.new ≡ insert_entry same self.old key value) (λ _. self.new ≡ self.old) }
    {
        match self.inner.insert(key, value) {
            Ok(_) => Ok(()),
            Err(_) => Err(AllocError),
        }
    }

    /// Puts entries, one after the other. Want of memory is the only error, and changes nothing.
    pub fn insert_all(&mut self, more: Items<(Cell, Value)>) -> Result<(), NoMemory>
        ensures { MatchResult result (λ _. self.new ≡ insert_all same self.old more) (λ _. self.new ≡ self.old) }
    {
        self.inner.reserve(more.len())?;
        insert_each(&mut self.inner, more.into_vec());
        Ok(())
    }

    /// Takes an entry away. The others keep their order; the work grows with their number.
    pub fn remove(&mut self, key: &Cell)
        ensures { self.new ≡ remove_entry (same key.now) self.old }
    {
        self.inner.shift_remove(key);
    }

    /// Equal entries as a list. Want of memory is the only error.
    pub fn copy_pairs(&self) -> Result<Items<(Cell, Value)>, NoMemory>
        ensures value { IfOk result (λ pairs. pairs ≡ self.now) }
        ensures distinct { OnOk result (IsDistinct same (keys_of self.now)) }
    {
        let mut pairs = Items::new(self.allocator());
        for (key, value) in self.inner.iter() {
            pairs.push((key.copy()?, value.copy()?))?;
        }
        Ok(pairs)
    }

    /// An equal map. Want of memory is the only error.
    pub fn copy(&self) -> Result<Entries, NoMemory>
        ensures { IfOk result (λ entries. entries ≡ self.now) }
    {
        Entries::of(self.allocator(), self.copy_pairs()?)
    }
}
