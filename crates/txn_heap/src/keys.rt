// The elements of a set.

ghost use Rattle.std.specs.Prelude.{◌≡◌, ◌≤◌, [], length, MatchResult, IfOk};
ghost use Rattle.std.specs.List.{list_any, IsDistinct};
ghost use Rattle.indexmap.specs.IndexSet.{insert_key, remove_key, insert_all, spare};
ghost use Rattle.txn_heap.specs.Equal.{same};

use apex_list::Items;
use apex_num::{Cell, NoMemory};
use indexmap::IndexSet;
use std::alloc::{AllocError, Global};
use std::marker::Model;

/// The elements of a set, which contracts see as the list of them in order of insertion.
#[derive(Drop)]
pub struct Keys {
    inner: IndexSet<Cell>,
}

impl Model for Keys {
    ghost use Rattle.std.specs.Prelude.{List};
    ghost use Rattle.apex_num.specs.declared.cell.Cell.{Cell};

    ghost Value = { List Cell };

    ghost view = { λ s. s.inner.keys };
}

// Adds elements for which there is room.
fn insert_each(inner: &mut IndexSet<Cell>, more: Vec<Cell>)
    requires { length more.items ≤ spare inner.old }
    ensures { inner.new.keys ≡ insert_all same inner.old.keys more.items }
{
    for key in more {
        let Ok(_) = inner.insert(key) else {
            unreachable!()
        };
    }
}

impl Keys {
    /// No elements, which take no memory.
    pub fn new(alloc: Global) -> Keys
        ensures { result ≡ [] }
    {
        Keys {
            inner: IndexSet::new(alloc),
        }
    }

    /// The set of these elements, as they stand where no two are the same. Want of memory is the only error.
    pub fn of(alloc: Global, elements: Items<Cell>) -> Result<Keys, NoMemory>
        ensures value { IfOk result (λ keys. keys ≡ insert_all same [] elements) }
        ensures kept { IfOk result (λ keys. IsDistinct same elements → keys ≡ elements) }
    {
        let mut keys = Keys::new(alloc);
        keys.insert_all(elements)?;
        Ok(keys)
    }

    /// Where the set takes its memory.
    pub fn allocator(&self) -> Global {
        *self.inner.allocator()
    }

    /// The elements in order of insertion; no two are the same.
    pub fn as_slice(&self) -> &[Cell]
        ensures elements { result.now ≡ self.now }
        ensures distinct { IsDistinct same self.now }
    {
        self.inner.as_slice()
    }

    /// The number of elements.
    pub fn len(&self) -> usize
        ensures { result ≡ length self.now }
    {
        self.inner.len()
    }

    /// Whether it is an element.
    pub fn contains(&self, key: &Cell) -> bool
        ensures { result ≡ list_any (same key.now) self.now }
    {
        self.inner.contains(key)
    }

    /// Adds an element behind the others where it isn't one yet. Want of memory is the only error, and changes nothing.
    pub fn insert(&mut self, key: Cell) -> Result<(), NoMemory>
        ensures { MatchResult result (λ _. self.new ≡ insert_key same self.old key) (λ _. self.new ≡ self.old) }
    {
        match self.inner.insert(key) {
            Ok(_) => Ok(()),
            Err(_) => Err(AllocError),
        }
    }

    /// Adds elements, one after the other. Want of memory is the only error, and changes nothing.
    pub fn insert_all(&mut self, more: Items<Cell>) -> Result<(), NoMemory>
        ensures { MatchResult result (λ _. self.new ≡ insert_all same self.old more) (λ _. self.new ≡ self.old) }
    {
        self.inner.reserve(more.len())?;
        insert_each(&mut self.inner, more.into_vec());
        Ok(())
    }

    /// Takes an element away. The others keep their order; the work grows with their number.
    pub fn remove(&mut self, key: &Cell)
        ensures { self.new ≡ remove_key (same key.now) self.old }
    {
        self.inner.shift_remove(key);
    }

    /// An equal set. Want of memory is the only error.
    pub fn copy(&self) -> Result<Keys, NoMemory>
        ensures { IfOk result (λ keys. keys ≡ self.now) }
    {
        let alloc = self.allocator();
        Keys::of(alloc, copy_cells(alloc, self.as_slice())?)
    }
}

/// A list of equal cells. Want of memory is the only error.
pub fn copy_cells(alloc: Global, cells: &[Cell]) -> Result<Items<Cell>, NoMemory>
    ensures { IfOk result (λ copy. copy ≡ cells.now) }
{
    let mut copy = Items::new(alloc);
    for cell in cells {
        copy.push(cell.copy()?)?;
    }
    Ok(copy)
}
