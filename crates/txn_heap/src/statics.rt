// The statics of classes.

ghost use Rattle.std.specs.Prelude.{◌≡◌, [], MatchResult, replicate, IfOk};
ghost use Rattle.std.specs.Option.{option_copied};
ghost use Rattle.apex_num.specs.declared.cell.Cell.TheVariants.{Null};
ghost use Rattle.txn_heap.specs.declared.thing.Value.TheVariants.{Plain};
ghost use Rattle.txn_heap.specs.Statics as spec;

use crate::change::set_item;
use crate::thing::Value;
use apex_list::Items;
use apex_num::{Cell, NoMemory};
use indexmap::IndexMap;
use std::alloc::{AllocError, Global};
use std::marker::Model;

/// The statics of the classes that are prepared, which contracts see as the list of them in order of preparation. Classes and
/// statics are numbered from 0.
#[derive(Drop)]
pub struct Statics {
    inner: IndexMap<usize, Items<Value>>,
}

impl Model for Statics {
    ghost use Rattle.std.specs.Prelude.{List, ℕ};
    ghost use Rattle.txn_heap.specs.declared.thing.Value.{Value as TheValue};

    ghost Value = { List (ℕ × List TheValue) };

    ghost view = { λ m. m.inner.entries };
}

fn nulls(alloc: Global, count: usize) -> Result<Items<Value>, NoMemory>
    ensures { IfOk result (λ values. values ≡ replicate count (Plain Null)) }
{
    let mut values = Items::new(alloc);
    for i in 0..count {
        values.push(Value::Plain(Cell::Null))?;
    }
    Ok(values)
}

// Sets a static of the class at an index.
fn set_at(inner: &mut IndexMap<usize, Items<Value>>, index: usize, place: usize, value: Value)
    ensures { inner.new.entries ≡ spec.with_static_at index place value inner.old.entries }
{
    if let Some(values) = inner.get_index_mut(index) {
        set_item(values, place, value);
    }
}

impl Statics {
    /// No class is prepared, which takes no memory.
    pub fn new(alloc: Global) -> Statics
        ensures { result ≡ [] }
    {
        Statics {
            inner: IndexMap::new(alloc),
        }
    }

    /// Whether a class is prepared.
    pub fn is_prepared(&self, class: usize) -> bool
        ensures { result ≡ spec.is_prepared class self.now }
    {
        self.inner.contains_key(&class)
    }

    /// The value of a static, or `None` where there is none of that number or its class isn't prepared.
    pub fn get(&self, class: usize, place: usize) -> Option<&Value>
        ensures { option_copied result ≡ spec.static_at class place self.now }
    {
        self.inner.get(&class)?.get(place)
    }

    /// Prepares a class with so many statics, which are null. Want of memory is the only error, and changes nothing.
    pub fn prepare(&mut self, class: usize, count: usize) -> Result<(), NoMemory>
        ensures { MatchResult result (λ _. self.new ≡ spec.prepare class count self.old) (λ _. self.new ≡ self.old) }
    {
        if self.is_prepared(class) {
            return Ok(());
        }
        let values = nulls(*self.inner.allocator(), count)?;
        match self.inner.insert(class, values) {
            Ok(_) => Ok(()),
            Err(_) => Err(AllocError),
        }
    }

    /// Sets a static; where there is none of that number, or its class isn't prepared, nothing.
    pub fn set(&mut self, class: usize, place: usize, value: Value)
        ensures { self.new ≡ spec.with_static class place value self.old }
    {
        if let Some(index) = self.inner.get_index_of(&class) {
            set_at(&mut self.inner, index, place, value);
        }
    }
}
