// The things of a transaction.

ghost use Rattle.std.specs.Prelude.{◌≡◌, [], ◌∷◌, ◌++◌, length, slice_get, MatchResult, OnOk, OnErr, IfOk};
ghost use Rattle.std.specs.Option.{option_copied};
ghost use Rattle.txn_heap.specs.Changes.{changed, thing_after};
ghost use Rattle.txn_heap.specs.Guards.{thing_with};

use crate::change::Change;
use crate::thing::{Ref, Thing};
use apex_num::{NoMemory, Text};
use std::alloc::Global;
use std::marker::Model;

/// The things that a transaction made, oldest first. Contracts see the list of them.
#[derive(Drop)]
pub struct Heap {
    things: Vec<Thing>,
}

impl Model for Heap {
    ghost use Rattle.std.specs.Prelude.{List};
    ghost use Rattle.txn_heap.specs.declared.thing.Thing.{Thing};

    ghost Value = { List Thing };

    ghost view = { λ h. h.things.items };
}

impl Heap {
    /// No things, which take no memory.
    pub fn new(alloc: Global) -> Heap
        ensures { result ≡ [] }
    {
        Heap {
            things: Vec::new(alloc),
        }
    }

    /// Where the things take their memory.
    pub fn allocator(&self) -> Global {
        *self.things.allocator()
    }

    /// The number of things.
    pub fn len(&self) -> usize
        ensures { result ≡ length self.now }
    {
        self.things.len()
    }

    /// The thing, or `None` where there is none of that number.
    pub fn get(&self, on: Ref) -> Option<&Thing>
        ensures { option_copied result ≡ slice_get self.now on.place }
    {
        self.things.get(on.place)
    }

    /// Adds a thing behind the others, and answers its number. Want of memory is the only error, and changes nothing.
    pub fn make(&mut self, thing: Thing) -> Result<Ref, NoMemory>
        ensures ok { OnOk result (self.new ≡ self.old ++ thing ∷ []) }
        ensures at { IfOk result (λ made. made.place ≡ length self.old) }
        ensures err { OnErr result (self.new ≡ self.old) }
    {
        let place = self.things.len();
        self.things.push(thing)?;
        Ok(Ref { place })
    }

    /// Changes a thing and no other; where there is none of that number, nothing. Want of memory is the only error, and changes
    /// nothing.
    pub fn change(&mut self, on: Ref, change: Change) -> Result<(), NoMemory>
        ensures { MatchResult result (λ _. self.new ≡ changed on.place (thing_after change) self.old) (λ _. self.new ≡ self.old) }
    {
        if on.place < self.things.len() {
            self.things[on.place].change(change)
        } else {
            Ok(())
        }
    }

    /// Adds an error to the guard at a place; where there is none, nothing changes.
    pub(crate) fn add_error_at(&mut self, place: usize, message: Text)
        ensures { self.new ≡ changed place (thing_with message) self.old }
    {
        if place < self.things.len() {
            self.things[place].add_error(message);
        }
    }

    /// Puts another thing in the place of one; where there is none of that number, nothing.
    pub fn replace(&mut self, on: Ref, thing: Thing)
        ensures { self.new ≡ changed on.place (λ _. thing) self.old }
    {
        if on.place < self.things.len() {
            self.things[on.place].put_in_place(thing);
        }
    }
}
