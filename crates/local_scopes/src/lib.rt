//! The locals that are in scope at a place of a body, with the slots that they have, found and declared by their words.
#![tactic(auto)]

mod local;

ghost use Rattle.std.specs.Prelude.{◌≡◌, ◌∷◌, ◌++◌, [], None, take, length, slice_get, option_map, is_some, OnOk, OnErr};
ghost use Rattle.std.specs.Option.{option_copied};
ghost use Rattle.local_scopes.specs.Scopes.{slot_of, kind_in};

use apex_num::NoMemory;
use apex_text::Name;
use indexmap::IndexMap;
pub use local::{declare, fresh};
use static_types::ValueType;
use std::alloc::{AllocError, Global};
use std::marker::Model;

/// The locals that are in scope, with their types, the first declared first. The slot of a local is its place, from 0.
#[derive(Drop)]
pub struct Scope {
    locals: IndexMap<Name, ValueType>,
}

impl Model for Scope {
    ghost use Rattle.std.specs.Prelude.{ℕ, List};
    ghost use Rattle.std.specs.Coded.{codes};
    ghost use Rattle.static_types.specs.contracts.kind.ValueType as kinds;
    ghost use Rattle.static_types.specs.declared.kind.ValueType.{ValueType as Kind};

    ghost Value = { List (List ℕ × Kind) };

    ghost coded = { Prim.hlevel (codes, kinds.the_row.coded) };

    ghost view = { λ s. s.locals.entries };
}

impl Scope {
    /// Without locals; takes no memory.
    pub fn new(alloc: Global) -> Scope
        ensures { result ≡ [] }
    {
        Scope {
            locals: IndexMap::new(alloc),
        }
    }

    /// How many locals are in scope.
    pub fn len(&self) -> usize
        ensures { result ≡ length self.now }
    {
        self.locals.len()
    }

    /// The slot of a name, found by one look into a hash table.
    pub fn slot(&self, name: &Name) -> Option<usize>
        ensures { result ≡ slot_of self.now name.now }
    {
        self.locals.get_index_of(name)
    }

    /// The type of the local in a slot.
    pub fn kind(&self, slot: usize) -> Option<&ValueType>
        ensures { option_copied result ≡ kind_in self.now slot }
    {
        match self.locals.get_index(slot) {
            Some((_, kind)) => Some(kind),
            None => None,
        }
    }

    /// One local more, in the slot behind the others. Its name is in scope nowhere yet. Want of memory leaves the scope.
    pub fn declare(&mut self, name: Name, kind: ValueType) -> Result<(), NoMemory>
        requires { slot_of self.old name ≡ None }
        ensures ok { OnOk result (self.new ≡ self.old ++ (name, kind) ∷ []) }
        ensures err { OnErr result (self.new ≡ self.old) }
    {
        self.locals.insert(name, kind).map_err(AllocError::from)?;
        Ok(())
    }

    /// Ends the scope of all locals but the first ones, so many as this.
    pub fn leave(&mut self, len: usize)
        ensures { self.new ≡ take len self.old }
    {
        self.locals.truncate(len);
    }
}
