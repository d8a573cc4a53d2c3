// Rows that sessions hold.

ghost use Rattle.std.specs.Prelude.{◌≡◌, ◌≤◌, ◌<◌, ◌+◌, ℕ, List, [], cond, length, Some, OnOk, OnErr, MatchOption};
ghost use Rattle.std.specs.HashMap as table;
ghost use Rattle.row_meaning.specs.Stores.{has_id};
ghost use Rattle.row_locks.specs.declared.place.Place.{Place as ThePlace};
ghost use Rattle.row_locks.specs.Holders.{FirstHeld, NoneHeld, but};
ghost use Rattle.row_locks.specs.Locks.{holder_of, place_eq};

use crate::place::Place;
use apex_num::{Id, NoMemory};
use std::alloc::Global;
use std::collections::HashMap;
use std::marker::Model;

/// The rows that sessions hold, of all tenants.
#[derive(Drop)]
pub struct Locks {
    holders: HashMap<Place, u32>,
}

impl Model for Locks {
    ghost use Rattle.std.specs.Coded.{codes};
    ghost use Rattle.std.specs.HashMap.{spare};
    ghost use Rattle.row_locks.specs.Locks.{Held};

    ghost Value = { Held };

    ghost coded = { Prim.hlevel codes };

    ghost view = { λ l. record { locks = l.holders.entries; room = spare l.holders } };
}

// A row is held, in place of who held it.
fn put(holders: &mut HashMap<Place, u32>, place: Place, session: u32)
    requires { 0 < table.spare holders.old }
    ensures updates { (q : ThePlace) → table.get place_eq holders.new q ≡ cond (place_eq place q) (Some session) (table.get place_eq holders.old q) }
    ensures spare { table.spare holders.old ≤ table.spare holders.new + 1 }
{
    let Ok(_) = holders.insert(place, session) else {
        unreachable!()
    };
}

impl Locks {
    /// Nothing is held; takes no memory.
    pub fn new(alloc: Global) -> Locks
        ensures { result.locks ≡ [] }
    {
        Locks {
            holders: HashMap::new(alloc),
        }
    }

    /// Makes room for so many rows more, so that `grab` can take them. Nothing that is held changes, also where memory is
    /// wanted.
    pub fn reserve(&mut self, n: usize) -> Result<(), NoMemory>
        ensures room { OnOk result (n ≤ self.new.room) }
        ensures same { (tenant : ℕ) (id : List ℕ) → holder_of tenant self.new.locks id ≡ holder_of tenant self.old.locks id }
    {
        self.holders.reserve(n)?;
        Ok(())
    }

    // The session other than this one that holds a row.
    fn other(&self, tenant: usize, session: u32, id: Id) -> Option<u32>
        ensures { result ≡ but session (holder_of tenant self.now.locks id) }
    {
        match self.holders.get(&Place { tenant, id }) {
            Some(holder) if *holder != session => Some(*holder),
            _ => None,
        }
    }

    /// The first of these rows of a tenant that another session than this one holds, and that session. It takes no memory.
    pub fn first_held(&self, tenant: usize, session: u32, ids: &[Id]) -> Option<(Id, u32)>
        ensures { MatchOption result (NoneHeld (holder_of tenant self.now.locks) session ids.now) (λ first. FirstHeld (holder_of tenant self.now.locks) session ids.now first.0 first.1) }
    {
        'ids: for k in 0..ids.len() {
            let id = ids[k];
            if let Some(holder) = self.other(tenant, session, id) {
                return Some((id, holder));
            }
        }
        None
    }

    /// These rows of a tenant are held by a session; there was room for them. It takes no memory.
    pub fn grab(&mut self, tenant: usize, session: u32, ids: &[Id])
        requires { length ids.now ≤ self.old.room }
        ensures own { (id : List ℕ) → holder_of tenant self.new.locks id ≡ cond (has_id ids.now id) (Some session) (holder_of tenant self.old.locks id) }
        ensures others { (other : ℕ) → (other ≡ tenant → ⊥) → (id : List ℕ) → holder_of other self.new.locks id ≡ holder_of other self.old.locks id }
    {
        'ids: for k in 0..ids.len() {
            let place = Place { tenant, id: ids[k] };
            put(&mut self.holders, place, session);
        }
    }

    /// A session of a tenant holds nothing any more. It takes no memory.
    pub fn free(&mut self, tenant: usize, session: u32)
        ensures own { (id : List ℕ) → holder_of tenant self.new.locks id ≡ but session (holder_of tenant self.old.locks id) }
        ensures others { (other : ℕ) → (other ≡ tenant → ⊥) → (id : List ℕ) → holder_of other self.new.locks id ≡ holder_of other self.old.locks id }
    {
        self.holders.retain(|place, holder| place.tenant != tenant || *holder != session);
    }
}
