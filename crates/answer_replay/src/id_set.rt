// Ids that rise, each once.

ghost use Rattle.std.specs.Prelude.{◌≡◌, ◌↔◌, [], IsTrue, IfOk, OnOk, OnErr};
ghost use Rattle.row_meaning.specs.Stores.{has_id};
ghost use Rattle.save_meaning.specs.Drafts as spec;
ghost use Rattle.save_meaning.specs.Inserts.{ids_of};
ghost use Rattle.save_statements.specs.Records.{names_one};

use apex_list::Items;
use apex_num::{Cell, Id, NoMemory};
use apex_rows::Row;
use std::alloc::{AllocError, Global};
use std::collections::BTreeSet;
use std::marker::Model;
use txn_overlay::Overlay;

/// Ids that rise, each once.
#[derive(Drop)]
pub struct IdSet {
    ids: BTreeSet<Id>,
}

impl Model for IdSet {
    ghost use Rattle.std.specs.Prelude.{ℕ, List};

    ghost Value = { List (List ℕ) };

    ghost view = { λ s. s.ids.keys };
}

impl IdSet {
    /// No Ids; takes no memory.
    pub fn new(alloc: Global) -> IdSet
        ensures { result ≡ [] }
    {
        IdSet {
            ids: BTreeSet::new(alloc),
        }
    }

    /// These Ids.
    pub fn of(alloc: Global, ids: &[Id]) -> Result<IdSet, NoMemory>
        ensures { IfOk result (λ s. s ≡ spec.with_ids ids.now []) }
    {
        let mut set = IdSet::new(alloc);
        for id in ids {
            set.insert(*id)?;
        }
        Ok(set)
    }

    /// The Ids of rows.
    pub fn of_rows(alloc: Global, rows: &[Row]) -> Result<IdSet, NoMemory>
        ensures { IfOk result (λ ids. ids ≡ spec.with_ids (ids_of rows.now) []) }
    {
        let mut ids = IdSet::new(alloc);
        for row in rows {
            ids.insert(row.id)?;
        }
        Ok(ids)
    }

    /// With an Id, in its place. Want of memory leaves the Ids.
    pub fn insert(&mut self, id: Id) -> Result<(), NoMemory>
        ensures ok { OnOk result (self.new ≡ spec.with_id id self.old) }
        ensures err { OnErr result (self.new ≡ self.old) }
    {
        match self.ids.insert(id) {
            Ok(_) => Ok(()),
            Err(_) => Err(AllocError),
        }
    }

    /// With the Id that a value is, where it is one. Want of memory leaves the Ids.
    pub fn insert_cell(&mut self, cell: &Cell) -> Result<(), NoMemory>
        ensures ok { OnOk result (self.new ≡ spec.with_ids (spec.id_in cell.now) self.old) }
        ensures err { OnErr result (self.new ≡ self.old) }
    {
        match cell {
            Cell::Id(id) => self.insert(*id),
            _ => Ok(()),
        }
    }

    /// Whether there is no Id.
    pub fn is_empty(&self) -> bool
        ensures { IsTrue result ↔ (self.now ≡ []) }
    {
        self.ids.is_empty()
    }

    /// Whether an Id is one of these.
    pub fn contains(&self, id: &Id) -> bool
        ensures { result ≡ has_id self.now id.now }
    {
        self.ids.contains(id)
    }

    /// Whether a row names one of these by a field.
    pub fn names(&self, row: &Row, field: usize) -> bool
        ensures { result ≡ names_one field self.now row.now }
    {
        match row.cells.get(field) {
            Some(Cell::Id(id)) => self.contains(id),
            _ => false,
        }
    }

    /// The Ids as a list, in their order.
    pub fn items(&self, alloc: Global) -> Result<Items<Id>, NoMemory>
        ensures { IfOk result (λ ids. ids ≡ self.now) }
    {
        let mut ids = Items::new(alloc);
        for id in &self.ids {
            ids.push(*id)?;
        }
        Ok(ids)
    }

    /// Those that a transaction didn't touch, in their order.
    pub fn untouched(&self, alloc: Global, overlay: &Overlay) -> Result<Items<Id>, NoMemory>
        ensures { IfOk result (λ ids. ids ≡ spec.untouched overlay.now self.now) }
    {
        let mut ids = Items::new(alloc);
        for id in &self.ids {
            if !overlay.touched(id) {
                ids.push(*id)?;
            }
        }
        Ok(ids)
    }
}
