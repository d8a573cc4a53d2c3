// Changes by Id.

ghost use Rattle.std.specs.Prelude.{◌≡◌, [], ◌<◌, ◌^◌, suc, OnOk, OnErr, IfOk};
ghost use Rattle.std.specs.BTreeMap.{is_at};
ghost use Rattle.std.specs.List.Sorted.{IsStrictlySortedBy};
ghost use Rattle.std.specs.Map.{keys_of, set_value, remove_entry};
ghost use Rattle.std.specs.Option.{option_map};
ghost use Rattle.row_meaning.specs.Cells.{bytes_cmp};
ghost use Rattle.row_meaning.specs.Overlays.{touched_ids, overlay_rows, merged};
ghost use Rattle.row_meaning.specs.Overlays.Change.{Now as NowIs, Gone as GoneIs};
ghost use Rattle.row_meaning.specs.Stores.{has_id, of_object, without};
ghost use Rattle.record_ids.specs.Ids.{most};
ghost use Rattle.txn_overlay.specs.Changes.{KeyFits, changed, found_in, shown, writes_of};
ghost use Rattle.txn_overlay.specs.Logs.{put_back, was_at};

use crate::merge::merge_rows;
use apex_list::Items;
use apex_num::{Id, NoMemory};
use apex_requests::Ticket;
use apex_rows::{Row, Writes};
use record_ids::is_minted_by;
use std::alloc::{AllocError, Global};
use std::collections::BTreeMap;
use std::marker::Model;

/// What a transaction did to an Id: it wrote its row, or removed it.
#[derive(Drop)]
pub enum Change {
    Now(Row),
    Gone,
}

/// What stood at an Id before it was changed: a row, that its row was removed, or nothing.
#[derive(Drop)]
pub enum Was {
    Held(Row),
    Removed(Id),
    Untouched(Id),
}

// What stood at an Id, where this change was found.
fn was_at(id: Id, found: Option<Change>) -> Was
    ensures { result ≡ was_at id found }
{
    match found {
        Some(Change::Now(row)) => Was::Held(row),
        Some(Change::Gone) => Was::Removed(id),
        None => Was::Untouched(id),
    }
}

// Puts a change in the place of another one of the Id, where there is one.
fn replace(changes: &mut BTreeMap<Id, Change>, id: &Id, change: Change)
    ensures entries { changes.new.entries ≡ set_value (is_at (bytes_cmp id.now)) changes.old.entries change }
    ensures rising { IsStrictlySortedBy bytes_cmp (keys_of changes.new.entries) }
{
    if let Some(place) = changes.get_mut(id) {
        *place = change;
    }
}

/// The changes of a transaction, in the order of their Ids.
#[derive(Drop)]
pub struct Overlay {
    alloc: Global,
    changes: BTreeMap<Id, Change>,
}

impl Model for Overlay {
    ghost use Rattle.row_meaning.specs.Overlays.{Overlay};
    ghost use Rattle.txn_overlay.specs.Changes.{IsKeyed, plain};

    ghost Value = { Overlay };

    ghost view = { λ o. plain o.changes.entries };

    ghost invariant = { λ o. IsKeyed o.changes.entries };
}

impl Overlay {
    /// Without changes; takes no memory.
    pub fn new(alloc: Global) -> Overlay
        ensures { result ≡ [] }
    {
        Overlay {
            alloc,
            changes: BTreeMap::new(alloc),
        }
    }

    // Changes an Id, and answers what stood there. Want of memory leaves the overlay.
    pub(crate) fn write(&mut self, id: Id, change: Change) -> Result<Was, NoMemory>
        requires { KeyFits id change }
        ensures ok { OnOk result (self.new ≡ changed id (shown change) self.old) }
        ensures back { IfOk result (λ was. put_back was self.new ≡ self.old) }
        ensures err { OnErr result (self.new ≡ self.old) }
    {
        match self.changes.insert(id, change) {
            Ok(found) => Ok(was_at(id, found)),
            Err(_) => Err(AllocError),
        }
    }

    // Puts a change in the place of a later one of the Id, where there is one.
    fn set(&mut self, id: Id, change: Change)
        requires { KeyFits id change }
        ensures { self.new ≡ set_value (is_at (bytes_cmp id)) self.old (shown change) }
    {
        replace(&mut self.changes, &id, change);
    }

    // An Id gets back what stood there. It takes no memory.
    pub(crate) fn put_back(&mut self, was: Was)
        ensures { self.new ≡ put_back was self.old }
    {
        match was {
            Was::Held(row) => self.set(row.id, Change::Now(row)),
            Was::Removed(id) => self.set(id, Change::Gone),
            Was::Untouched(id) => self.leave(id),
        }
    }

    // Takes out the change of an Id, where there is one.
    fn leave(&mut self, id: Id)
        ensures { self.new ≡ remove_entry (is_at (bytes_cmp id)) self.old }
    {
        self.changes.remove(&id);
    }

    /// Writes a row, in place of an earlier change of its Id. Want of memory leaves the overlay.
    pub fn put(&mut self, row: Row) -> Result<(), NoMemory>
        ensures ok { OnOk result (self.new ≡ changed row.id (NowIs row) self.old) }
        ensures err { OnErr result (self.new ≡ self.old) }
    {
        self.write(row.id, Change::Now(row))?;
        Ok(())
    }

    /// Removes an Id. Want of memory leaves the overlay.
    pub fn remove(&mut self, id: Id) -> Result<(), NoMemory>
        ensures ok { OnOk result (self.new ≡ changed id GoneIs self.old) }
        ensures err { OnErr result (self.new ≡ self.old) }
    {
        self.write(id, Change::Gone)?;
        Ok(())
    }

    /// What the transaction did to an Id, where it did something. It takes no memory.
    pub fn change(&self, id: &Id) -> Option<&Change>
        ensures { option_map (λ c. shown c.now) result ≡ found_in self.now id.now }
    {
        self.changes.get(id)
    }

    /// Whether the transaction wrote or removed an Id. It takes no memory.
    pub fn touched(&self, id: &Id) -> bool
        ensures { result ≡ has_id (touched_ids self.now) id.now }
    {
        self.changes.contains_key(id)
    }

    // The rows that it doesn't touch.
    fn untouched(&self, answered: Vec<Row>) -> Result<Vec<Row>, NoMemory>
        ensures { IfOk result (λ v. v.items ≡ without (touched_ids self.now) answered.items) }
    {
        let mut rows = Vec::with_capacity(self.alloc, answered.len())?;
        for row in answered {
            if !self.touched(&row.id) {
                rows.push(row)?;
            }
        }
        Ok(rows)
    }

    // Its own rows of an object.
    fn rows_of(&self, object: usize) -> Result<Vec<Row>, NoMemory>
        ensures { IfOk result (λ v. v.items ≡ of_object object (overlay_rows self.now)) }
    {
        let mut rows = Vec::new(self.alloc);
        for (_, change) in &self.changes {
            if let Change::Now(row) = change {
                if row.object == object {
                    rows.push(row.copy()?)?;
                }
            }
        }
        Ok(rows)
    }

    /// The rows of an object that the transaction sees, where the store answered these, which rise by their Ids: those
    /// that it didn't touch, and its own.
    pub fn merge(&self, object: usize, answered: Vec<Row>) -> Result<Vec<Row>, NoMemory>
        ensures { IfOk result (λ v. v.items ≡ merged self.now object answered.items) }
    {
        let own = self.rows_of(object)?;
        let others = self.untouched(answered)?;
        if own.is_empty() {
            return Ok(others);
        }
        merge_rows(self.alloc, own, others)
    }

    /// What is written where the transaction ends well: its rows, and the removed Ids that it didn't make itself.
    pub fn into_writes(self, ticket: &Ticket) -> Result<Writes, NoMemory>
        requires session { suc ticket.now.session < most }
        requires request { ticket.now.index < most }
        ensures { IfOk result (λ w. w ≡ writes_of ticket.entry.now.session ticket.entry.now.index self) }
    {
        let Overlay { alloc, changes } = self;
        let mut changes = changes;
        let mut puts = Items::new(alloc);
        let mut drops = Items::new(alloc);
        while let Some(entry) = changes.pop_first() {
            let (id, change) = entry;
            match change {
                Change::Now(row) => puts.push(row)?,
                Change::Gone => {
                    if !is_minted_by(ticket.session as usize, ticket.index as usize, &id) {
                        drops.push(id)?;
                    }
                }
            }
        }
        Ok(Writes { puts, drops })
    }
}
