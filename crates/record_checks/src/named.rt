// The rows that a reference may name.

ghost use Rattle.std.specs.Prelude.{◌≡◌, ◌||◌, ◌&&◌, ℕ, List, bytes_eq, IfOk, OnOk};
ghost use Rattle.indexmap.specs.IndexSet.{contains};
ghost use Rattle.row_meaning.specs.Conds.{cell_of};
ghost use Rattle.row_meaning.specs.Stores.{has_id};
ghost use Rattle.save_meaning.specs.Drafts as spec;
ghost use Rattle.save_meaning.specs.Inserts.{ids_of};
ghost use Rattle.save_statements.specs.Checks.{is_looked_up as looked_up};

use crate::changes::is_looked_up;
use apex_list::Items;
use apex_num::{Cell, Id, NoMemory};
use apex_rows::Row;
use indexmap::IndexSet;
use save_meaning::Reference;
use save_statements::Pending;
use std::alloc::{AllocError, Global};
use std::marker::Model;

/// A reference with the rows that it may name, which are found by their Ids in a hash table.
#[derive(Drop)]
pub struct Named {
    reference: Reference,
    rows: Items<Row>,
    ids: IndexSet<[u8; 15]>,
}

impl Model for Named {
    ghost use Rattle.std.specs.Prelude.{◌≡◌, ℕ, List, bytes_eq};
    ghost use Rattle.indexmap.specs.IndexSet.{contains};
    ghost use Rattle.apex_rows.specs.declared.row.Row.{Row as ARow};
    ghost use Rattle.row_meaning.specs.Stores.{has_id};
    ghost use Rattle.save_meaning.specs.Inserts.{ids_of};
    ghost use Rattle.save_meaning.specs.declared.draft.Reference.{Reference as AReference};

    ghost Value = { AReference × List ARow };

    ghost view = { λ n. (n.reference, n.rows) };

    ghost invariant = { λ n. (id : List ℕ) → contains bytes_eq n.ids id ≡ has_id (ids_of n.rows) id };
}

// With one Id more.
fn add_id(ids: &mut IndexSet<[u8; 15]>, id: &Id) -> Result<(), NoMemory>
    ensures { OnOk result ((other : List ℕ) → contains bytes_eq ids.new other ≡ (bytes_eq id.now other || contains bytes_eq ids.old other)) }
{
    ids.insert(id.bytes()).map_err(AllocError::from)?;
    Ok(())
}

// The Ids of rows in a hash table.
fn ids_among(alloc: Global, rows: &[Row]) -> Result<IndexSet<[u8; 15]>, NoMemory>
    ensures { IfOk result (λ ids. (id : List ℕ) → contains bytes_eq ids id ≡ has_id (ids_of rows.now) id) }
{
    let mut ids = IndexSet::new(alloc);
    let mut i = rows.len();
    'back: while i > 0 {
        i -= 1;
        add_id(&mut ids, &rows[i].id)?;
    }
    Ok(ids)
}

impl Named {
    /// A reference with the rows that it may name.
    pub fn new(alloc: Global, reference: Reference, rows: Items<Row>) -> Result<Named, NoMemory>
        ensures { IfOk result (λ n. n ≡ (reference, rows)) }
    {
        let ids = ids_among(alloc, rows.as_slice())?;
        Ok(Named {
            reference,
            rows,
            ids,
        })
    }

    /// The reference.
    pub fn reference(&self) -> &Reference
        ensures { result.now ≡ self.now.0 }
    {
        &self.reference
    }

    // Whether one of the rows has this Id.
    fn has(&self, id: &Id) -> bool
        ensures { result ≡ has_id (ids_of self.now.1) id.now }
    {
        self.ids.contains(&id.bytes())
    }

    // Whether a cell names none of the rows.
    fn dangles(&self, cell: &Cell) -> bool
        ensures { result ≡ spec.dangles self.now.1 cell.now }
    {
        match cell {
            Cell::Id(id) => !self.has(id),
            _ => false,
        }
    }

    // Whether a row's reference names none of the rows.
    fn dangles_in(&self, row: &Row) -> bool
        ensures { result ≡ spec.dangles self.now.1 (cell_of row.now self.now.0.field) }
    {
        match row.cells.get(self.reference.field) {
            Some(cell) => self.dangles(cell),
            None => false,
        }
    }

    /// Whether a record's reference is looked up and names none of the rows.
    pub fn misses(&self, pending: &Pending) -> bool
        ensures { result ≡ (looked_up self.now.0.field pending.now && spec.dangles self.now.1 (cell_of pending.now.row self.now.0.field)) }
    {
        is_looked_up(self.reference.field, pending) && self.dangles_in(&pending.row)
    }
}
