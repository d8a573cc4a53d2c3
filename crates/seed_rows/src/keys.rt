// The rows that may be named.

ghost use Rattle.std.specs.Prelude.{◌≡◌, ◌&&◌, ◌||◌, eqb, ℕ, List, IfOk, OnOk};
ghost use Rattle.std.specs.List.{list_any};
ghost use Rattle.apex_num.specs.Ids.{IsId};
ghost use Rattle.indexmap.specs.IndexSet.{contains};
ghost use Rattle.seed_rows.specs.Keys.{key, key_eq, id_cell as spec_id_cell, IsGiven, HasKeys};
ghost use Rattle.seed_rows.specs.Views.{all_as_written};
ghost use Rattle.seed_rows.specs.Written.{gives_id};

use crate::written::WrittenRow;
use apex_num::{Cell, Id, NoMemory};
use apex_schema::FieldKind;
use apex_text::fold_eq;
use bundle_read::CellEntry;
use indexmap::IndexSet;
use row_cells::cell_of;
use std::alloc::{AllocError, Global};

/// A row by its object's number and its Id.
#[derive(Clone, Copy, PartialEq, Eq, Hash, Drop)]
pub struct RowKey {
    pub object: usize,
    pub id: [u8; 15],
}

// The Id that a cell holds.
fn id_cell(cell: &Option<Cell>) -> Option<Id>
    ensures { result ≡ spec_id_cell cell.now }
{
    match cell {
        Some(Cell::Id(id)) => Some(*id),
        _ => None,
    }
}

// The Id that an entry gives its row, if it gives one.
fn id_in(entry: &CellEntry) -> Result<Option<Id>, NoMemory>
    ensures { IfOk result (λ given. IsGiven entry.now given) }
{
    if fold_eq(entry.name.bytes(), b"id") {
        Ok(id_cell(&cell_of(&FieldKind::Id, &entry.value)?))
    } else {
        Ok(None)
    }
}

// With the row that an entry gives an Id.
fn add_cell(keys: &mut IndexSet<RowKey>, object: usize, entry: &CellEntry) -> Result<(), NoMemory>
    ensures { OnOk result ((n : ℕ) (id : List ℕ) → IsId id → contains key_eq keys.new (key n id) ≡ (contains key_eq keys.old (key n id) || (eqb object n && gives_id id entry.now))) }
{
    if let Some(id) = id_in(entry)? {
        let key = RowKey {
            object,
            id: id.bytes(),
        };
        keys.insert(key).map_err(AllocError::from)?;
    }
    Ok(())
}

// With the row that has these cells.
fn add_row(keys: &mut IndexSet<RowKey>, object: usize, cells: &[CellEntry]) -> Result<(), NoMemory>
    ensures { OnOk result ((n : ℕ) (id : List ℕ) → IsId id → contains key_eq keys.new (key n id) ≡ (contains key_eq keys.old (key n id) || (eqb object n && list_any (gives_id id) cells.now))) }
{
    for entry in cells {
        add_cell(keys, object, entry)?;
    }
    Ok(())
}

/// The rows that these give an Id.
pub fn row_keys(alloc: Global, all: &[WrittenRow]) -> Result<IndexSet<RowKey>, NoMemory>
    ensures { IfOk result (λ keys. HasKeys (all_as_written all.now) keys) }
{
    let mut keys = IndexSet::new(alloc);
    for row in all {
        if let Some(object) = row.object {
            add_row(&mut keys, object, row.cells)?;
        }
    }
    Ok(keys)
}
