// Rows that go, and rows that are held by the rows that stay.

ghost use Rattle.std.specs.Prelude.{◌≡◌, ◌||◌, ◌∷◌, ◌++◌, [], ℕ, List, bytes_eq, IfOk, OnOk};
ghost use Rattle.std.specs.List.{list_any};
ghost use Rattle.indexmap.specs.IndexSet.{contains};
ghost use Rattle.row_meaning.specs.Stores.{has_id};
ghost use Rattle.save_meaning.specs.Inserts.{ids_of};
ghost use Rattle.save_statements.specs.Checks.{joined};
ghost use Rattle.save_statements.specs.Records.{going, rows_of};
ghost use Rattle.delete_cascades.specs.Held.{held_by, holds};

use apex_list::Items;
use apex_num::{Cell, Id, NoMemory};
use apex_rows::Row;
use indexmap::IndexSet;
use save_statements::{Naming, Record};
use std::alloc::{AllocError, Global};

// With one Id more.
fn add_id(ids: &mut IndexSet<[u8; 15]>, id: &Id) -> Result<(), NoMemory>
    ensures { OnOk result ((other : List ℕ) → contains bytes_eq ids.new other ≡ (contains bytes_eq ids.old other || bytes_eq id.now other)) }
{
    ids.insert(id.bytes()).map_err(AllocError::from)?;
    Ok(())
}

// With the Ids of rows.
fn add_rows(ids: &mut IndexSet<[u8; 15]>, rows: &[Row]) -> Result<(), NoMemory>
    ensures { OnOk result ((id : List ℕ) → contains bytes_eq ids.new id ≡ (contains bytes_eq ids.old id || has_id (ids_of rows.now) id)) }
{
    for row in rows {
        add_id(ids, &row.id)?;
    }
    Ok(())
}

// With the Ids of the rows of some levels.
fn add_levels(ids: &mut IndexSet<[u8; 15]>, levels: &[Items<Row>]) -> Result<(), NoMemory>
    ensures { OnOk result ((id : List ℕ) → contains bytes_eq ids.new id ≡ (contains bytes_eq ids.old id || has_id (ids_of (joined levels.now)) id)) }
{
    for rows in levels {
        add_rows(ids, rows.as_slice())?;
    }
    Ok(())
}

// With the Id of a record's row, where it goes on.
fn add_record(ids: &mut IndexSet<[u8; 15]>, one: &Record) -> Result<(), NoMemory>
    ensures { OnOk result ((id : List ℕ) → contains bytes_eq ids.new id ≡ (contains bytes_eq ids.old id || has_id (ids_of (rows_of (going (one.now ∷ [])))) id)) }
{
    match one {
        Record::Going(pending) => add_id(ids, &pending.get().row.id),
        Record::Wrong(_) => Ok(()),
    }
}

// With the Ids of the rows of the records that go on.
fn add_records(ids: &mut IndexSet<[u8; 15]>, records: &[Record]) -> Result<(), NoMemory>
    ensures { OnOk result ((id : List ℕ) → contains bytes_eq ids.new id ≡ (contains bytes_eq ids.old id || has_id (ids_of (rows_of (going records.now))) id)) }
{
    for one in records {
        add_record(ids, one)?;
    }
    Ok(())
}

/// The Ids of all rows that go: those of the records that go on, and the levels under them.
pub fn gone_ids(
    alloc: Global,
    records: &[Record],
    levels: &[Items<Row>],
) -> Result<IndexSet<[u8; 15]>, NoMemory>
    ensures { IfOk result (λ ids. (id : List ℕ) → contains bytes_eq ids id ≡ has_id (ids_of (rows_of (going records.now) ++ joined levels.now)) id) }
{
    let mut ids = IndexSet::new(alloc);
    add_records(&mut ids, records)?;
    add_levels(&mut ids, levels)?;
    Ok(ids)
}

// With the Id that a field of a row names, where the row stays.
fn add_held(
    held: &mut IndexSet<[u8; 15]>,
    gone: &IndexSet<[u8; 15]>,
    naming: &Naming,
    row: &Row,
) -> Result<(), NoMemory>
    ensures { OnOk result ((id : List ℕ) → contains bytes_eq held.new id ≡ (contains bytes_eq held.old id || holds (contains bytes_eq gone.now) naming.now id row.now)) }
{
    if gone.contains(&row.id.bytes()) {
        return Ok(());
    }
    match row.cells.get(naming.field) {
        Some(Cell::Id(id)) => add_id(held, id),
        _ => Ok(()),
    }
}

// With the Ids that a field of rows names, where the rows stay.
fn add_all_held(
    held: &mut IndexSet<[u8; 15]>,
    gone: &IndexSet<[u8; 15]>,
    naming: &Naming,
    rows: &[Row],
) -> Result<(), NoMemory>
    ensures { OnOk result ((id : List ℕ) → contains bytes_eq held.new id ≡ (contains bytes_eq held.old id || list_any (holds (contains bytes_eq gone.now) naming.now id) rows.now)) }
{
    for row in rows {
        add_held(held, gone, naming, row)?;
    }
    Ok(())
}

/// The Ids that rows which stay name by their lookups.
pub fn held_ids(
    alloc: Global,
    gone: &IndexSet<[u8; 15]>,
    found: &[(Naming, Items<Row>)],
) -> Result<IndexSet<[u8; 15]>, NoMemory>
    ensures { IfOk result (λ held. (id : List ℕ) → contains bytes_eq held id ≡ held_by (contains bytes_eq gone.now) found.now id) }
{
    let mut held = IndexSet::new(alloc);
    for one in found {
        add_all_held(&mut held, gone, &one.0, one.1.as_slice())?;
    }
    Ok(held)
}

/// Whether one of these Ids is among those that are held.
pub fn is_one_held(held: &IndexSet<[u8; 15]>, ids: &[Id]) -> bool
    ensures { result ≡ list_any (contains bytes_eq held.now) ids.now }
{
    for id in ids {
        if held.contains(&id.bytes()) {
            return true;
        }
    }
    false
}
