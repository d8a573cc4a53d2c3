// The Ids of rows by their objects.

ghost use Rattle.std.specs.Prelude.{◌≡◌, ◌∷◌, ◌++◌, [], ℕ, eqb, cond, IfOk, OnOk};
ghost use Rattle.row_meaning.specs.Stores.{of_object};
ghost use Rattle.save_meaning.specs.Drafts.{with_id, with_ids};
ghost use Rattle.save_meaning.specs.Inserts.{ids_of};
ghost use Rattle.save_statements.specs.Checks.{joined};
ghost use Rattle.save_statements.specs.Records.{going, rows_of};
ghost use Rattle.save_deletes.specs.Heads.{AreHeads, ids_in, is_some_row};

use answer_replay::IdSet;
use apex_list::Items;
use apex_num::{Id, NoMemory};
use apex_rows::Row;
use indexmap::IndexMap;
use save_statements::Record;
use std::alloc::{AllocError, Global};

// Takes the Ids of an object.
fn take(alloc: Global, sets: &mut IndexMap<usize, IdSet>, object: usize) -> IdSet
    ensures taken { result ≡ ids_in sets.old object }
    ensures others { (other : ℕ) → ids_in sets.new other ≡ cond (eqb object other) [] (ids_in sets.old other) }
{
    match sets.swap_remove(&object) {
        Some(ids) => ids,
        None => IdSet::new(alloc),
    }
}

// With an Id of an object.
fn add_id(
    alloc: Global,
    sets: &mut IndexMap<usize, IdSet>,
    object: usize,
    id: Id,
) -> Result<(), NoMemory>
    ensures { OnOk result ((other : ℕ) → ids_in sets.new other ≡ cond (eqb object other) (with_id id (ids_in sets.old other)) (ids_in sets.old other)) }
{
    let mut ids = take(alloc, sets, object);
    ids.insert(id)?;
    sets.insert(object, ids).map_err(AllocError::from)?;
    Ok(())
}

// With the Id of a row.
fn add_row(alloc: Global, sets: &mut IndexMap<usize, IdSet>, row: &Row) -> Result<(), NoMemory>
    ensures { OnOk result ((object : ℕ) → ids_in sets.new object ≡ with_ids (ids_of (of_object object (row.now ∷ []))) (ids_in sets.old object)) }
{
    add_id(alloc, sets, row.object, row.id)
}

// With the Ids of rows.
fn add_rows(alloc: Global, sets: &mut IndexMap<usize, IdSet>, rows: &[Row]) -> Result<(), NoMemory>
    ensures { OnOk result ((object : ℕ) → ids_in sets.new object ≡ with_ids (ids_of (of_object object rows.now)) (ids_in sets.old object)) }
{
    for row in rows {
        add_row(alloc, sets, row)?;
    }
    Ok(())
}

// With the Ids of the rows of some levels.
fn add_levels(
    alloc: Global,
    sets: &mut IndexMap<usize, IdSet>,
    levels: &[Items<Row>],
) -> Result<(), NoMemory>
    ensures { OnOk result ((object : ℕ) → ids_in sets.new object ≡ with_ids (ids_of (of_object object (joined levels.now))) (ids_in sets.old object)) }
{
    for rows in levels {
        add_rows(alloc, sets, rows.as_slice())?;
    }
    Ok(())
}

// With the Id of a record's row, where it goes on.
fn add_record(
    alloc: Global,
    sets: &mut IndexMap<usize, IdSet>,
    one: &Record,
) -> Result<(), NoMemory>
    ensures { OnOk result ((object : ℕ) → ids_in sets.new object ≡ with_ids (ids_of (of_object object (rows_of (going (one.now ∷ []))))) (ids_in sets.old object)) }
{
    match one {
        Record::Going(pending) => add_row(alloc, sets, &pending.get().row),
        Record::Wrong(_) => Ok(()),
    }
}

/// The Ids of the rows of the records that go on, by their objects.
pub fn heads_of_records(
    alloc: Global,
    records: &[Record],
) -> Result<IndexMap<usize, IdSet>, NoMemory>
    ensures { IfOk result (λ sets. AreHeads (rows_of (going records.now)) sets) }
{
    let mut sets = IndexMap::new(alloc);
    for one in records {
        add_record(alloc, &mut sets, one)?;
    }
    Ok(sets)
}

/// The Ids of rows, by their objects.
pub fn heads_of_rows(alloc: Global, rows: &[Row]) -> Result<IndexMap<usize, IdSet>, NoMemory>
    ensures { IfOk result (λ sets. AreHeads rows.now sets) }
{
    let mut sets = IndexMap::new(alloc);
    add_rows(alloc, &mut sets, rows)?;
    Ok(sets)
}

/// The Ids of all that goes, by their objects.
pub fn heads_of_all(
    alloc: Global,
    records: &[Record],
    levels: &[Items<Row>],
) -> Result<IndexMap<usize, IdSet>, NoMemory>
    ensures { IfOk result (λ sets. AreHeads (rows_of (going records.now) ++ joined levels.now) sets) }
{
    let mut sets = heads_of_records(alloc, records)?;
    add_levels(alloc, &mut sets, levels)?;
    Ok(sets)
}

/// Whether a record goes on.
pub fn is_one_going(records: &[Record]) -> bool
    ensures { result ≡ is_some_row (rows_of (going records.now)) }
{
    for one in records {
        if let Record::Going(_) = one {
            return true;
        }
    }
    false
}
