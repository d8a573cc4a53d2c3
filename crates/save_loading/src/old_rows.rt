// The rows that are there, by the Ids that are given.

ghost use Rattle.std.specs.Prelude.{◌≡◌, [], map, IfOk};
ghost use Rattle.apex_requests.specs.declared.request.SaveRow.{SaveRow as ToSave};
ghost use Rattle.save_meaning.specs.Drafts.{with_ids};
ghost use Rattle.save_meaning.specs.Inserts.{ids_of};
ghost use Rattle.save_statements.specs.Loading as spec;
ghost use Rattle.save_statements.specs.Records.{going as those_going, rows_of};
ghost use Rattle.save_statements.specs.Statements.{unplaced};

use crate::by_id::ById;
use crate::new_rows::going;
use answer_replay::IdSet;
use apex_list::Items;
use apex_num::{Id, NoMemory};
use apex_requests::SaveRow;
use apex_rows::Row;
use platform_errors::RecordError;
use save_statements::{Placed, Record};
use std::alloc::Global;

/// The Ids that are given, rising, each once.
pub fn given_ids(alloc: Global, rows: &[Placed]) -> Result<IdSet, NoMemory>
    ensures { IfOk result (λ ids. ids ≡ with_ids (spec.given_ids (unplaced rows.now)) []) }
{
    let mut ids = IdSet::new(alloc);
    for placed in rows {
        if let Some(id) = placed.row.id {
            ids.insert(id)?;
        }
    }
    Ok(ids)
}

// The row of a record among those that were found.
fn old_record(alloc: Global, found: &ById, row: &SaveRow) -> Result<Record, NoMemory>
    ensures { IfOk result (λ r. r ≡ spec.old_record found.now row.now.id) }
{
    let Some(id) = &row.id else {
        return Ok(Record::Wrong(RecordError::NoId));
    };
    let Some(old) = found.find(id) else {
        return Ok(Record::Wrong(RecordError::NoSuchRow));
    };
    let old = old.copy()?;
    going(alloc, old, None)
}

// The rows of records among those that were found.
fn old_ones(alloc: Global, found: &ById, rows: &[Placed]) -> Result<Items<Record>, NoMemory>
    ensures { IfOk result (λ records. records ≡ map (λ (r : ToSave). spec.old_record found.now r.id) (unplaced rows.now)) }
{
    let mut records = Items::new(alloc);
    for placed in rows {
        records.push(old_record(alloc, found, &placed.row)?)?;
    }
    Ok(records)
}

/// The rows of records among those that were found: one without Id, or with that of no row, is wrong. Rows are looked up in a hash
/// table.
pub fn old_records(
    alloc: Global,
    found: Items<Row>,
    rows: &[Placed],
) -> Result<Items<Record>, NoMemory>
    ensures { IfOk result (λ records. records ≡ map (λ (r : ToSave). spec.old_record found r.id) (unplaced rows.now)) }
{
    let found = ById::of(alloc, found)?;
    old_ones(alloc, &found, rows)
}

/// The Ids of the rows that go on, in the order of the records.
pub fn going_ids(alloc: Global, records: &[Record]) -> Result<Items<Id>, NoMemory>
    ensures { IfOk result (λ ids. ids ≡ ids_of (rows_of (those_going records.now))) }
{
    let mut ids = Items::new(alloc);
    for record in records {
        if let Record::Going(pending) = record {
            ids.push(pending.get().row.id)?;
        }
    }
    Ok(ids)
}
