// The new rows of an insert.

ghost use Rattle.std.specs.Prelude.{◌≡◌, ◌<◌, suc, map, IfOk};
ghost use Rattle.apex_requests.specs.declared.request.SaveRow.{SaveRow as ToSave};
ghost use Rattle.record_ids.specs.Ids.{most};
ghost use Rattle.save_statements.specs.Loading as spec;
ghost use Rattle.save_statements.specs.Records as records;
ghost use Rattle.save_statements.specs.Statements.{unplaced};

use crate::new_cells::{new_cells, no_id};
use apex_list::{Boxed, Items};
use apex_num::NoMemory;
use apex_requests::SaveRow;
use apex_rows::Row;
use apex_schema::Object;
use platform_errors::RecordError;
use save_statements::{Pending, Placed, Record};
use std::alloc::Global;

/// A row that goes on, with what it was.
pub fn going(alloc: Global, row: Row, old: Option<Row>) -> Result<Record, NoMemory>
    ensures { IfOk result (λ r. r ≡ Record.Going (records.pending row old)) }
{
    let pending = Pending {
        row,
        old,
        seen: None,
        under: Items::new(alloc),
    };
    Ok(Record::Going(Boxed::new(alloc, pending)?))
}

// The new row that a record would be; one with an Id is wrong.
fn new_record(
    alloc: Global,
    user: usize,
    number: usize,
    object: &Object,
    row: &SaveRow,
) -> Result<Record, NoMemory>
    requires { suc user < most }
    ensures { IfOk result (λ r. r ≡ spec.new_record user number object.now row.now row.now.id) }
{
    match row.id {
        Some(_) => Ok(Record::Wrong(RecordError::IdInInsert)),
        None => {
            let cells = new_cells(alloc, user, object.fields.as_slice(), row.cells.as_slice())?;
            let row = Row {
                object: number,
                id: no_id(),
                cells,
            };
            going(alloc, row, None)
        }
    }
}

/// The new rows that records of an object would be, for a user by its number; those with an Id are wrong.
pub fn new_records(
    alloc: Global,
    user: usize,
    number: usize,
    object: &Object,
    rows: &[Placed],
) -> Result<Items<Record>, NoMemory>
    requires { suc user < most }
    ensures { IfOk result (λ records. records ≡ map (λ (r : ToSave). spec.new_record user number object.now r r.id) (unplaced rows.now)) }
{
    let mut records = Items::new(alloc);
    for placed in rows {
        records.push(new_record(alloc, user, number, object, &placed.row)?)?;
    }
    Ok(records)
}
