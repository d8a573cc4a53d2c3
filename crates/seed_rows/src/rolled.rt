// The rows of a seed with their roll-ups.

ghost use Rattle.std.specs.Prelude.{IfOk, MatchResult};
ghost use Rattle.seed_rows.specs.Rolls.{AreOnlyRows, RollsTo};
ghost use Rattle.seed_rows.specs.Seeds as spec;
ghost use Rattle.seed_rows.specs.Views.{all_as_written};

use crate::fault::SeedFault;
use crate::places::out_of_range;
use crate::written::WrittenRow;
use apex_num::NoMemory;
use apex_rows::Row;
use apex_schema::Schema;
use rolled_rows::{Details, Rolled, rolled_row};
use std::alloc::{AllocError, Global};

// A row with its roll-ups; none where one of them is out of range.
fn with_own(details: &Details, row: &Row) -> Result<Option<Row>, NoMemory>
    ensures { IfOk result (RollsTo details.now.schema.now details.now.rows.now row.now) }
{
    match rolled_row(details, row)? {
        Rolled::Cells(cells) => Ok(Some(Row {
            object: row.object,
            id: row.id,
            cells,
        })),
        Rolled::OutOfRange(_) => Ok(None),
    }
}

/// The rows of a seed, which is written so, with their roll-ups over all of them; or the fault of the first one that has
/// a roll-up out of range.
pub fn with_rollups(
    alloc: Global,
    schema: &Schema,
    all: &[WrittenRow],
    plain: &[Row],
) -> Result<Vec<Row>, SeedFault>
    requires { AreOnlyRows schema.now (all_as_written all.now) plain.now }
    ensures { MatchResult result (λ rows. spec.IsOnlySeed schema.now (all_as_written all.now) rows.items) (spec.NoSeed schema.now (all_as_written all.now)) }
{
    let details = Details::new(alloc, schema, plain)?;
    let mut rows = Vec::new(alloc);
    'rows: for i in 0..plain.len() {
        match with_own(&details, &plain[i])? {
            Some(row) => rows.push(row).map_err(AllocError::from)?,
            None => return Err(out_of_range(alloc, schema, all, i)),
        }
    }
    Ok(rows)
}
