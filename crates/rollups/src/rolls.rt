// What a roll-up comes to.

ghost use Rattle.std.specs.Prelude.{◌≡◌, ◌*◌, pos, length, MatchResult};
ghost use Rattle.row_meaning.specs.Rollups as spec;

use crate::extremes::{greatest, least};
use crate::sums::sum;
use apex_num::{Cell, Dec};
use apex_rows::Row;
use apex_schema::{Rollup, RollupBy};
use thiserror::Error;

/// A roll-up comes to a number that is no Decimal.
#[derive(Clone, Copy, Debug, PartialEq, Eq, Drop, Error)]
pub enum OutOfRange {
    /// The sum or the count is 10^19 millionths or more, or -10^19 or less.
    #[error("out of range")]
    OutOfRange,
}

// The cell of what a roll-up comes to, null where it comes to nothing.
fn cell(value: Option<i128>) -> Result<Cell, OutOfRange>
    ensures { MatchResult result (λ cell. spec.InRange value × (cell ≡ spec.cell_of_sum value)) (λ e. spec.InRange value → ⊥) }
{
    match value {
        None => Ok(Cell::Null),
        Some(millionths) => match Dec::of(millionths) {
            Some(d) => Ok(Cell::Num(d)),
            None => Err(OutOfRange::OutOfRange),
        },
    }
}

// The count of rows in millionths.
fn counted(rows: &[Row]) -> i128
    ensures { result ≡ pos (1000000 * length rows.now) }
{
    rows.len() as i128 * 1_000_000
}

/// What a roll-up comes to over the rows under its row, which are all those of its detail object that name the row in
/// their MasterDetail field: how many there are, or the sum, the least or the greatest number of a field of theirs.
/// Null cells are passed over; without a number the sum is 0, and the least and the greatest are null. It is out of
/// range exactly where the whole sum or the count isn't a Decimal, whatever parts of the sum are.
pub fn roll(rollup: &Rollup, children: &[Row]) -> Result<Cell, OutOfRange>
    ensures { MatchResult result (λ cell. spec.RollsInRange rollup.now children.now × (cell ≡ spec.cell_of_sum (spec.rolled rollup.now children.now))) (λ e. spec.RollsInRange rollup.now children.now → ⊥) }
{
    match rollup.by {
        RollupBy::Count => cell(Some(counted(children))),
        RollupBy::Sum => match sum(rollup.field, children) {
            Some(millionths) => cell(Some(millionths)),
            None => Err(OutOfRange::OutOfRange),
        },
        RollupBy::Min => cell(least(rollup.field, children)),
        RollupBy::Max => cell(greatest(rollup.field, children)),
    }
}
