// Master rows with their roll-ups.

ghost use Rattle.std.specs.Prelude.{◌≡◌, true, false, map, slice_get, slice_set, Some, IfOk, MatchResult};
ghost use Rattle.row_meaning.specs.Rollups.{cell_of_sum};
ghost use Rattle.rolled_rows.specs.Groups.{has_rollup, with_cell};
ghost use Rattle.rolled_rows.specs.RollUps as spec;
ghost use Rattle.rolled_rows.specs.RollUps.{comes_to, goes_out, in_range, rolled_up};

use crate::fields::{fields_of, rollup_of};
use crate::groups::Details;
use apex_list::Items;
use apex_num::{Cell, NoMemory, copy_list};
use apex_rows::Row;
use apex_schema::{Field, Rollup, Schema};
use rollups::{OutOfRange, roll};
use std::alloc::Global;

/// A master row over detail rows.
#[derive(Drop)]
pub enum Rolled {
    /// Its cells, each roll-up's replaced by what that comes to.
    Cells(Items<Cell>),
    /// The first of its fields, by number, that is a roll-up out of range.
    OutOfRange(usize),
}

// The cell of a roll-up of a master row.
fn rolled_cell(details: &Details, master: &Row, rollup: &Rollup) -> Result<Cell, OutOfRange>
    requires { has_rollup rollup.now.detail (spec.fields_of details.now.schema.now master.now.object) ≡ true }
    ensures { MatchResult result (λ cell. (in_range (comes_to details.now.schema.now details.now.rows.now master.now rollup.now) ≡ true) × (cell ≡ cell_of_sum (comes_to details.now.schema.now details.now.rows.now master.now rollup.now))) (λ e. in_range (comes_to details.now.schema.now details.now.rows.now master.now rollup.now) ≡ false) }
{
    roll(rollup, details.under(rollup.detail, master))
}

// Puts a cell in its place, where there is such a place.
fn put(cells: &mut Items<Cell>, n: usize, cell: Cell)
    ensures { cells.new ≡ slice_set cells.old n cell }
{
    if n < cells.len() {
        cells.set(n, cell);
    }
}

// Puts the cell of a field that is a roll-up in its place.
fn roll_field(
    details: &Details,
    master: &Row,
    n: usize,
    field: &Field,
    cells: &mut Items<Cell>,
) -> Result<(), OutOfRange>
    requires { slice_get (spec.fields_of details.now.schema.now master.now.object) n ≡ Some field.now }
    ensures { MatchResult result (λ u. (goes_out (comes_to details.now.schema.now details.now.rows.now master.now) (spec.rollup_of field.now.kind) ≡ false) × (cells.new ≡ with_cell (comes_to details.now.schema.now details.now.rows.now master.now) (spec.rollup_of field.now.kind) cells.old n)) (λ e. goes_out (comes_to details.now.schema.now details.now.rows.now master.now) (spec.rollup_of field.now.kind) ≡ true) }
{
    let Some(rollup) = rollup_of(&field.kind) else {
        return Ok(());
    };
    match rolled_cell(details, master, &rollup) {
        Ok(cell) => {
            put(cells, n, cell);
            Ok(())
        }
        Err(fault) => Err(fault),
    }
}

/// A row with its roll-ups over the detail rows: COUNT is how many of them are under it, which are those of the detail
/// object whose first MasterDetail field that leads to the row's object holds its Id; SUM, MIN and MAX are over their
/// numbers in a field, null cells passed over. SUM and COUNT of nothing are 0, MIN and MAX null. A roll-up that is no
/// Decimal is out of range, whatever parts of its sum are; the first such field of the row is told in place of its cells.
/// It looks at the rows under the row alone. Want of memory is the only error.
pub fn rolled_row(details: &Details, master: &Row) -> Result<Rolled, NoMemory>
    ensures { IfOk result (λ r. r ≡ rolled_up details.now.schema.now details.now.rows.now master.now) }
{
    let fields = fields_of(details.schema, master.object);
    let mut cells = copy_list(&master.cells)?;
    'fields: for n in 0..fields.len() {
        if let Err(OutOfRange::OutOfRange) = roll_field(
            details, master, n, &fields[n], &mut cells,
        ) {
            return Ok(Rolled::OutOfRange(n));
        }
    }
    Ok(Rolled::Cells(cells))
}

/// Each of these rows with its roll-ups over the detail rows (`rolled_row`), in their order. Each detail row is looked at
/// once for its fields and once for each roll-up over it, so the time grows about with the rows.
pub fn roll_up(
    alloc: Global,
    schema: &Schema,
    masters: &[Row],
    details: &[Row],
) -> Result<Items<Rolled>, NoMemory>
    ensures { IfOk result (λ all. all ≡ map (rolled_up schema.now details.now) masters.now) }
{
    let details = Details::new(alloc, schema, details)?;
    let mut all = Items::new(alloc);
    for master in masters {
        all.push(rolled_row(&details, master)?)?;
    }
    Ok(all)
}
