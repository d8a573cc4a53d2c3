// Conditions that were made ready for many rows.

ghost use Rattle.std.specs.Prelude.{◌≡◌, IfOk};
ghost use Rattle.std.specs.List.{list_all, list_any};
ghost use Rattle.apex_num.specs.declared.cell.Cell.TheVariants as TheCell;
ghost use Rattle.row_meaning.specs.Conds.{cell_of, own_value};
ghost use Rattle.row_conditions.specs.Prepared.{prepared_holds};

use crate::cell_set::CellSet;
use crate::cells::compares;
use apex_list::{Boxed, Items};
use apex_num::Cell;
use apex_rows::{CondOp, Path, Row};
use std::alloc::{AllocError, Global};

/// A condition with the values of its binds in their places, in which the values behind IN are looked up by hash.
#[derive(Drop)]
pub enum PreparedCond {
    /// Each of these holds.
    All(Items<PreparedCond>),
    /// One of these holds.
    Any(Items<PreparedCond>),
    Not(Boxed<PreparedCond>),
    Compare(Path, CondOp, Cell),
    /// IN; where the truth value is true, NOT IN.
    Within(Path, bool, CellSet),
}

// The cell of a field; null where the row has no such cell.
fn cell<'a>(row: &'a Row, field: usize, null: &'a Cell) -> &'a Cell
    requires { null.now ≡ TheCell.Null }
    ensures { result.now ≡ cell_of row.now field }
{
    match row.cells.get(field) {
        Some(cell) => cell,
        None => null,
    }
}

impl PreparedCond {
    /// Whether it holds of a row of its object: each IN looks its value up once, however many values it has.
    #[cycle(conditions)]
    pub fn holds(&self, alloc: Global, row: &Row) -> Result<bool, AllocError>
        ensures { IfOk result (λ found. found ≡ prepared_holds (own_value row.now) self.now) }
    {
        match self {
            PreparedCond::All(conds) => all_hold(alloc, conds, row),
            PreparedCond::Any(conds) => one_holds(alloc, conds, row),
            PreparedCond::Not(inner) => Ok(!inner.get().holds(alloc, row)?),
            PreparedCond::Compare(path, op, value) => {
                let null = Cell::Null;
                compares(alloc, *op, cell(row, path.field, &null), value)
            }
            PreparedCond::Within(path, negated, set) => {
                let null = Cell::Null;
                Ok(set.has(alloc, cell(row, path.field, &null))? != *negated)
            }
        }
    }
}

#[cycle(conditions)]
fn all_hold(alloc: Global, conds: &Items<PreparedCond>, row: &Row) -> Result<bool, AllocError>
    ensures { IfOk result (λ found. found ≡ list_all (prepared_holds (own_value row.now)) conds.now) }
{
    for cond in conds.as_slice() {
        if !cond.holds(alloc, row)? {
            return Ok(false);
        }
    }
    Ok(true)
}

#[cycle(conditions)]
fn one_holds(alloc: Global, conds: &Items<PreparedCond>, row: &Row) -> Result<bool, AllocError>
    ensures { IfOk result (λ found. found ≡ list_any (prepared_holds (own_value row.now)) conds.now) }
{
    for cond in conds.as_slice() {
        if cond.holds(alloc, row)? {
            return Ok(true);
        }
    }
    Ok(false)
}
