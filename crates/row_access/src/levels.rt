// What RowShare rows give a user, by the rows that they share.

ghost use Rattle.std.specs.Prelude.{◌≡◌, ◌&&◌, ℕ, List, cond, false, bytes_eq, IfOk, OnOk, MatchOption};
ghost use Rattle.apex_num.specs.declared.cell.Cell.TheVariants as TheCell;
ghost use Rattle.apex_schema.specs.declared.schema.Access.TheVariants as TheAccess;
ghost use Rattle.row_meaning.specs.Accesses as spec;
ghost use Rattle.row_meaning.specs.Conds.{cell_of};
ghost use Rattle.row_access.specs.Views.{HasLevels, level_in};

use apex_num::{Cell, Id, NoMemory};
use apex_rows::Row;
use apex_schema::Access;
use indexmap::IndexMap;
use std::alloc::{AllocError, Global};

// The greater of two levels.
pub(crate) fn greater(a: Access, b: Access) -> Access
    ensures { result ≡ spec.greater a b }
{
    match (a, b) {
        (Access::Edit, _) | (_, Access::Edit) => Access::Edit,
        (Access::Read, _) | (_, Access::Read) => Access::Read,
        (Access::Nothing, Access::Nothing) => Access::Nothing,
    }
}

// The Id that stands in a field of a row.
pub(crate) fn named_in<'a>(row: &'a Row, field: usize) -> Option<&'a Id>
    ensures { MatchOption result ((id : List ℕ) → spec.is_id (cell_of row.now field) id ≡ false) (λ named. cell_of row.now field ≡ TheCell.Id named.now) }
{
    match row.cells.get(field) {
        Some(Cell::Id(id)) => Some(id),
        _ => None,
    }
}

// The level that a cell says.
fn level_of(cell: &Cell) -> Access
    ensures { result ≡ spec.level_of cell.now }
{
    match cell {
        Cell::Text(text) => {
            if text.as_str() == "Edit" {
                Access::Edit
            } else if text.as_str() == "Read" {
                Access::Read
            } else {
                Access::Nothing
            }
        }
        _ => Access::Nothing,
    }
}

// The level of a RowShare row.
fn level_in_row(share: &Row) -> Access
    ensures { result ≡ spec.level_of (cell_of share.now 4) }
{
    match share.cells.get(4) {
        Some(cell) => level_of(cell),
        None => Access::Nothing,
    }
}

/// What a map from Ids of rows gives on a row.
pub fn level_at(levels: &IndexMap<[u8; 15], Access>, row: &Id) -> Access
    ensures { result ≡ level_in levels.now row.now }
{
    match levels.get(&row.bytes()) {
        Some(level) => *level,
        None => Access::Nothing,
    }
}

// Gives a level on a row, beside what was given before.
fn give(levels: &mut IndexMap<[u8; 15], Access>, row: &Id, level: Access) -> Result<(), NoMemory>
    ensures { OnOk result ((id : List ℕ) → level_in levels.new id ≡ spec.greater (cond (bytes_eq row.now id) level TheAccess.Nothing) (level_in levels.old id)) }
{
    let had = level_at(levels, row);
    levels
        .insert(row.bytes(), greater(level, had))
        .map_err(AllocError::from)?;
    Ok(())
}

// Gives what a RowShare row gives a user.
fn add_share(
    levels: &mut IndexMap<[u8; 15], Access>,
    user: &Id,
    share: &Row,
) -> Result<(), NoMemory>
    ensures { OnOk result ((id : List ℕ) → level_in levels.new id ≡
        spec.greater (cond (spec.is_id (cell_of share.now 2) id && spec.is_id (cell_of share.now 3) user.now) (spec.level_of (cell_of share.now 4)) TheAccess.Nothing) (level_in levels.old id)) }
{
    let Some(row) = named_in(share, 2) else {
        return Ok(());
    };
    let Some(to) = named_in(share, 3) else {
        return Ok(());
    };
    if to != user {
        return Ok(());
    }
    give(levels, row, level_in_row(share))
}

/// What RowShare rows give a user, by the rows that they share.
pub fn levels_of(
    alloc: Global,
    user: &Id,
    shares: &[Row],
) -> Result<IndexMap<[u8; 15], Access>, NoMemory>
    ensures { IfOk result (λ levels. HasLevels levels shares.now user.now) }
{
    let mut levels = IndexMap::new(alloc);
    let mut i = shares.len();
    'back: while i > 0 {
        i -= 1;
        add_share(&mut levels, user, &shares[i])?;
    }
    Ok(levels)
}
