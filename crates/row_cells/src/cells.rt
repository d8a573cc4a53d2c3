// Cells from the values that are written for them.

ghost use Rattle.std.specs.Prelude.{IfOk};
ghost use Rattle.bundle_read.specs.declared.entries.CellValue.TheVariants as Written;
ghost use Rattle.row_cells.specs.Cells as spec;
ghost use Rattle.row_cells.specs.Cells.{Only};

use apex_num::{Cell, Dec, NoMemory, Text, read_dec, read_id};
use apex_schema::FieldKind;
use bundle_read::CellValue;
use civil_dates::{read_date, read_moment};

fn id_cell(value: &CellValue) -> Option<Cell>
    ensures { Only (spec.IsIdCell value.now) result }
{
    match value {
        CellValue::Text(text) => match read_id(text.bytes()) {
            Some(id) => Some(Cell::Id(id)),
            None => None,
        },
        _ => None,
    }
}

// A whole number as a Decimal.
fn whole_cell(n: i128) -> Option<Cell>
    ensures { Only (spec.IsNumberCell (Written.Whole n)) result }
{
    match n.checked_mul(1_000_000) {
        Some(millionths) => match Dec::of(millionths) {
            Some(d) => Some(Cell::Num(d)),
            None => None,
        },
        None => None,
    }
}

// A text that spells a Decimal.
fn spelled_cell(text: &Text) -> Option<Cell>
    ensures { Only (spec.IsNumberCell (Written.Text text.now)) result }
{
    match read_dec(text.bytes()) {
        Ok(d) => Some(Cell::Num(d)),
        Err(_) => None,
    }
}

fn number_cell(value: &CellValue) -> Option<Cell>
    ensures { Only (spec.IsNumberCell value.now) result }
{
    match value {
        CellValue::Whole(n) => whole_cell(*n),
        CellValue::Text(text) => spelled_cell(text),
        _ => None,
    }
}

fn text_cell(value: &CellValue) -> Result<Option<Cell>, NoMemory>
    ensures { IfOk result (λ cell. Only (spec.IsTextCell value.now) cell) }
{
    match value {
        CellValue::Text(text) => Ok(Some(Cell::Text(text.copy()?))),
        _ => Ok(None),
    }
}

fn truth_cell(value: &CellValue) -> Option<Cell>
    ensures { Only (spec.IsTruthCell value.now) result }
{
    match value {
        CellValue::Truth(truth) => Some(Cell::Bool(*truth)),
        _ => None,
    }
}

fn day_cell(value: &CellValue) -> Option<Cell>
    ensures { Only (spec.IsDayCell value.now) result }
{
    match value {
        CellValue::Text(text) => match read_date(text.bytes()) {
            Some(day) => Some(Cell::Day(day)),
            None => None,
        },
        _ => None,
    }
}

fn moment_cell(value: &CellValue) -> Option<Cell>
    ensures { Only (spec.IsMomentCell value.now) result }
{
    match value {
        CellValue::Text(text) => match read_moment(text.bytes()) {
            Some(moment) => Some(Cell::Moment(moment)),
            None => None,
        },
        _ => None,
    }
}

// The cell of a value that isn't null.
fn some_cell(kind: &FieldKind, value: &CellValue) -> Result<Option<Cell>, NoMemory>
    ensures { IfOk result (λ cell. Only (spec.IsOfKind kind.now value.now) cell) }
{
    match kind {
        FieldKind::Id | FieldKind::Lookup(_) | FieldKind::MasterDetail(_) => Ok(id_cell(value)),
        FieldKind::Text(_) => text_cell(value),
        FieldKind::Number => Ok(number_cell(value)),
        FieldKind::Checkbox => Ok(truth_cell(value)),
        FieldKind::Date => Ok(day_cell(value)),
        FieldKind::Datetime => Ok(moment_cell(value)),
        FieldKind::Rollup(_) => Ok(None),
    }
}

/// The cell that a written value is for a field of this kind; `None` exactly where it is none. Null is a cell of every
/// field. Text takes a text of any length; Number a whole number or a text that spells a Decimal, both in Decimal's
/// range; Checkbox a truth value; Date and Datetime a text `YYYY-MM-DD` and `YYYY-MM-DDThh:mm:ssZ` of the years 1 to
/// 9999; Id, Lookup and MasterDetail a text that names an Id; a roll-up nothing else.
pub fn cell_of(kind: &FieldKind, value: &CellValue) -> Result<Option<Cell>, NoMemory>
    ensures { IfOk result (λ cell. Only (spec.IsCell kind.now value.now) cell) }
{
    match value {
        CellValue::Null => Ok(Some(Cell::Null)),
        _ => some_cell(kind, value),
    }
}
