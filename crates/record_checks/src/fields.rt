// Fields of a record that may not be what they are.

ghost use Rattle.std.specs.Prelude.{◌≡◌, IfOk};
ghost use Rattle.row_meaning.specs.Conds.{cell_of};
ghost use Rattle.row_meaning.specs.Rules as rules;
ghost use Rattle.save_meaning.specs.Drafts as drafts;
ghost use Rattle.save_statements.specs.Checks as spec;

use crate::changes::changes;
use apex_num::{Cell, NoMemory};
use apex_rows::Row;
use apex_schema::{Field, FieldKind};
use platform_errors::RecordError;
use save_statements::Pending;

fn is_master(kind: &FieldKind) -> bool
    ensures { result ≡ spec.is_master kind.now }
{
    match kind {
        FieldKind::MasterDetail(_) => true,
        FieldKind::Id
        | FieldKind::Text(_)
        | FieldKind::Number
        | FieldKind::Checkbox
        | FieldKind::Date
        | FieldKind::Datetime
        | FieldKind::Lookup(_)
        | FieldKind::Rollup(_) => false,
    }
}

/// The first MasterDetail field that an update changes.
pub fn other_master(fields: &[Field], pending: &Pending) -> Result<Option<RecordError>, NoMemory>
    ensures { IfOk result (λ error. error ≡ spec.other_master 0 fields.now pending.now) }
{
    for i in 0..fields.len() {
        if is_master(&fields[i].kind) && changes(i, &pending.row, pending.old.as_ref()) {
            return Ok(Some(RecordError::CannotChange(fields[i].name.copy()?)));
        }
    }
    Ok(None)
}

fn is_blank(cell: &Cell) -> bool
    ensures { result ≡ rules.is_blank cell.now }
{
    match cell {
        Cell::Null => true,
        Cell::Text(text) => text.bytes().is_empty(),
        Cell::Bool(_)
        | Cell::Whole(_)
        | Cell::Num(_)
        | Cell::Id(_)
        | Cell::Day(_)
        | Cell::Moment(_) => false,
    }
}

// Whether a row has no value in a field.
fn has_none(row: &Row, field: usize) -> bool
    ensures { result ≡ rules.is_blank (cell_of row.now field) }
{
    match row.cells.get(field) {
        Some(cell) => is_blank(cell),
        None => true,
    }
}

// Whether a field needs a value.
fn is_needed(field: &Field) -> bool
    ensures { result ≡ drafts.is_needed field.now field.now.kind }
{
    is_master(&field.kind) || field.required
}

/// The first field of a row that needs a value and has none.
pub fn lacking(fields: &[Field], row: &Row) -> Result<Option<RecordError>, NoMemory>
    ensures { IfOk result (λ error. error ≡ drafts.lacking 0 fields.now row.now) }
{
    for i in 0..fields.len() {
        if is_needed(&fields[i]) && has_none(row, i) {
            return Ok(Some(RecordError::Required(fields[i].name.copy()?)));
        }
    }
    Ok(None)
}

// Whether a value is a text of more characters than its field allows.
fn is_long(kind: &FieldKind, cell: &Cell) -> bool
    ensures { result ≡ drafts.is_long kind.now cell.now }
{
    match (kind, cell) {
        (FieldKind::Text(most), Cell::Text(text)) => text.length() > *most as usize,
        _ => false,
    }
}

fn is_long_in(kind: &FieldKind, row: &Row, field: usize) -> bool
    ensures { result ≡ drafts.is_long kind.now (cell_of row.now field) }
{
    match row.cells.get(field) {
        Some(cell) => is_long(kind, cell),
        None => is_long(kind, &Cell::Null),
    }
}

/// The first text of a row that is longer than its field.
pub fn too_long(fields: &[Field], row: &Row) -> Result<Option<RecordError>, NoMemory>
    ensures { IfOk result (λ error. error ≡ drafts.too_long 0 fields.now row.now) }
{
    for i in 0..fields.len() {
        if is_long_in(&fields[i].kind, row, i) {
            return Ok(Some(RecordError::TooLong(fields[i].name.copy()?)));
        }
    }
    Ok(None)
}

// Whether a value is a text and no level.
fn is_bad_level(cell: &Cell) -> bool
    ensures { result ≡ drafts.is_bad_level cell.now }
{
    match cell {
        Cell::Text(text) => text.as_str() != "Read" && text.as_str() != "Edit",
        _ => false,
    }
}

/// Whether a row of RowShare has a level that there isn't.
pub fn has_bad_level(row: &Row) -> bool
    ensures { result ≡ drafts.is_bad_level (cell_of row.now 4) }
{
    match row.cells.get(4) {
        Some(cell) => is_bad_level(cell),
        None => false,
    }
}
