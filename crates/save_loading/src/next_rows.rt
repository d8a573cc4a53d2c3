// The cells of an update.

ghost use Rattle.std.specs.Prelude.{◌≡◌, IfOk};
ghost use Rattle.std.specs.Option.{option_copied};
ghost use Rattle.save_statements.specs.Loading as spec;
ghost use Rattle.save_statements.specs.Statements.{unplaced};
ghost use Rattle.save_loading.specs.Steps.{next_at, next_by, next_placed};

use crate::new_rows::going;
use apex_list::{Boxed, Items};
use apex_num::{Cell, NoMemory};
use apex_rows::Row;
use apex_schema::{Field, FieldKind, Object};
use save_statements::{Act, Manner, Pending, Placed, Record};
use std::alloc::Global;

fn is_roll_up(kind: &FieldKind) -> bool
    ensures { result ≡ spec.is_roll_up kind.now }
{
    match kind {
        FieldKind::Rollup(_) => true,
        FieldKind::Id
        | FieldKind::Text(_)
        | FieldKind::Number
        | FieldKind::Checkbox
        | FieldKind::Date
        | FieldKind::Datetime
        | FieldKind::Lookup(_)
        | FieldKind::MasterDetail(_) => false,
    }
}

fn for_roll_ups(by: Manner) -> bool
    ensures { result ≡ spec.for_roll_ups by }
{
    match by {
        Manner::ByCode(_) => false,
        Manner::ByRollUps => true,
    }
}

// Whether what the record knows of a field is taken: never its Id, and a roll-up only where roll-ups save.
fn is_taken(by: Manner, number: usize, field: &Field) -> bool
    ensures { result ≡ spec.is_taken by number field.now }
{
    number != 0 && (!is_roll_up(&field.kind) || for_roll_ups(by))
}

// What is known of a field, where it is taken, and else what the row has.
fn next_cell(
    by: Manner,
    number: usize,
    field: Option<&Field>,
    old: &Cell,
    known: Option<&Option<Cell>>,
) -> Result<Cell, NoMemory>
    ensures { IfOk result (λ cell. cell ≡ next_at by number (option_copied field.entry) old.now (option_copied known.entry)) }
{
    match (field, known) {
        (Some(field), Some(Some(cell))) => {
            if is_taken(by, number, field) {
                cell.copy()
            } else {
                old.copy()
            }
        }
        _ => old.copy(),
    }
}

fn next_cells(
    alloc: Global,
    by: Manner,
    fields: &[Field],
    old: &[Cell],
    known: &[Option<Cell>],
) -> Result<Items<Cell>, NoMemory>
    ensures { IfOk result (λ cells. cells ≡ spec.next_cells by 0 fields.now old.now known.now) }
{
    let mut cells = Items::new(alloc);
    for i in 0..old.len() {
        cells.push(next_cell(by, i, fields.get(i), &old[i], known.get(i))?)?;
    }
    Ok(cells)
}

// The row that an update makes of one that is there.
fn next_row(
    alloc: Global,
    by: Manner,
    object: &Object,
    known: &[Option<Cell>],
    old: Row,
) -> Result<Record, NoMemory>
    ensures { IfOk result (λ r. r ≡ Record.Going (next_by by object.now known.now old)) }
{
    let cells = next_cells(
        alloc,
        by,
        object.fields.as_slice(),
        old.cells.as_slice(),
        known,
    )?;
    let row = Row {
        object: old.object,
        id: old.id,
        cells,
    };
    going(alloc, row, Some(old))
}

// What an update makes of a record that goes on.
fn next_going(
    alloc: Global,
    by: Manner,
    object: &Object,
    known: &[Option<Cell>],
    pending: Boxed<Pending>,
) -> Result<Record, NoMemory>
    ensures { IfOk result (λ r. r ≡ Record.Going (next_by by object.now known.now pending.row)) }
{
    let Pending { row, .. } = pending.into_value();
    next_row(alloc, by, object, known, row)
}

// What an update makes of a record.
fn next_record(
    alloc: Global,
    by: Manner,
    object: &Object,
    placed: Option<&Placed>,
    one: Record,
) -> Result<Record, NoMemory>
    ensures { IfOk result (λ next. next ≡ next_placed by object.now (option_copied placed.entry) one) }
{
    match (placed, one) {
        (Some(placed), Record::Going(pending)) => {
            next_going(alloc, by, object, placed.row.cells.as_slice(), pending)
        }
        (_, one) => Ok(one),
    }
}

// What an update makes of records.
fn updated(
    alloc: Global,
    by: Manner,
    object: &Object,
    rows: &[Placed],
    records: Items<Record>,
) -> Result<Items<Record>, NoMemory>
    ensures { IfOk result (λ next. next ≡ spec.next_records Act.Updating by object.now (unplaced rows.now) records) }
{
    let mut next = Items::new(alloc);
    let mut place = 0;
    for record in records.into_vec() {
        next.push(next_record(alloc, by, object, rows.get(place), record)?)?;
        place += 1;
    }
    Ok(next)
}

/// What an update makes of records; in a delete they stay.
pub fn next_records(
    alloc: Global,
    act: Act,
    by: Manner,
    object: &Object,
    rows: &[Placed],
    records: Items<Record>,
) -> Result<Items<Record>, NoMemory>
    ensures { IfOk result (λ next. next ≡ spec.next_records act by object.now (unplaced rows.now) records) }
{
    match act {
        Act::Updating => updated(alloc, by, object, rows, records),
        Act::Inserting | Act::Deleting => Ok(records),
    }
}
