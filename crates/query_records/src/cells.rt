// The cells that a record knows.

ghost use Rattle.std.specs.Prelude.{◌≡◌, slice_get, slice_set, slice_index_or, Some, IfOk, OnOk};
ghost use Rattle.apex_num.specs.declared.cell.Cell.TheVariants.{Null};
ghost use Rattle.query_records.specs.Records as spec;

use crate::shape::Given;
use apex_list::Items;
use apex_num::{Cell, NoMemory};
use apex_rows::Row;
use apex_schema::Schema;
use std::alloc::Global;

// How many fields an object has.
fn width(schema: &Schema, object: usize) -> usize
    ensures { result ≡ spec.width (slice_get schema.now.objects object) }
{
    match schema.objects.get(object) {
        Some(object) => object.fields.len(),
        None => 0,
    }
}

/// The cells of a record of an object that knows none.
pub fn no_cells(
    alloc: Global,
    schema: &Schema,
    object: usize,
) -> Result<Items<Option<Cell>>, NoMemory>
    ensures { IfOk result (λ cells. cells ≡ spec.no_cells schema.now object) }
{
    let mut cells = Items::new(alloc);
    for i in 0..width(schema, object) {
        cells.push(None)?;
    }
    Ok(cells)
}

fn copy_at(cells: &[Cell], place: usize) -> Result<Cell, NoMemory>
    ensures { IfOk result (λ cell. cell ≡ slice_index_or cells.now place Null) }
{
    match cells.get(place) {
        Some(cell) => cell.copy(),
        None => Ok(Cell::Null),
    }
}

// Puts a copy of the cell at a place into a field. An object that has no such field stays as it is.
fn know(
    cells: &mut Items<Option<Cell>>,
    field: usize,
    from: &[Cell],
    place: usize,
) -> Result<(), NoMemory>
    ensures { OnOk result (cells.new ≡ slice_set cells.old field (Some (slice_index_or from.now place Null))) }
{
    if field < cells.len() {
        cells.set(field, Some(copy_at(from, place)?));
    }
    Ok(())
}

/// With the cells of a row's paths.
pub fn know_given(
    cells: &mut Items<Option<Cell>>,
    given: &[Given],
    paths: &[Cell],
) -> Result<(), NoMemory>
    ensures { OnOk result (cells.new ≡ spec.with_given given.now paths.now cells.old) }
{
    for one in given {
        know(cells, one.field, paths, one.place)?;
    }
    Ok(())
}

/// With the cells of the row itself.
pub fn know_own(
    cells: &mut Items<Option<Cell>>,
    fields: &[usize],
    row: &Row,
) -> Result<(), NoMemory>
    ensures { OnOk result (cells.new ≡ spec.with_own fields.now row.now cells.old) }
{
    for field in fields {
        know(cells, *field, row.cells.as_slice(), *field)?;
    }
    Ok(())
}
