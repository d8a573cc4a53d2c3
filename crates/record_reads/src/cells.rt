// Cells of records.

ghost use Rattle.std.specs.Prelude.{◌≡◌, slice_index_or, None, IfOk};
ghost use Rattle.std.specs.Option.{option_copied};
ghost use Rattle.apex_meaning.specs.Records as spec;

use crate::words::{field_name, unasked};
use apex_num::{Cell, NoMemory};
use apex_schema::Schema;
use platform_errors::Thrown;
use std::alloc::Global;
use txn_heap::{Heap, Record, Thing, Value};
use value_operators::Calculated;

/// A null in front of a path.
pub(crate) fn null_in_front(goes_on: bool) -> Calculated
    ensures { result ≡ spec.null_in_front goes_on }
{
    if goes_on {
        Calculated::Val(Value::Plain(Cell::Null))
    } else {
        Calculated::Fails(Thrown::NullObject)
    }
}

// What is read where the record doesn't know the cell.
fn unknown(
    alloc: Global,
    schema: &Schema,
    field: usize,
    known: &Record,
) -> Result<Calculated, NoMemory>
    ensures { IfOk result (λ c. c ≡ spec.cell_known schema.now None field known.now) }
{
    match &known.selected {
        None => Ok(Calculated::Val(Value::Plain(Cell::Null))),
        Some(_) => {
            let word = field_name(alloc, schema, known.object, field)?;
            unasked(alloc, schema, known.object, word)
        }
    }
}

// The cell that a record knows.
fn cell_at(known: &Record, field: usize) -> Result<Option<Cell>, NoMemory>
    ensures { IfOk result (λ cell. cell ≡ slice_index_or known.now.cells field None) }
{
    if field >= known.cells.len() {
        return Ok(None);
    }
    match &known.cells.as_slice()[field] {
        Some(cell) => Ok(Some(cell.copy()?)),
        None => Ok(None),
    }
}

fn of_record(
    alloc: Global,
    schema: &Schema,
    field: usize,
    known: &Record,
) -> Result<Calculated, NoMemory>
    ensures { IfOk result (λ c. c ≡ spec.cell_known schema.now (slice_index_or known.now.cells field None) field known.now) }
{
    match cell_at(known, field)? {
        Some(cell) => Ok(Calculated::Val(Value::Plain(cell))),
        None => unknown(alloc, schema, field, known),
    }
}

fn of_thing(
    alloc: Global,
    schema: &Schema,
    field: usize,
    thing: Option<&Thing>,
) -> Result<Calculated, NoMemory>
    ensures { IfOk result (λ c. c ≡ spec.of_record (λ r. spec.cell_known schema.now (slice_index_or r.cells field None) field r) (option_copied thing.entry)) }
{
    match thing {
        Some(Thing::Record(known)) => of_record(alloc, schema, field, known),
        _ => Ok(Calculated::Fails(Thrown::NullObject)),
    }
}

/// A cell of the record that a value names. Where the mark says so, a null in its place gives null.
pub fn cell_in(
    alloc: Global,
    schema: &Schema,
    field: usize,
    goes_on: bool,
    on: &Value,
    heap: &Heap,
) -> Result<Calculated, NoMemory>
    ensures { IfOk result (λ c. c ≡ spec.cell_in schema.now field goes_on on.now heap.now) }
{
    match on {
        Value::Plain(_) => Ok(null_in_front(goes_on)),
        Value::Object(thing) => of_thing(alloc, schema, field, heap.get(*thing)),
    }
}
