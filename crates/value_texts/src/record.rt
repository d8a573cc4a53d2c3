// The text of a record.

ghost use Rattle.std.specs.Prelude.{◌≡◌, ◌++◌, codes};
ghost use Rattle.value_texts.specs.Pieces.{Tells, piece, still_first};
ghost use Rattle.value_texts.specs.Texts as spec;

use crate::line::{Line, TextEnd, push, push_cell, push_comma};
use apex_num::Cell;
use apex_schema::{Field, Schema};
use std::alloc::Global;
use txn_heap::Record;

// A field with its cell.
fn push_pair(alloc: Global, field: &Field, cell: &Cell, line: &mut Line) -> Result<(), TextEnd>
    ensures { Tells (spec.pair_text (field.now.name, cell.now)) line.old line.new result }
{
    push(field.name.as_str(), line)?;
    push("=", line)?;
    push_cell(alloc, cell, line)
}

// A field with its cell, where that is known.
fn push_known(
    alloc: Global,
    field: &Field,
    cell: &Option<Cell>,
    first: bool,
    line: &mut Line,
) -> Result<(), TextEnd>
    ensures { Tells (piece first field.now cell.now) line.old line.new result }
{
    match cell {
        None => Ok(()),
        Some(cell) => {
            push_comma(first, line)?;
            push_pair(alloc, field, cell, line)
        }
    }
}

// Whether none stands before what comes behind a cell.
fn still(first: bool, cell: &Option<Cell>) -> bool
    ensures { result ≡ still_first first cell.now }
{
    match cell {
        None => first,
        Some(_) => false,
    }
}

// The cells that are known, with a comma between each two.
fn push_pairs(
    alloc: Global,
    fields: &[Field],
    cells: &[Option<Cell>],
    line: &mut Line,
) -> Result<(), TextEnd>
    ensures { Tells (spec.listed (spec.pair_texts (spec.known_cells fields.now cells.now))) line.old line.new result }
{
    let mut first = true;
    for i in 0..fields.len() {
        let Some(cell) = cells.get(i) else {
            return Ok(());
        };
        push_known(alloc, &fields[i], cell, first, line)?;
        first = still(first, cell);
    }
    Ok(())
}

// A name, and cells in braces.
fn push_named(
    alloc: Global,
    name: &str,
    fields: &[Field],
    cells: &[Option<Cell>],
    line: &mut Line,
) -> Result<(), TextEnd>
    ensures { Tells (name.now ++ codes ":{" ++ spec.listed (spec.pair_texts (spec.known_cells fields.now cells.now)) ++ codes "}") line.old line.new result }
{
    push(name, line)?;
    push(":{", line)?;
    push_pairs(alloc, fields, cells, line)?;
    push("}", line)
}

pub(crate) fn push_record(
    alloc: Global,
    schema: &Schema,
    known: &Record,
    line: &mut Line,
) -> Result<(), TextEnd>
    ensures { Tells (spec.record_text schema.now known.now) line.old line.new result }
{
    match schema.objects.get(known.object) {
        None => Ok(()),
        Some(object) => push_named(
            alloc,
            object.name.as_str(),
            object.fields.as_slice(),
            known.cells.as_slice(),
            line,
        ),
    }
}
