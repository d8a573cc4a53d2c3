// The cells of written rows.

ghost use Rattle.std.specs.Prelude.{◌≡◌, ◌<◌, length, map, replicate, None, Some, slice_get, IfOk, MatchResult, MatchOption};
ghost use Rattle.apex_schema.specs.declared.schema.Field.{Field as Field'};
ghost use Rattle.formula_rules.specs.Grammar.{field_names};
ghost use Rattle.row_cells.specs.Rows as spec;

use crate::cells::cell_of;
use apex_list::Items;
use apex_num::{Cell, NoMemory};
use apex_schema::{Field, FieldKind};
use apex_text::Name;
use bundle_read::CellEntry;
use schema_names::Places;
use std::alloc::{AllocError, Global};
use thiserror::Error;

/// Why a row has no cells.
#[derive(Clone, Copy, Debug, PartialEq, Eq, Drop, Error)]
pub enum RowFault {
    /// A key is the name of no field, or of a roll-up.
    #[error("UnknownField")]
    UnknownField,
    /// Each key is the name of a field, and a value is no cell of its field, or two keys name one field.
    #[error("BadCell")]
    BadCell,
    /// Memory was refused.
    #[error("no memory")]
    NoMemory,
}

impl From<AllocError> for RowFault {
    ghost use Rattle.std.specs.Prelude.{◌≡◌};
    ghost use Rattle.row_cells.specs.declared.rows.RowFault.TheVariants.{NoMemory};

    ghost from_gives = { λ _ e. e ≡ NoMemory };

    fn from(_: AllocError) -> RowFault {
        RowFault::NoMemory
    }
}

fn if_written(n: usize, kind: &FieldKind) -> Option<usize>
    ensures { result ≡ spec.if_written n kind.now }
{
    match kind {
        FieldKind::Rollup(_) => None,
        _ => Some(n),
    }
}

// The field that an entry names.
fn field_at(
    alloc: Global,
    places: &Places,
    fields: &[Field],
    entry: &CellEntry,
) -> Result<Option<usize>, NoMemory>
    requires { places.now.names.items ≡ field_names fields.now }
    ensures { IfOk result (λ n. n ≡ spec.field_at fields.now entry.now) }
{
    let name = Name::of(alloc, entry.name.bytes())?;
    match places.place(&name) {
        Some(n) => match fields.get(n) {
            Some(field) => Ok(if_written(n, &field.kind)),
            None => Ok(None),
        },
        None => Ok(None),
    }
}

// The fields that the entries name.
fn numbers(
    alloc: Global,
    places: &Places,
    fields: &[Field],
    entries: &[CellEntry],
) -> Result<Items<usize>, RowFault>
    requires { places.now.names.items ≡ field_names fields.now }
    ensures { MatchResult result (λ numbers. map (spec.field_at fields.now) entries.now ≡ map Some numbers) (spec.NotNumbered fields.now entries.now) }
{
    let mut numbers = Items::new(alloc);
    'entries: for i in 0..entries.len() {
        match field_at(alloc, places, fields, &entries[i])? {
            Some(n) => numbers.push(n)?,
            None => return Err(RowFault::UnknownField),
        }
    }
    Ok(numbers)
}

// So many places, at each of which nothing is known.
fn nothing(alloc: Global, count: usize) -> Result<Vec<Option<Cell>>, NoMemory>
    ensures { IfOk result (λ cells. cells.items ≡ replicate count None) }
{
    let mut cells = Vec::new(alloc);
    for _ in 0..count {
        cells.push(None)?;
    }
    Ok(cells)
}

// The cell that an entry puts at a place.
fn new_cell(
    fields: &[Field],
    cells: &[Option<Cell>],
    entry: &CellEntry,
    n: usize,
) -> Result<Cell, RowFault>
    ensures { MatchResult result (spec.IsOnlyPut fields.now cells.now entry.now n) (spec.NoPut fields.now cells.now entry.now n) }
{
    let (Some(field), Some(None)) = (fields.get(n), cells.get(n)) else {
        return Err(RowFault::BadCell);
    };
    match cell_of(&field.kind, &entry.value)? {
        Some(cell) => Ok(cell),
        None => Err(RowFault::BadCell),
    }
}

// The cells of entries whose fields are these.
fn cells(
    alloc: Global,
    fields: &[Field],
    entries: &[CellEntry],
    numbers: &[usize],
) -> Result<Vec<Option<Cell>>, RowFault>
    requires { map (spec.field_at fields.now) entries.now ≡ map Some numbers.now }
    ensures { MatchResult result (λ cells. spec.IsOnlyRow fields.now entries.now cells.items) (spec.NoRow fields.now entries.now) }
{
    let mut cells = nothing(alloc, fields.len())?;
    'entries: for i in 0..entries.len() {
        let cell = new_cell(fields, cells.as_slice(), &entries[i], numbers[i])?;
        cells[numbers[i]] = Some(cell);
    }
    Ok(cells)
}

/// The cells that a row of these entries knows, a place for each field of its object, `None` where none names it.
/// `places` are those of the fields' names, as `formula_rules::field_places` makes them. `UnknownField` comes before `BadCell`, whichever key has it.
pub fn row_of(
    alloc: Global,
    places: &Places,
    fields: &[Field],
    entries: &[CellEntry],
) -> Result<Vec<Option<Cell>>, RowFault>
    requires { places.now.names.items ≡ field_names fields.now }
    ensures { MatchResult result (λ cells. spec.IsOnlyRow fields.now entries.now cells.items) (spec.IsRowFault fields.now entries.now) }
{
    let numbers = numbers(alloc, places, fields, entries)?;
    cells(alloc, fields, entries, numbers.as_slice())
}
