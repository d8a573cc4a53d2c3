// Records of rows.

ghost use Rattle.std.specs.Prelude.{◌≡◌, slice_get, MatchResult};
ghost use Rattle.std.specs.Option.{option_copied};
ghost use Rattle.formula_rules.specs.Grammar.{field_names};
ghost use Rattle.save_requests.specs.Saves as spec;

use apex_list::Items;
use apex_num::{Cell, Id};
use apex_requests::SaveRow;
use apex_schema::Field;
use bundle_read::RowEntry;
use fault_words::FaultWord;
use row_cells::{RowFault, row_of};
use schema_names::Places;
use std::alloc::{AllocError, Global};

/// Why rows are no records.
#[derive(Clone, Copy, PartialEq, Eq, Drop)]
pub enum RecordsEnd {
    /// The number of the first row that something is wrong with, and what it is.
    At(usize, FaultWord),
    NoMemory,
}

impl From<AllocError> for RecordsEnd {
    ghost use Rattle.std.specs.Prelude.{◌≡◌};
    ghost use Rattle.save_requests.specs.declared.records.RecordsEnd.TheVariants.{NoMemory};

    ghost from_gives = { λ _ e. e ≡ NoMemory };

    fn from(_: AllocError) -> RecordsEnd {
        RecordsEnd::NoMemory
    }
}

// The Id of a record that knows it.
fn id_of(cell: Option<&Option<Cell>>) -> Option<Id>
    ensures { result ≡ spec.id_of (option_copied cell.entry) }
{
    match cell {
        Some(Some(Cell::Id(id))) => Some(*id),
        _ => None,
    }
}

fn end_at(row: usize, fault: RowFault) -> RecordsEnd
    ensures { result ≡ spec.end_at row fault }
{
    match fault {
        RowFault::UnknownField => RecordsEnd::At(row, FaultWord::UnknownField),
        RowFault::BadCell => RecordsEnd::At(row, FaultWord::BadCell),
        RowFault::NoMemory => RecordsEnd::NoMemory,
    }
}

// The record that the row with this number is.
fn record(
    alloc: Global,
    places: &Places,
    fields: &[Field],
    number: usize,
    row: &RowEntry,
) -> Result<SaveRow, RecordsEnd>
    requires { places.now.names.items ≡ field_names fields.now }
    ensures { MatchResult result (spec.IsOnlyRecord fields.now number row.now) (spec.NoRecord fields.now number row.now) }
{
    match row_of(alloc, places, fields, row.cells.as_slice()) {
        Ok(cells) => Ok(SaveRow {
            key: number,
            id: id_of(cells.get(0)),
            cells: Items::of(cells),
        }),
        Err(fault) => Err(end_at(number, fault)),
    }
}

/// The records that rows are, each with its number as its key.
pub fn records(
    alloc: Global,
    places: &Places,
    fields: &[Field],
    rows: &[RowEntry],
) -> Result<Items<SaveRow>, RecordsEnd>
    requires { places.now.names.items ≡ field_names fields.now }
    ensures { MatchResult result (spec.OnlyRecords fields.now rows.now) (spec.NoRecords fields.now rows.now) }
{
    let mut all = Items::new(alloc);
    'rows: for i in 0..rows.len() {
        all.push(record(alloc, places, fields, i, &rows[i])?)?;
    }
    Ok(all)
}
