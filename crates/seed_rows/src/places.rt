// Faults of rows at their places.

ghost use Rattle.std.specs.Prelude.{◌≡◌, ◌<◌, ◌++◌, length, codes, IfOk};
ghost use Rattle.std.specs.Fmt.{decimal};
ghost use Rattle.std.specs.List.{count_by};
ghost use Rattle.std.specs.Option.{option_copied};
ghost use Rattle.row_cells.specs.Rows.{is_number};
ghost use Rattle.seed_rows.specs.Rolls.{IsOutAt};
ghost use Rattle.seed_rows.specs.Rows.{FaultAt};
ghost use Rattle.seed_rows.specs.Seeds as spec;
ghost use Rattle.seed_rows.specs.Written.{Written as Written'};
ghost use Rattle.seed_rows.specs.Views.{all_as_written, as_written};

use crate::fault::SeedFault;
use crate::row::RowEnd;
use crate::written::WrittenRow;
use apex_num::{NoMemory, Text};
use apex_schema::{Object, Schema};
use fault_words::{Fault, FaultWord};
use std::alloc::Global;

// The object with this number.
fn object_of<'b>(schema: &'b Schema, number: Option<usize>) -> Option<&'b Object>
    ensures { option_copied result ≡ spec.object_at schema.now number }
{
    match number {
        Some(n) => schema.objects.get(n),
        None => None,
    }
}

// How many of these rows are of the object.
fn count_of(rows: &[WrittenRow], object: usize) -> usize
    ensures value { result ≡ count_by (λ (v : Written'). is_number object v.object) (all_as_written rows.now) }
{
    let mut count = 0;
    for row in rows {
        if row.object == Some(object) {
            count += 1;
        }
    }
    count
}

// The number of a row among those of its object.
fn row_number(before: &[WrittenRow], object: Option<usize>) -> usize
    ensures { result ≡ spec.row_number (all_as_written before.now) object }
{
    match object {
        Some(object) => count_of(before, object),
        None => 0,
    }
}

fn shown(alloc: Global, name: &str, number: usize) -> Result<Text, NoMemory>
    ensures { IfOk result (λ t. t ≡ codes "seed " ++ (name.now ++ (codes " " ++ decimal number))) }
{
    let place = format!(in alloc; "seed {name} {number}")?;
    Text::from_string(alloc, place)
}

// The place of a row behind these.
fn place_of(
    alloc: Global,
    schema: &Schema,
    before: &[WrittenRow],
    w: &WrittenRow,
) -> Result<Text, NoMemory>
    ensures { IfOk result (λ t. t ≡ spec.place_of_row schema.now (all_as_written before.now) (as_written w.now)) }
{
    let number = row_number(before, w.object);
    match object_of(schema, w.object) {
        Some(object) => shown(alloc, object.name.as_str(), number),
        None => shown(alloc, w.name.as_str(), number),
    }
}

/// The fault of a row behind these.
pub fn fault_of(
    alloc: Global,
    schema: &Schema,
    before: &[WrittenRow],
    w: &WrittenRow,
    end: RowEnd,
) -> SeedFault
    ensures { FaultAt (spec.place_of_row schema.now (all_as_written before.now) (as_written w.now)) end result }
{
    let RowEnd::Word(word) = end else {
        return SeedFault::NoMemory;
    };
    match place_of(alloc, schema, before, w) {
        Ok(place) => SeedFault::Wrong(Fault { place, word }),
        Err(_) => SeedFault::NoMemory,
    }
}

/// The fault of the row with this number, one of whose roll-ups is out of range.
pub fn out_of_range(alloc: Global, schema: &Schema, all: &[WrittenRow], n: usize) -> SeedFault
    requires { n < length all.now }
    ensures { IsOutAt schema.now (all_as_written all.now) n result }
{
    fault_of(
        alloc,
        schema,
        &all[..n],
        &all[n],
        RowEnd::Word(FaultWord::BadCell),
    )
}
