// All rows of a seed.

ghost use Rattle.std.specs.Prelude.{◌≡◌, ◌≤◌, length, MatchResult};
ghost use Rattle.seed_rows.specs.Rolls.{AreOnlyRows, NoRows};
ghost use Rattle.seed_rows.specs.Rows.{IsOnlySeedRow, NoSeedRow};
ghost use Rattle.seed_rows.specs.Seeds as spec;
ghost use Rattle.seed_rows.specs.Views.{all_as_written, as_written};

use crate::cells::Ground;
use crate::fault::SeedFault;
use crate::keys::row_keys;
use crate::made::Made;
use crate::places::fault_of;
use crate::rolled::with_rollups;
use crate::row::{RowEnd, object_row};
use crate::written::{WrittenRow, written};
use apex_rows::Row;
use bundle_read::SeedEntry;
use fault_words::FaultWord;
use record_words::SchemaPlaces;
use std::alloc::Global;

// One row, in view of those before it.
fn seed_row(
    alloc: Global,
    ground: &Ground,
    places: &SchemaPlaces,
    made: &Made,
    w: &WrittenRow,
) -> Result<Row, RowEnd>
    requires { length places.now.schema.now.users ≤ 1000000 }
    ensures { MatchResult result (IsOnlySeedRow places.now.schema.now (all_as_written ground.now.all.now) made.now.rows.items (as_written w.now)) (NoSeedRow places.now.schema.now (all_as_written ground.now.all.now) made.now.rows.items (as_written w.now)) }
{
    let Some(n) = w.object else {
        return Err(RowEnd::Word(FaultWord::UnknownObject));
    };
    match (places.schema.objects.get(n), places.fields_of(n)) {
        (Some(object), Some(fields)) => {
            object_row(alloc, ground, places.schema, made, w, n, object, fields)
        }
        _ => Err(RowEnd::Word(FaultWord::UnknownObject)),
    }
}

// All rows, their roll-ups null.
fn plain_rows(alloc: Global, ground: &Ground, places: &SchemaPlaces) -> Result<Vec<Row>, SeedFault>
    requires { length places.now.schema.now.users ≤ 1000000 }
    ensures { MatchResult result (λ rows. AreOnlyRows places.now.schema.now (all_as_written ground.now.all.now) rows.items) (NoRows places.now.schema.now (all_as_written ground.now.all.now)) }
{
    let all = ground.all;
    let mut made = Made::new(alloc);
    'rows: for i in 0..all.len() {
        let w = &all[i];
        match seed_row(alloc, ground, places, &made, w) {
            Ok(row) => made = made.with(row)?,
            Err(end) => return Err(fault_of(alloc, places.schema, &all[..i], w, end)),
        }
    }
    Ok(made.rows)
}

// All rows.
fn rows(alloc: Global, ground: &Ground, places: &SchemaPlaces) -> Result<Vec<Row>, SeedFault>
    requires { length places.now.schema.now.users ≤ 1000000 }
    ensures { MatchResult result (λ rows. spec.IsOnlySeed places.now.schema.now (all_as_written ground.now.all.now) rows.items) (spec.NoSeed places.now.schema.now (all_as_written ground.now.all.now)) }
{
    let plain = plain_rows(alloc, ground, places)?;
    with_rollups(alloc, places.schema, ground.all, plain.as_slice())
}

/// The rows of a seed, in the order in which they are written: a row has its Id, its owner is the first user where none
/// is written, and any other cell that isn't written is null. Roll-ups are what they come to over all rows. The fault is
/// the first word of the first row that has one: `UnknownObject`, `UnknownField`, `BadCell` (a text that is too long,
/// too), `BadId` (none, one of another object, one that a session made, or that of a row before it), `Missing`,
/// `UnknownRow` (an owner that is no user, a Lookup or a MasterDetail that names no row of the seed). An entry of an
/// object that there isn't has its fault at row 0, also where it has no rows. Where no row has one, it is `BadCell` of
/// the first row that has a roll-up out of range.
pub fn seed_rows(
    alloc: Global,
    places: &SchemaPlaces,
    entries: &[SeedEntry],
) -> Result<Vec<Row>, SeedFault>
    requires { length places.now.schema.now.users ≤ 1000000 }
    ensures { MatchResult result (λ rows. spec.IsOnlySeed places.now.schema.now (spec.all_written places.now.schema.now entries.now) rows.items) (spec.NoSeed places.now.schema.now (spec.all_written places.now.schema.now entries.now)) }
{
    let all = written(alloc, places, entries)?;
    let keys = row_keys(alloc, all.as_slice())?;
    let ground = Ground {
        all: all.as_slice(),
        keys,
    };
    rows(alloc, &ground, places)
}
