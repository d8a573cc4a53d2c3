// Records with all that goes with them, and records that can't go.

ghost use Rattle.std.specs.Prelude.{◌≡◌, ◌++◌, bytes_eq, map, IfOk};
ghost use Rattle.indexmap.specs.IndexSet.{contains};
ghost use Rattle.save_meaning.specs.Inserts.{ids_of};
ghost use Rattle.save_statements.specs.Checks.{joined, referenced, with_under};
ghost use Rattle.save_statements.specs.Records.{changed_to, going, judged, rows_of};
ghost use Rattle.delete_cascades.specs.Held as spec;

use crate::held::{gone_ids, held_ids, is_one_held};
use crate::level::{Level, all_below, levels_of};
use apex_list::{Boxed, Items};
use apex_num::{Id, NoMemory};
use apex_rows::Row;
use indexmap::IndexSet;
use platform_errors::RecordError;
use save_statements::{Naming, Pending, Record};
use std::alloc::Global;

// A row on its way, with these Ids under it.
fn with_ids(
    alloc: Global,
    pending: Boxed<Pending>,
    under: Items<Id>,
) -> Result<Boxed<Pending>, NoMemory>
    ensures { IfOk result (λ p. p ≡ record pending { under = under }) }
{
    let Pending {
        row,
        old,
        seen,
        under: _,
    } = pending.into_value();
    Boxed::new(
        alloc,
        Pending {
            row,
            old,
            seen,
            under,
        },
    )
}

// A record that goes on, with all that goes with it, where none of that is held.
fn settled_one(
    alloc: Global,
    levels: &[Level],
    held: &IndexSet<[u8; 15]>,
    pending: Boxed<Pending>,
) -> Result<Record, NoMemory>
    ensures { IfOk result (λ r. r ≡ spec.settled_one levels.now (contains bytes_eq held.now) pending) }
{
    let under = all_below(alloc, levels, pending.get().row.id)?;
    if is_one_held(held, under.as_slice()) {
        return Ok(Record::Wrong(RecordError::Referenced));
    }
    Ok(Record::Going(with_ids(alloc, pending, under)?))
}

// A record, settled where it goes on.
fn settled_record(
    alloc: Global,
    levels: &[Level],
    held: &IndexSet<[u8; 15]>,
    one: Record,
) -> Result<Record, NoMemory>
    ensures { IfOk result (λ r. r ≡ spec.settled_record levels.now (contains bytes_eq held.now) one) }
{
    match one {
        Record::Going(pending) => settled_one(alloc, levels, held, pending),
        Record::Wrong(error) => Ok(Record::Wrong(error)),
    }
}

fn settle_all(
    alloc: Global,
    levels: &[Level],
    held: &IndexSet<[u8; 15]>,
    records: Items<Record>,
) -> Result<Items<Record>, NoMemory>
    ensures { IfOk result (λ rs. rs ≡ map (spec.settled_record levels.now (contains bytes_eq held.now)) records) }
{
    let mut all = Items::new(alloc);
    for one in records.into_vec() {
        all.push(settled_record(alloc, levels, held, one)?)?;
    }
    Ok(all)
}

/// The records of a delete, where these levels go with them and these rows name what goes: each with all that goes with it, or
/// wrong where a row that stays names some of that. It looks each row up once, and each Id that goes once for each record.
pub fn settle(
    alloc: Global,
    masters: &[Naming],
    levels: Items<Items<Row>>,
    found: &[(Naming, Items<Row>)],
    records: Items<Record>,
) -> Result<Items<Record>, NoMemory>
    ensures { IfOk result (λ rs. rs ≡ judged (referenced found.now (ids_of (rows_of (going records) ++ joined levels))) (changed_to (with_under masters.now levels) records)) }
{
    let gone = gone_ids(alloc, records.as_slice(), levels.as_slice())?;
    let held = held_ids(alloc, &gone, found)?;
    let levels = levels_of(alloc, masters, levels)?;
    settle_all(alloc, levels.as_slice(), &held, records)
}
