// The records that enter a phase of triggers, and those that come back.

ghost use Rattle.std.specs.Prelude.{◌≡◌, IfOk};
ghost use Rattle.save_statements.specs.Firings as spec;
ghost use Rattle.save_statements.specs.Records.{judged_by};
ghost use Rattle.save_firings.specs.Steps.{entered, left_behind};

use apex_list::{Boxed, Items};
use apex_num::NoMemory;
use platform_errors::RecordError;
use save_statements::{Entry, Pending, Record};
use std::alloc::Global;

fn enter_one(one: Record) -> Entry
    ensures { result ≡ entered one }
{
    match one {
        Record::Going(pending) => Entry::Inside(pending, None),
        Record::Wrong(error) => Entry::Outside(error),
    }
}

/// The records as they enter a phase: those that go on are inside, with no error yet.
pub fn enter(alloc: Global, records: Items<Record>) -> Result<Items<Entry>, NoMemory>
    ensures { IfOk result (λ entries. entries ≡ spec.entries records) }
{
    let mut entries = Items::new(alloc);
    for record in records.into_vec() {
        entries.push(enter_one(record))?;
    }
    Ok(entries)
}

// A record goes on, or has an error.
fn judged(pending: Boxed<Pending>, error: Option<RecordError>) -> Record
    ensures { result ≡ judged_by pending error }
{
    match error {
        None => Record::Going(pending),
        Some(error) => Record::Wrong(error),
    }
}

fn back_one(entry: Entry) -> Record
    ensures { result ≡ left_behind entry }
{
    match entry {
        Entry::Inside(pending, error) => judged(pending, error),
        Entry::Outside(error) => Record::Wrong(error),
    }
}

/// The records behind the phase: one with an error goes on no more.
pub fn back(alloc: Global, entries: Items<Entry>) -> Result<Items<Record>, NoMemory>
    ensures { IfOk result (λ records. records ≡ spec.back entries) }
{
    let mut records = Items::new(alloc);
    for entry in entries.into_vec() {
        records.push(back_one(entry))?;
    }
    Ok(records)
}
