// What a trigger sees.

ghost use Rattle.std.specs.Prelude.{◌≡◌, ◌∷◌, ◌++◌, List, IfOk, OnOk};
ghost use Rattle.save_statements.specs.Firings as spec;
ghost use Rattle.save_statements.specs.declared.pending.Act.TheVariants.{Deleting};
ghost use Rattle.save_statements.specs.declared.firing.Entry.{Entry as AnEntry};

use apex_list::Items;
use apex_num::NoMemory;
use apex_requests::{Context, Op};
use apex_rows::Row;
use save_statements::{Act, Entry};
use std::alloc::Global;

// With a copy of the row of a record that is inside.
fn add_row(rows: &mut Items<Row>, entry: &Entry) -> Result<(), NoMemory>
    ensures { OnOk result ((es : List AnEntry) → rows.new ++ spec.rows_in es ≡ rows.old ++ spec.rows_in (entry.now ∷ es)) }
{
    match entry {
        Entry::Inside(pending, _) => rows.push(pending.get().row.copy()?),
        Entry::Outside(_) => Ok(()),
    }
}

// The rows of the records that are inside.
fn rows_in(alloc: Global, entries: &[Entry]) -> Result<Items<Row>, NoMemory>
    ensures { IfOk result (λ rows. rows ≡ spec.rows_in entries.now) }
{
    let mut rows = Items::new(alloc);
    for entry in entries {
        add_row(&mut rows, entry)?;
    }
    Ok(rows)
}

// With a copy of the row, where there is one.
fn add_some(rows: &mut Items<Row>, row: &Option<Row>) -> Result<(), NoMemory>
    ensures { OnOk result (rows.new ≡ rows.old ++ spec.old_row row.now) }
{
    match row {
        Some(row) => rows.push(row.copy()?),
        None => Ok(()),
    }
}

// With a copy of what the row of a record that is inside was.
fn add_old(rows: &mut Items<Row>, entry: &Entry) -> Result<(), NoMemory>
    ensures { OnOk result ((es : List AnEntry) → rows.new ++ spec.olds_in es ≡ rows.old ++ spec.olds_in (entry.now ∷ es)) }
{
    match entry {
        Entry::Inside(pending, _) => add_some(rows, &pending.get().old),
        Entry::Outside(_) => Ok(()),
    }
}

// What the rows of the records that are inside were.
fn olds_in(alloc: Global, entries: &[Entry]) -> Result<Items<Row>, NoMemory>
    ensures { IfOk result (λ rows. rows ≡ spec.olds_in entries.now) }
{
    let mut rows = Items::new(alloc);
    for entry in entries {
        add_old(&mut rows, entry)?;
    }
    Ok(rows)
}

// What a trigger of an insert or an update sees.
fn saved(alloc: Global, op: Op, before: bool, entries: &[Entry]) -> Result<Context, NoMemory>
    ensures { IfOk result (λ c. c ≡ record { op = op; before = before; news = spec.rows_in entries.now; olds = spec.olds_in entries.now }) }
{
    let news = rows_in(alloc, entries)?;
    let olds = olds_in(alloc, entries)?;
    Ok(Context {
        op,
        before,
        news,
        olds,
    })
}

// What a trigger of a delete sees.
fn deleted(alloc: Global, before: bool, entries: &[Entry]) -> Result<Context, NoMemory>
    ensures { IfOk result (λ c. c ≡ spec.context Deleting before entries.now) }
{
    let news = Items::new(alloc);
    let olds = rows_in(alloc, entries)?;
    Ok(Context {
        op: Op::Delete,
        before,
        news,
        olds,
    })
}

/// What a trigger sees, before or behind the write: copies of the rows of the records that are inside.
pub fn context(
    alloc: Global,
    act: Act,
    before: bool,
    entries: &[Entry],
) -> Result<Context, NoMemory>
    ensures { IfOk result (λ c. c ≡ spec.context act before entries.now) }
{
    match act {
        Act::Inserting => saved(alloc, Op::Insert, before, entries),
        Act::Updating => saved(alloc, Op::Update, before, entries),
        Act::Deleting => deleted(alloc, before, entries),
    }
}
