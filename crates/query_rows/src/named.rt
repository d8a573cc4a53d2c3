// Ids that paths name.

ghost use Rattle.std.specs.Prelude.{◌≡◌, [], IfOk, OnOk};
ghost use Rattle.save_meaning.specs.Drafts as spec;
ghost use Rattle.query_rows.specs.Names.{named_over};

use crate::reader::Reader;
use apex_num::{Cell, Id, NoMemory};
use apex_rows::{Path, Row};
use std::alloc::{AllocError, Global};
use std::collections::BTreeSet;
use txn_overlay::Overlay;

// With an Id, in its place.
fn add(ids: &mut BTreeSet<Id>, id: Id) -> Result<(), NoMemory>
    ensures { OnOk result (ids.new.keys ≡ spec.with_id id ids.old.keys) }
{
    match ids.insert(id) {
        Ok(_) => Ok(()),
        Err(_) => Err(AllocError),
    }
}

// With the Id that a value is, where it is one.
fn add_value(ids: &mut BTreeSet<Id>, cell: &Cell) -> Result<(), NoMemory>
    ensures { OnOk result (ids.new.keys ≡ spec.with_ids (spec.id_in cell.now) ids.old.keys) }
{
    match cell {
        Cell::Id(id) => add(ids, *id),
        _ => Ok(()),
    }
}

// The Ids that a path names over rows, rising, each once.
fn named(
    alloc: Global,
    reader: &Reader<'_>,
    path: &Path,
    rows: &[Row],
) -> Result<BTreeSet<Id>, NoMemory>
    ensures { IfOk result (λ ids. ids.keys ≡ spec.with_ids (named_over reader.now path.now rows.now) []) }
{
    let null = Cell::Null;
    let mut ids = BTreeSet::new(alloc);
    for row in rows {
        add_value(&mut ids, reader.value(row, path, &null))?;
    }
    Ok(ids)
}

/// The Ids that a path names over rows and that a transaction didn't touch, rising, each once.
pub fn wanted(
    alloc: Global,
    reader: &Reader<'_>,
    overlay: &Overlay,
    path: &Path,
    rows: &[Row],
) -> Result<Vec<Id>, NoMemory>
    ensures { IfOk result (λ ids. ids.items ≡ spec.untouched overlay.now (spec.with_ids (named_over reader.now path.now rows.now) [])) }
{
    let mut ids = Vec::new(alloc);
    for id in named(alloc, reader, path, rows)? {
        if !overlay.touched(&id) {
            ids.push(id)?;
        }
    }
    Ok(ids)
}
