// The rows of a seed as they are written.

ghost use Rattle.std.specs.Prelude.{◌≡◌, ◌++◌, ◌∷◌, [], map, None, Some, IfOk, OnOk};
ghost use Rattle.record_words.specs.Names.{object_names};
ghost use Rattle.seed_rows.specs.Views.{as_written};
ghost use Rattle.seed_rows.specs.Written as spec;

use apex_num::{NoMemory, Text};
use bundle_read::{CellEntry, SeedEntry};
use record_words::SchemaPlaces;
use std::alloc::Global;

/// A row as it is written.
#[derive(Drop)]
pub struct WrittenRow<'a> {
    /// The number of its object; none where there isn't one of that name.
    pub object: Option<usize>,
    /// The name of its object.
    pub name: &'a Text,
    pub cells: &'a [CellEntry],
}

// With the rows of an entry of this object.
fn push_rows<'a>(
    all: &mut Vec<WrittenRow<'a>>,
    object: usize,
    entry: &'a SeedEntry,
) -> Result<(), NoMemory>
    ensures { OnOk result (map as_written all.new.items ≡ map as_written all.old.items ++ spec.rows_of entry.now.object (Some object) entry.now.rows) }
{
    for row in entry.rows.as_slice() {
        all.push(WrittenRow {
            object: Some(object),
            name: &entry.object,
            cells: row.cells.as_slice(),
        })?;
    }
    Ok(())
}

// With the one that stands for an entry whose object there isn't.
fn push_stranger<'a>(all: &mut Vec<WrittenRow<'a>>, entry: &'a SeedEntry) -> Result<(), NoMemory>
    ensures { OnOk result (map as_written all.new.items ≡ map as_written all.old.items ++ spec.rows_of entry.now.object None entry.now.rows) }
{
    Ok(all.push(WrittenRow {
        object: None,
        name: &entry.object,
        cells: &[],
    })?)
}

fn push_entry<'a>(
    alloc: Global,
    all: &mut Vec<WrittenRow<'a>>,
    places: &SchemaPlaces,
    entry: &'a SeedEntry,
) -> Result<(), NoMemory>
    ensures { OnOk result (map as_written all.new.items ≡ map as_written all.old.items ++ spec.entry_rows (object_names places.now.schema.now.objects) entry.now) }
{
    match places.object(alloc, &entry.object)? {
        Some(object) => push_rows(all, object, entry),
        None => push_stranger(all, entry),
    }
}

/// All rows of these entries, of the objects of a schema.
pub fn written<'a>(
    alloc: Global,
    places: &SchemaPlaces,
    entries: &'a [SeedEntry],
) -> Result<Vec<WrittenRow<'a>>, NoMemory>
    ensures { IfOk result (λ all. map as_written all.items ≡ spec.written (object_names places.now.schema.now.objects) entries.now) }
{
    let mut all = Vec::new(alloc);
    for entry in entries {
        push_entry(alloc, &mut all, places, entry)?;
    }
    Ok(all)
}
