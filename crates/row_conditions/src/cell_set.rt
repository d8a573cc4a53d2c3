// Values that are looked up by hash.

ghost use Rattle.std.specs.Prelude.{◌≡◌, ◌||◌, [], IfOk, OnOk};
ghost use Rattle.indexmap.specs.IndexSet.{contains};
ghost use Rattle.apex_num.specs.declared.cell.Cell.{Cell as TheCell};
ghost use Rattle.row_meaning.specs.Cells.{same_cell};
ghost use Rattle.row_conditions.specs.Keys as spec;

use apex_num::{Cell, NoMemory, Text};
use indexmap::IndexSet;
use std::alloc::{AllocError, Global};
use std::marker::Model;

/// Values that are looked up by hash. Contracts see their keys, of which those of texts have small letters.
#[derive(Drop)]
pub struct CellSet {
    set: IndexSet<Cell>,
}

impl Model for CellSet {
    ghost use Rattle.std.specs.Prelude.{List};
    ghost use Rattle.apex_num.specs.declared.cell.Cell.{Cell};

    ghost Value = { List Cell };

    ghost view = { λ s. s.set.keys };
}

// The key of a text.
fn text_key(alloc: Global, text: &Text) -> Result<Cell, NoMemory>
    ensures { IfOk result (λ key. key ≡ spec.key_of (TheCell.Text text.now)) }
{
    let small = text.as_str().to_ascii_lowercase(alloc)?;
    Ok(Cell::Text(Text::from_string(alloc, small)?))
}

// The key of a value.
fn key_of(alloc: Global, cell: &Cell) -> Result<Cell, NoMemory>
    ensures { IfOk result (λ key. key ≡ spec.key_of cell.now) }
{
    match cell {
        Cell::Text(text) => text_key(alloc, text),
        _ => cell.copy(),
    }
}

// With a key.
fn put(set: &mut IndexSet<Cell>, key: Cell) -> Result<(), NoMemory>
    ensures { OnOk result ((k : TheCell) → contains spec.key_eq set.new k ≡ (contains spec.key_eq set.old k || spec.key_eq key k)) }
{
    set.insert(key).map_err(AllocError::from)?;
    Ok(())
}

impl CellSet {
    /// No values; takes no memory.
    pub fn new(alloc: Global) -> CellSet
        ensures { result ≡ [] }
    {
        CellSet {
            set: IndexSet::new(alloc),
        }
    }

    /// With a value.
    pub fn add(&mut self, alloc: Global, cell: &Cell) -> Result<(), NoMemory>
        ensures { OnOk result ((c : TheCell) → spec.has self.new c ≡ (spec.has self.old c || same_cell c cell.now)) }
    {
        let key = key_of(alloc, cell)?;
        put(&mut self.set, key)?;
        Ok(())
    }

    /// Whether a value is the same as one of these.
    pub fn has(&self, alloc: Global, cell: &Cell) -> Result<bool, NoMemory>
        ensures { IfOk result (λ found. found ≡ spec.has self.now cell.now) }
    {
        let key = key_of(alloc, cell)?;
        Ok(self.set.contains(&key))
    }
}
