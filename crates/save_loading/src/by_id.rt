// Rows that are looked up by their Ids.

ghost use Rattle.std.specs.Prelude.{◌≡◌, ℕ, List, cond, bytes_eq, Some, IfOk, OnOk};
ghost use Rattle.std.specs.Option.{option_copied};
ghost use Rattle.indexmap.specs.IndexMap.{get};
ghost use Rattle.row_meaning.specs.Stores as spec;
ghost use Rattle.save_loading.specs.Places.{HasPlaces};

use apex_list::Items;
use apex_num::{Id, NoMemory};
use apex_rows::Row;
use indexmap::IndexMap;
use std::alloc::{AllocError, Global};
use std::marker::Model;

/// Rows, with their places by their Ids in a hash table; of two with one Id the first one counts.
#[derive(Drop)]
pub struct ById {
    rows: Items<Row>,
    places: IndexMap<[u8; 15], usize>,
}

impl Model for ById {
    ghost use Rattle.std.specs.Prelude.{List};
    ghost use Rattle.apex_rows.specs.declared.row.Row.{Row as TheRow};
    ghost use Rattle.save_loading.specs.Places.{HasPlaces};

    ghost Value = { List TheRow };

    ghost view = { λ b. b.rows };

    ghost invariant = { λ b. HasPlaces b.places b.rows b.rows };
}

// With the place of an Id, instead of one that it had.
fn put(places: &mut IndexMap<[u8; 15], usize>, id: &Id, place: usize) -> Result<(), NoMemory>
    ensures { OnOk result ((other : List ℕ) → get bytes_eq places.new other ≡ cond (bytes_eq id.now other) (Some place) (get bytes_eq places.old other)) }
{
    places.insert(id.bytes(), place).map_err(AllocError::from)?;
    Ok(())
}

// The places of rows by their Ids.
fn places_of(alloc: Global, rows: &[Row]) -> Result<IndexMap<[u8; 15], usize>, NoMemory>
    ensures { IfOk result (λ places. HasPlaces places rows.now rows.now) }
{
    let mut places = IndexMap::new(alloc);
    let mut i = rows.len();
    'back: while i > 0 {
        i -= 1;
        put(&mut places, &rows[i].id, i)?;
    }
    Ok(places)
}

impl ById {
    /// These rows.
    pub fn of(alloc: Global, rows: Items<Row>) -> Result<ById, NoMemory>
        ensures { IfOk result (λ b. b ≡ rows) }
    {
        let places = places_of(alloc, rows.as_slice())?;
        Ok(ById { rows, places })
    }

    /// The row under an Id.
    pub fn find(&self, id: &Id) -> Option<&Row>
        ensures { option_copied result ≡ spec.find self.now id.now }
    {
        match self.places.get(&id.bytes()) {
            Some(place) => self.rows.get(*place),
            None => None,
        }
    }
}
