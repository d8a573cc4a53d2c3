// Rows of a level by the rows that they name.

ghost use Rattle.std.specs.Prelude.{◌≡◌, ◌&&◌, ◌||◌, ◌∷◌, ◌++◌, [], ℕ, List, Bool, Some, eqb, cond, bytes_eq, slice_get, IfOk, OnOk};
ghost use Rattle.std.specs.Map.{values_of};
ghost use Rattle.save_statements.specs.Records.{named_by};
ghost use Rattle.delete_cascades.specs.Layers as spec;
ghost use Rattle.delete_cascades.specs.Layers.{IsIndex, has_place, is_under, layers_of, marked, names, places_in};

use apex_list::Items;
use apex_num::{Cell, Id, NoMemory};
use apex_rows::Row;
use indexmap::IndexMap;
use save_statements::Naming;
use std::alloc::{AllocError, Global};
use std::collections::BTreeMap;
use std::marker::Model;

/// Rows of a level by the rows that they name.
#[derive(Drop)]
pub struct Level {
    alloc: Global,
    namings: Items<Naming>,
    rows: Items<Row>,
    places: IndexMap<[u8; 15], Items<usize>>,
}

impl Model for Level {
    ghost use Rattle.delete_cascades.specs.Layers.{IsIndex, Layer};

    ghost Value = { Layer };

    ghost view = { λ l. record { namings = l.namings; rows = l.rows } };

    ghost invariant = { λ l. IsIndex l.namings l.rows l.places };
}

// Takes the places under an Id.
fn take(alloc: Global, places: &mut IndexMap<[u8; 15], Items<usize>>, id: &Id) -> Items<usize>
    ensures taken { result ≡ places_in places.old id.now }
    ensures others { (other : List ℕ) → places_in places.new other ≡ cond (bytes_eq id.now other) [] (places_in places.old other) }
{
    match places.swap_remove(&id.bytes()) {
        Some(list) => list,
        None => Items::new(alloc),
    }
}

// With a place more under an Id.
fn add_place(
    alloc: Global,
    places: &mut IndexMap<[u8; 15], Items<usize>>,
    id: &Id,
    place: usize,
) -> Result<(), NoMemory>
    ensures { OnOk result ((other : List ℕ) → places_in places.new other ≡ cond (bytes_eq id.now other) (places_in places.old other ++ place ∷ []) (places_in places.old other)) }
{
    let mut list = take(alloc, places, id);
    list.push(place)?;
    places.insert(id.bytes(), list).map_err(AllocError::from)?;
    Ok(())
}

// With the place of a row under the Id that one of its fields names.
fn add_named(
    alloc: Global,
    places: &mut IndexMap<[u8; 15], Items<usize>>,
    naming: &Naming,
    row: &Row,
    place: usize,
) -> Result<(), NoMemory>
    ensures { OnOk result ((id : List ℕ) (n : ℕ) → has_place (places_in places.new id) n ≡ (has_place (places_in places.old id) n || (eqb place n && names naming.now id row.now))) }
{
    if naming.object != row.object {
        return Ok(());
    }
    match row.cells.get(naming.field) {
        Some(Cell::Id(id)) => add_place(alloc, places, id, place),
        _ => Ok(()),
    }
}

// With the place of a row under the Ids that its fields name.
fn add_row(
    alloc: Global,
    places: &mut IndexMap<[u8; 15], Items<usize>>,
    namings: &[Naming],
    row: &Row,
    place: usize,
) -> Result<(), NoMemory>
    ensures { OnOk result ((id : List ℕ) (n : ℕ) → has_place (places_in places.new id) n ≡ (has_place (places_in places.old id) n || (eqb place n && named_by namings.now (id ∷ []) row.now))) }
{
    for naming in namings {
        add_named(alloc, places, naming, row, place)?;
    }
    Ok(())
}

fn places_of(
    alloc: Global,
    namings: &[Naming],
    rows: &[Row],
) -> Result<IndexMap<[u8; 15], Items<usize>>, NoMemory>
    ensures { IfOk result (λ places. IsIndex namings.now rows.now places) }
{
    let mut places = IndexMap::new(alloc);
    for i in 0..rows.len() {
        add_row(alloc, &mut places, namings, &rows[i], i)?;
    }
    Ok(places)
}

// The places under an Id.
fn places_at<'p>(places: &'p IndexMap<[u8; 15], Items<usize>>, id: &Id) -> &'p [usize]
    ensures { result.now ≡ places_in places.now id.now }
{
    match places.get(&id.bytes()) {
        Some(list) => list.as_slice(),
        None => &[],
    }
}

// With the Id of the row at a place, where there is one.
fn mark(found: &mut BTreeMap<usize, Id>, rows: &[Row], place: usize) -> Result<(), NoMemory>
    ensures { OnOk result ((test : ℕ → Bool) → found.old.entries ≡ marked test 0 rows.now → found.new.entries ≡ marked (λ n. test n || eqb place n) 0 rows.now) }
{
    match rows.get(place) {
        Some(row) => match found.insert(place, row.id) {
            Ok(_) => Ok(()),
            Err(_) => Err(AllocError),
        },
        None => Ok(()),
    }
}

// With the Ids of the rows at these places.
fn mark_all(found: &mut BTreeMap<usize, Id>, rows: &[Row], places: &[usize]) -> Result<(), NoMemory>
    ensures { OnOk result ((test : ℕ → Bool) → found.old.entries ≡ marked test 0 rows.now → found.new.entries ≡ marked (λ n. test n || has_place places.now n) 0 rows.now) }
{
    for i in 0..places.len() {
        mark(found, rows, places[i])?;
    }
    Ok(())
}

// The Ids of the rows that name one of these, by the places of the rows.
fn found_under(
    alloc: Global,
    rows: &[Row],
    places: &IndexMap<[u8; 15], Items<usize>>,
    ids: &[Id],
) -> Result<BTreeMap<usize, Id>, NoMemory>
    ensures { IfOk result (λ found. found.entries ≡ marked (is_under places.now ids.now) 0 rows.now) }
{
    let mut found = BTreeMap::new(alloc);
    for id in ids {
        mark_all(&mut found, rows, places_at(places, id))?;
    }
    Ok(found)
}

// The values of a map, in the order of its keys.
fn values(alloc: Global, found: BTreeMap<usize, Id>) -> Result<Items<Id>, NoMemory>
    ensures { IfOk result (λ ids. ids ≡ values_of found.entries) }
{
    let mut ids = Items::new(alloc);
    for id in found.into_values() {
        ids.push(id)?;
    }
    Ok(ids)
}

impl Level {
    /// Rows by the rows that some of their fields name. Each is looked at once.
    pub fn new(alloc: Global, namings: &[Naming], rows: Items<Row>) -> Result<Level, NoMemory>
        ensures { IfOk result (λ l. l ≡ record { namings = namings.now; rows = rows }) }
    {
        let places = places_of(alloc, namings, rows.as_slice())?;
        Ok(Level {
            alloc,
            namings: Items::from_slice(alloc, namings)?,
            rows,
            places,
        })
    }

    /// The Ids of the rows that name one of these, in the order of the rows. Only those rows are looked at.
    pub fn below(&self, ids: &[Id]) -> Result<Items<Id>, NoMemory>
        ensures { IfOk result (λ found. found ≡ spec.below self.now ids.now) }
    {
        let found = found_under(self.alloc, self.rows.as_slice(), &self.places, ids)?;
        values(self.alloc, found)
    }
}

/// Levels by the rows that their rows name.
pub fn levels_of(
    alloc: Global,
    namings: &[Naming],
    levels: Items<Items<Row>>,
) -> Result<Items<Level>, NoMemory>
    ensures { IfOk result (λ ls. ls ≡ layers_of namings.now levels) }
{
    let mut all = Items::new(alloc);
    for rows in levels.into_vec() {
        all.push(Level::new(alloc, namings, rows)?)?;
    }
    Ok(all)
}

/// An Id, and those of all that goes with its row.
pub fn all_below(alloc: Global, levels: &[Level], id: Id) -> Result<Items<Id>, NoMemory>
    ensures { IfOk result (λ under. under ≡ spec.all_below levels.now (id ∷ [])) }
{
    let mut under = Items::new(alloc);
    let mut last = Items::new(alloc);
    last.push(id)?;
    for level in levels {
        let next = level.below(last.as_slice())?;
        under.append(last)?;
        last = next;
    }
    under.append(last)?;
    Ok(under)
}
