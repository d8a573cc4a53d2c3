// Rows under rows.

ghost use Rattle.std.specs.Prelude.{◌≡◌, ◌++◌, ◌∷◌, [], ℕ, List, cond, bytes_eq, slice_get, IfOk, OnOk};
ghost use Rattle.row_meaning.specs.Accesses.{is_id};
ghost use Rattle.row_meaning.specs.Conds.{cell_of};
ghost use Rattle.query_rows.specs.Cuts.{children_of, children_with, parent_cells};
ghost use Rattle.query_rows.specs.Families.{AreFamilies, at_places, family, places_in, row_in};

use crate::limits::cut;
use crate::reader::Reader;
use apex_list::Items;
use apex_num::{Cell, Id, NoMemory};
use apex_rows::{Bind, Child, Path, Query, Row};
use indexmap::IndexMap;
use std::alloc::{AllocError, Global};
use std::marker::Model;

/// Rows by the rows that a field of theirs names.
#[derive(Drop)]
pub struct Families {
    alloc: Global,
    lookup: usize,
    rows: Vec<Row>,
    places: IndexMap<[u8; 15], Items<usize>>,
}

impl Model for Families {
    ghost use Rattle.query_rows.specs.Families.{AreFamilies, Rows};

    ghost Value = { Rows };

    ghost view = { λ f. record { lookup = f.lookup; rows = f.rows.items } };

    ghost invariant = { λ f. AreFamilies f.lookup f.rows.items f.places };
}

// Takes the places under an Id.
fn take(alloc: Global, places: &mut IndexMap<[u8; 15], Items<usize>>, id: &Id) -> Items<usize>
    ensures taken { result ≡ places_in places.old id.now }
    ensures others { (other : List ℕ) → places_in places.new other ≡ cond (bytes_eq id.now other) [] (places_in places.old other) }
{
    match places.swap_remove(&id.bytes()) {
        Some(list) => list,
        None => Items::new(alloc),
    }
}

// With a place more under an Id.
fn add_place(
    alloc: Global,
    places: &mut IndexMap<[u8; 15], Items<usize>>,
    id: &Id,
    place: usize,
) -> Result<(), NoMemory>
    ensures { OnOk result ((other : List ℕ) → places_in places.new other ≡ cond (bytes_eq id.now other) (places_in places.old other ++ place ∷ []) (places_in places.old other)) }
{
    let mut list = take(alloc, places, id);
    list.push(place)?;
    places.insert(id.bytes(), list).map_err(AllocError::from)?;
    Ok(())
}

// With the place of a row under the Id that its field names.
fn add_row(
    alloc: Global,
    places: &mut IndexMap<[u8; 15], Items<usize>>,
    lookup: usize,
    row: &Row,
    place: usize,
) -> Result<(), NoMemory>
    ensures { OnOk result ((other : List ℕ) → places_in places.new other ≡ cond (is_id (cell_of row.now lookup) other) (places_in places.old other ++ place ∷ []) (places_in places.old other)) }
{
    match row.cells.get(lookup) {
        Some(Cell::Id(id)) => add_place(alloc, places, id, place),
        _ => Ok(()),
    }
}

fn places_of(
    alloc: Global,
    lookup: usize,
    rows: &[Row],
) -> Result<IndexMap<[u8; 15], Items<usize>>, NoMemory>
    ensures { IfOk result (λ places. AreFamilies lookup rows.now places) }
{
    let mut places = IndexMap::new(alloc);
    for i in 0..rows.len() {
        add_row(alloc, &mut places, lookup, &rows[i], i)?;
    }
    Ok(places)
}

// With a copy of the row at a place, where there is one.
fn add_at(all: &mut Vec<Row>, rows: &[Row], place: usize) -> Result<(), NoMemory>
    ensures { OnOk result (all.new.items ≡ all.old.items ++ row_in (slice_get rows.now place)) }
{
    match rows.get(place) {
        Some(row) => {
            all.push(row.copy()?)?;
            Ok(())
        }
        None => Ok(()),
    }
}

// Copies of the rows at these places.
fn rows_at(alloc: Global, rows: &[Row], places: &[usize]) -> Result<Vec<Row>, NoMemory>
    ensures { IfOk result (λ v. v.items ≡ at_places rows.now places.now) }
{
    let mut all = Vec::with_capacity(alloc, places.len())?;
    for place in places {
        add_at(&mut all, rows, *place)?;
    }
    Ok(all)
}

// The places under an Id.
fn places_at<'p>(places: &'p IndexMap<[u8; 15], Items<usize>>, id: &Id) -> &'p [usize]
    ensures { result.now ≡ places_in places.now id.now }
{
    match places.get(&id.bytes()) {
        Some(list) => list.as_slice(),
        None => &[],
    }
}

impl Families {
    /// Rows by the rows that a field of theirs names. Each is looked up once.
    pub fn new(alloc: Global, lookup: usize, rows: Vec<Row>) -> Result<Families, NoMemory>
        ensures { IfOk result (λ f. f ≡ record { lookup = lookup; rows = rows.items }) }
    {
        let places = places_of(alloc, lookup, &rows)?;
        Ok(Families {
            alloc,
            lookup,
            rows,
            places,
        })
    }

    /// Copies of the rows that name a row, in their order.
    pub fn of(&self, id: &Id) -> Result<Vec<Row>, NoMemory>
        ensures { IfOk result (λ v. v.items ≡ family self.now.lookup self.now.rows id.now) }
    {
        rows_at(self.alloc, &self.rows, places_at(&self.places, id))
    }
}

/// The values of the paths of more than one name.
pub fn cells_over(
    alloc: Global,
    reader: &Reader<'_>,
    paths: &[Path],
    row: &Row,
) -> Result<Items<Cell>, NoMemory>
    ensures { IfOk result (λ cells. cells ≡ parent_cells reader.now paths.now row.now) }
{
    let mut cells = Items::new(alloc);
    for path in paths {
        if !path.parents.is_empty() {
            cells.push(reader.copied_value(row, path)?)?;
        }
    }
    Ok(cells)
}

// Rows of a subquery with the values of its paths.
fn as_children(
    alloc: Global,
    reader: &Reader<'_>,
    paths: &[Path],
    rows: Vec<Row>,
) -> Result<Items<Child>, NoMemory>
    ensures { IfOk result (λ cs. cs ≡ children_with reader.now paths.now rows.items) }
{
    let mut children = Items::new(alloc);
    for row in rows {
        let paths = cells_over(alloc, reader, paths, &row)?;
        children.push(Child { row, paths })?;
    }
    Ok(children)
}

/// What a subquery finds under a row: the rows that name it, in order and cut for it alone.
pub fn children_under(
    alloc: Global,
    reader: &Reader<'_>,
    binds: &[Bind],
    query: &Query,
    families: &Families,
    parent: &Id,
) -> Result<Items<Child>, NoMemory>
    ensures { IfOk result (λ cs. cs ≡ children_of reader.now binds.now query.now (family families.now.lookup families.now.rows parent.now)) }
{
    let rows = cut(alloc, reader, binds, query, families.of(parent)?)?;
    as_children(alloc, reader, query.paths.as_slice(), rows)
}
