// The order of rows by keys, and then by Id.

ghost use Rattle.std.specs.Prelude.{◌≡◌, true, false, drop, IfOk, OnOk};
ghost use Rattle.std.specs.List.{list_all};
ghost use Rattle.apex_num.specs.declared.cell.Cell.TheVariants as Cells;
ghost use Rattle.row_meaning.specs.Cells.{is_null as null};
ghost use Rattle.row_meaning.specs.Queries.{row_cmp, sorted};
ghost use Rattle.query_rows.specs.Orders as spec;
ghost use Rattle.query_rows.specs.Orders.{AllKeyed, key_cells, placed_in, rows_of, sorted_in};
ghost use Rattle.query_rows.specs.Read.{value_of};
ghost use Rattle.query_rows.specs.declared.order.Keyed.{Keyed as TheKeyed};

use crate::reader::Reader;
use apex_list::Items;
use apex_num::{Cell, NoMemory};
use apex_rows::{Row, SortKey};
use row_conditions::compare;
use std::alloc::Global;
use std::cmp::Ordering;

/// A row with the values of the keys of an order, which were read once.
#[derive(Drop)]
pub struct Keyed {
    pub cells: Items<Cell>,
    pub row: Row,
}

fn is_null(cell: &Cell) -> bool
    ensures { result ≡ null cell.now }
{
    match cell {
        Cell::Null => true,
        _ => false,
    }
}

// A number for the type of a value; 0 for null.
fn kind_of(cell: &Cell) -> u8
    ensures { result ≡ spec.kind_of cell.now }
{
    match cell {
        Cell::Null => 0,
        Cell::Bool(_) => 1,
        Cell::Whole(_) => 2,
        Cell::Num(_) => 3,
        Cell::Text(_) => 4,
        Cell::Id(_) => 5,
        Cell::Day(_) => 6,
        Cell::Moment(_) => 7,
    }
}

// How two values stand, those of two types by their types where `kinds` says so.
fn cell_order(kinds: bool, a: &Cell, b: &Cell) -> Ordering
    ensures { result ≡ spec.cell_order kinds a.now b.now }
{
    match compare(a, b) {
        Some(order) => order,
        None => {
            if kinds {
                kind_of(a).cmp(&kind_of(b))
            } else {
                Ordering::Equal
            }
        }
    }
}

// How two values of a key stand: nulls first, or last where the text says so.
fn key_order(kinds: bool, key: &SortKey, a: &Cell, b: &Cell) -> Ordering
    ensures { result ≡ spec.key_order kinds key.now a.now b.now }
{
    match (is_null(a), is_null(b)) {
        (true, true) => Ordering::Equal,
        (true, false) => {
            if key.nulls_last {
                Ordering::Greater
            } else {
                Ordering::Less
            }
        }
        (false, true) => {
            if key.nulls_last {
                Ordering::Less
            } else {
                Ordering::Greater
            }
        }
        (false, false) => {
            let order = cell_order(kinds, a, b);
            if key.descending {
                order.reverse()
            } else {
                order
            }
        }
    }
}

fn first_of<'c>(cells: &'c [Cell], null: &'c Cell) -> &'c Cell
    requires { null.now ≡ Cells.Null }
    ensures { result.now ≡ spec.first_of cells.now }
{
    match cells.first() {
        Some(cell) => cell,
        None => null,
    }
}

fn behind_first(cells: &[Cell]) -> &[Cell]
    ensures { result.now ≡ drop 1 cells.now }
{
    match cells.split_first() {
        Some((_, rest)) => rest,
        None => cells,
    }
}

// How the values of keys stand.
fn keys_order(kinds: bool, keys: &[SortKey], a: &[Cell], b: &[Cell]) -> Ordering
    ensures { result ≡ spec.keys_order kinds keys.now a.now b.now }
{
    let null = Cell::Null;
    let (mut left, mut right) = (a, b);
    for key in keys {
        let order = key_order(kinds, key, first_of(left, &null), first_of(right, &null));
        if order != Ordering::Equal {
            return order;
        }
        left = behind_first(left);
        right = behind_first(right);
    }
    Ordering::Equal
}

fn keyed_order(kinds: bool, keys: &[SortKey], a: &Keyed, b: &Keyed) -> Ordering
    ensures { result ≡ spec.keyed_order kinds keys.now a.now b.now }
{
    let order = keys_order(kinds, keys, a.cells.as_slice(), b.cells.as_slice());
    if order != Ordering::Equal {
        return order;
    }
    a.row.id.bytes().cmp(&b.row.id.bytes())
}

// The values of the keys of a row.
fn read_keys(
    alloc: Global,
    reader: &Reader<'_>,
    keys: &[SortKey],
    row: &Row,
) -> Result<Items<Cell>, NoMemory>
    ensures { IfOk result (λ cells. cells ≡ key_cells (value_of reader.now) keys.now row.now) }
{
    let mut cells = Items::new(alloc);
    for key in keys {
        cells.push(reader.copied_value(row, &key.path)?)?;
    }
    Ok(cells)
}

fn with_keys(
    alloc: Global,
    reader: &Reader<'_>,
    keys: &[SortKey],
    rows: Vec<Row>,
) -> Result<Vec<Keyed>, NoMemory>
    ensures keyed { IfOk result (λ v. AllKeyed (value_of reader.now) keys.now v.items) }
    ensures rows { IfOk result (λ v. rows_of v.items ≡ rows.items) }
{
    let mut all = Vec::with_capacity(alloc, rows.len())?;
    for row in rows {
        let cells = read_keys(alloc, reader, keys, &row)?;
        all.push(Keyed { cells, row })?;
    }
    Ok(all)
}

fn without_keys(alloc: Global, keyed: Vec<Keyed>) -> Result<Vec<Row>, NoMemory>
    ensures { IfOk result (λ v. v.items ≡ rows_of keyed.items) }
{
    let mut rows = Vec::with_capacity(alloc, keyed.len())?;
    for one in keyed {
        let Keyed { cells: _, row } = one;
        rows.push(row)?;
    }
    Ok(rows)
}

// The types of the values of each key, as far as they aren't null, by the rows that come first.
fn kinds_of(alloc: Global, keys: &[SortKey], rows: &[Keyed]) -> Result<Vec<u8>, NoMemory> {
    let mut kinds = Vec::new(alloc);
    for i in 0..keys.len() {
        kinds.push(kind_at(rows, i))?;
    }
    Ok(kinds)
}

// The type of the first value of a key that isn't null.
fn kind_at(rows: &[Keyed], place: usize) -> u8 {
    for row in rows {
        if let Some(cell) = row.cells.get(place) {
            let kind = kind_of(cell);
            if kind != 0 {
                return kind;
            }
        }
    }
    0
}

// Whether each value is null or of the type at its place.
fn fits(kinds: &[u8], cells: &[Cell]) -> bool
    ensures { result ≡ spec.fits kinds.now cells.now }
{
    let mut left = kinds;
    for cell in cells {
        let Some((wanted, rest)) = left.split_first() else {
            return false;
        };
        let kind = kind_of(cell);
        if kind != 0 && kind != *wanted {
            return false;
        }
        left = rest;
    }
    true
}

fn all_fit(kinds: &[u8], rows: &[Keyed]) -> bool
    ensures { result ≡ list_all (λ (x : TheKeyed). spec.fits kinds.now x.cells) rows.now }
{
    for row in rows {
        if !fits(kinds, row.cells.as_slice()) {
            return false;
        }
    }
    true
}

// Sorts by keys whose values have one type each.
fn sort(keys: &[SortKey], rows: &mut Vec<Keyed>) -> Result<(), NoMemory>
    ensures { OnOk result (rows.new.items ≡ sorted_in (spec.keyed_order true keys.now) rows.old.items) }
{
    rows.sort_by(|a, b| keyed_order(true, keys, a, b))
}

// Puts a row in front of those behind which it doesn't stand.
fn place(keys: &[SortKey], row: Keyed, rows: &mut Vec<Keyed>) -> Result<(), NoMemory>
    ensures { OnOk result (rows.new.items ≡ placed_in (spec.keyed_order false keys.now) row rows.old.items) }
{
    let mut at = 0;
    'front: while at < rows.len()
        && keyed_order(false, keys, &row, &rows[at]) == Ordering::Greater
    {
        at += 1;
    }
    rows.insert(at, row)?;
    Ok(())
}

// Sorts one by one, which no store makes necessary: values of two types stand under one key.
fn sort_mixed(alloc: Global, keys: &[SortKey], rows: Vec<Keyed>) -> Result<Vec<Keyed>, NoMemory>
    ensures { IfOk result (λ v. v.items ≡ sorted_in (spec.keyed_order false keys.now) rows.items) }
{
    let mut rest = rows;
    let mut done = Vec::new(alloc);
    while let Some(row) = rest.pop() {
        place(keys, row, &mut done)?;
    }
    Ok(done)
}

/// The rows in the order of the keys and then of their Ids. Each key is read once per row.
pub fn in_order(
    alloc: Global,
    reader: &Reader<'_>,
    keys: &[SortKey],
    rows: Vec<Row>,
) -> Result<Vec<Row>, NoMemory>
    ensures { IfOk result (λ v. v.items ≡ sorted (row_cmp (value_of reader.now) keys.now) rows.items) }
{
    let mut all = with_keys(alloc, reader, keys, rows)?;
    let kinds = kinds_of(alloc, keys, &all)?;
    if !all_fit(&kinds, &all) {
        return without_keys(alloc, sort_mixed(alloc, keys, all)?);
    }
    sort(keys, &mut all)?;
    without_keys(alloc, all)
}
