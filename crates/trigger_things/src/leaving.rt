// How a trigger leaves its records.

ghost use Rattle.std.specs.Prelude.{◌≡◌, ◌≤◌, ◌+◌, ◌⊎◌, length, map, IfOk};
ghost use Rattle.std.specs.Option.{option_copied};
ghost use Rattle.save_meaning.specs.Drafts as drafts;
ghost use Rattle.trigger_things.specs.Lefts as spec;

use apex_list::Items;
use apex_num::{Cell, Id, NoMemory, read_id};
use apex_rows::Row;
use save_statements::Left;
use std::alloc::Global;
use txn_heap::{Guard, Heap, Ref, Thing};

// The Id of a row that has none yet.
fn no_id() -> Id
    ensures { result ≡ drafts.no_id }
{
    match read_id(b"000000000000000") {
        Some(id) => id,
        None => unreachable!(),
    }
}

fn cell_left(cell: &Option<Cell>) -> Result<Cell, NoMemory>
    ensures { IfOk result (λ c. c ≡ spec.cell_left cell.now) }
{
    match cell {
        None => Ok(Cell::Null),
        Some(cell) => cell.copy(),
    }
}

fn cells_left(alloc: Global, cells: &[Option<Cell>]) -> Result<Items<Cell>, NoMemory>
    ensures { IfOk result (λ left. left ≡ map spec.cell_left cells.now) }
{
    let mut left = Items::new(alloc);
    for cell in cells {
        left.push(cell_left(cell)?)?;
    }
    Ok(left)
}

// The row of a record; one without cells where there is no record.
fn row_of(alloc: Global, thing: Option<&Thing>) -> Result<Row, NoMemory>
    ensures { IfOk result (λ row. row ≡ spec.row_of (option_copied thing.entry)) }
{
    match thing {
        Some(Thing::Record(record)) => Ok(Row {
            object: record.object,
            id: no_id(),
            cells: cells_left(alloc, record.cells.as_slice())?,
        }),
        _ => Ok(Row {
            object: 0,
            id: no_id(),
            cells: Items::new(alloc),
        }),
    }
}

// Behind the last thing nothing was left.
fn nothing_left(heap: &Heap, place: usize) -> Result<Left, NoMemory>
    requires { length heap.now ≤ place }
    ensures { IfOk result (λ left. left ≡ spec.left_at heap.now place) }
{
    Ok(Left {
        row: row_of(heap.allocator(), None)?,
        message: None,
    })
}

// The record behind a place, as it was left.
fn left_at(heap: &Heap, place: usize) -> Result<Left, NoMemory>
    ensures { IfOk result (λ left. left ≡ spec.left_at heap.now place) }
{
    if place >= heap.len() {
        return nothing_left(heap, place);
    }
    let on = Ref { place: place + 1 };
    Ok(Left {
        row: row_of(heap.allocator(), heap.get(on))?,
        message: heap.error_of(on)?,
    })
}

// The place of the next record's guard. Behind the last thing all places are alike.
fn next_place(heap: &Heap, place: usize) -> usize
    ensures { (result ≡ place + 2) ⊎ ((length heap.now ≤ result) × (length heap.now ≤ place + 2)) }
{
    if place < heap.len() {
        place.saturating_add(2)
    } else {
        place
    }
}

/// How so many records were left that begin at a place, each behind its guard: copies of their cells, and the message of the first
/// error that was added to each. Want of memory is the only error.
pub fn lefts(heap: &Heap, count: usize, first: usize) -> Result<Items<Left>, NoMemory>
    ensures { IfOk result (λ left. left ≡ spec.lefts count first heap.now) }
{
    let mut left = Items::new(heap.allocator());
    let mut place = first;
    'all: for i in 0..count {
        left.push(left_at(heap, place)?)?;
        place = next_place(heap, place);
    }
    Ok(left)
}

/// Behind a firing nothing may be done any more with so many records that begin at a place. It takes no memory.
pub fn close_records(heap: &mut Heap, count: usize, first: usize)
    ensures { heap.new ≡ spec.closed count first heap.old }
{
    let mut place = first;
    'close: for i in 0..count {
        heap.replace(Ref { place }, Thing::Guard(Guard::Fixed));
        place = next_place(heap, place);
    }
}
