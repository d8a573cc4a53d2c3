// Copies of rows as records of the heap, each behind what guards it.

ghost use Rattle.std.specs.Prelude.{◌≡◌, ◌++◌, ◌∷◌, [], length, map, Some, IfOk, OnOk};
ghost use Rattle.apex_num.specs.declared.cell.Cell.{Cell as AnyCell};
ghost use Rattle.apex_num.specs.declared.cell.Cell.TheVariants as C;
ghost use Rattle.txn_heap.specs.declared.thing.Value.TheVariants.{Object};
ghost use Rattle.trigger_things.specs.Things as spec;

use apex_list::Items;
use apex_num::{Cell, Id, NoMemory, Text};
use apex_requests::Op;
use apex_rows::Row;
use std::alloc::Global;
use txn_heap::{Guard, Heap, Record, Ref, Thing, Value};

/// Records that were made, in their order and by their Ids.
#[derive(Drop)]
pub(crate) struct Made {
    pub list: Items<Value>,
    pub by_id: Items<(Cell, Value)>,
}

/// What guards the records of `Trigger.new`, none with an error yet.
pub(crate) fn new_guard(before: bool) -> Guard
    ensures { result ≡ spec.new_guard before }
{
    if before {
        Guard::Open(None)
    } else {
        Guard::Watched(None)
    }
}

/// What guards the records of `Trigger.old`.
pub(crate) fn old_guard(op: Op) -> Guard
    ensures { result ≡ spec.old_guard op }
{
    match op {
        Op::Delete => Guard::Watched(None),
        _ => Guard::Fixed,
    }
}

fn copy_error(error: &Option<Text>) -> Result<Option<Text>, NoMemory>
    ensures { IfOk result (λ e. e ≡ error.now) }
{
    match error {
        None => Ok(None),
        Some(message) => Ok(Some(message.copy()?)),
    }
}

fn copy_guard(guard: &Guard) -> Result<Guard, NoMemory>
    ensures { IfOk result (λ g. g ≡ guard.now) }
{
    match guard {
        Guard::Fixed => Ok(Guard::Fixed),
        Guard::Watched(error) => Ok(Guard::Watched(copy_error(error)?)),
        Guard::Open(error) => Ok(Guard::Open(copy_error(error)?)),
    }
}

// All cells are known.
fn known(alloc: Global, cells: Items<Cell>) -> Result<Items<Option<Cell>>, NoMemory>
    ensures { IfOk result (λ all. all ≡ map (λ (c : AnyCell). Some c) cells) }
{
    let mut all = Items::new(alloc);
    for cell in cells.into_vec() {
        all.push(Some(cell))?;
    }
    Ok(all)
}

// The record of a row, whose cells are moved.
fn record_of(alloc: Global, row: Row) -> Result<Record, NoMemory>
    ensures { IfOk result (λ made. made ≡ spec.record_of row) }
{
    Ok(Record {
        object: row.object,
        cells: known(alloc, row.cells)?,
        selected: None,
    })
}

impl Made {
    /// No records, which take no memory.
    pub(crate) fn none(alloc: Global) -> Made
        ensures list { result.list ≡ [] }
        ensures by_id { result.by_id ≡ [] }
    {
        Made {
            list: Items::new(alloc),
            by_id: Items::new(alloc),
        }
    }

    fn add(&mut self, id: Id, on: Ref) -> Result<(), NoMemory>
        ensures list { OnOk result (self.new.list ≡ self.old.list ++ Object on ∷ []) }
        ensures by_id { OnOk result (self.new.by_id ≡ self.old.by_id ++ (C.Id id, Object on) ∷ []) }
    {
        self.list.push(Value::Object(on))?;
        self.by_id.push((Cell::Id(id), Value::Object(on)))
    }
}

// One more record, behind its guard.
fn make_record(heap: &mut Heap, guard: &Guard, row: Row, made: &mut Made) -> Result<(), NoMemory>
    ensures things { OnOk result (heap.new ≡ heap.old ++ spec.records guard.now (row ∷ [])) }
    ensures list { OnOk result (made.new.list ≡ made.old.list ++ spec.listed_from (length heap.old) (row ∷ [])) }
    ensures by_id { OnOk result (made.new.by_id ≡ made.old.by_id ++ spec.by_id (length heap.old) (row ∷ [])) }
{
    let id = row.id;
    let record = record_of(heap.allocator(), row)?;
    heap.make(Thing::Guard(copy_guard(guard)?))?;
    let on = heap.make(Thing::Record(record))?;
    made.add(id, on)
}

/// Makes the records of rows, each behind its guard. The cells of the rows are moved. Want of memory is the only error.
pub(crate) fn make_records(
    heap: &mut Heap,
    guard: &Guard,
    rows: Items<Row>,
) -> Result<Made, NoMemory>
    ensures things { OnOk result (heap.new ≡ heap.old ++ spec.records guard.now rows) }
    ensures list { IfOk result (λ made. made.list ≡ spec.listed_from (length heap.old) rows) }
    ensures by_id { IfOk result (λ made. made.by_id ≡ spec.by_id (length heap.old) rows) }
{
    let mut made = Made::none(heap.allocator());
    for row in rows.into_vec() {
        make_record(heap, guard, row, &mut made)?;
    }
    Ok(made)
}
