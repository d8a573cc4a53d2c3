// The records of what a query found.

ghost use Rattle.std.specs.Prelude.{◌≡◌, IfOk};
ghost use Rattle.query_records.specs.Making.{children_made, lists_made};
ghost use Rattle.query_records.specs.Records as spec;

use crate::cells::{know_own, no_cells};
use crate::relations::{put, put_record, relations};
use crate::shape::{ChildShape, FoundShape, RowShape};
use apex_list::Items;
use apex_num::{Cell, NoMemory};
use apex_rows::{Child, Found, Row};
use apex_schema::Schema;
use std::alloc::Global;
use txn_heap::{Heap, Selected, Thing, Under, Value};

// The record of a row, with the lists under it.
fn make_row(
    alloc: Global,
    schema: &Schema,
    shape: &RowShape,
    row: &Row,
    paths: &[Cell],
    children: Items<Under>,
    heap: &mut Heap,
) -> Result<Value, NoMemory>
    ensures { IfOk result (λ v. (v, heap.new) ≡ spec.row_made schema.now shape.now row.now paths.now children heap.old) }
{
    let parents = relations(alloc, schema, paths, &shape.over, row.object, heap)?;
    let mut cells = no_cells(alloc, schema, row.object)?;
    know_own(&mut cells, shape.own.as_slice(), row)?;
    put_record(
        alloc,
        row.object,
        cells,
        Selected { parents, children },
        heap,
    )
}

// The records of the rows of a subquery under a row.
fn make_children(
    alloc: Global,
    schema: &Schema,
    shape: &RowShape,
    children: &[Child],
    heap: &mut Heap,
) -> Result<Items<Value>, NoMemory>
    ensures { IfOk result (λ vs. (vs, heap.new) ≡ children_made schema.now shape.now children.now heap.old) }
{
    let mut records = Items::new(alloc);
    for child in children {
        let paths = child.paths.as_slice();
        let under = Items::new(alloc);
        records.push(make_row(alloc, schema, shape, &child.row, paths, under, heap)?)?;
    }
    Ok(records)
}

// The list of the rows of a subquery under a row.
fn make_under(
    alloc: Global,
    schema: &Schema,
    shape: &ChildShape,
    children: &[Child],
    heap: &mut Heap,
) -> Result<Under, NoMemory>
    ensures { IfOk result (λ under. (under, heap.new) ≡ spec.under_made schema.now (shape.now, children.now) heap.old) }
{
    let records = make_children(alloc, schema, &shape.row, children, heap)?;
    Ok(Under {
        object: shape.object,
        field: shape.lookup,
        list: put(heap, Thing::List(records))?,
    })
}

// The lists under a row. One that wasn't found is empty.
fn make_lists(
    alloc: Global,
    schema: &Schema,
    shapes: &[ChildShape],
    lists: &[Items<Child>],
    heap: &mut Heap,
) -> Result<Items<Under>, NoMemory>
    ensures { IfOk result (λ under. (under, heap.new) ≡ lists_made schema.now shapes.now lists.now heap.old) }
{
    let mut under = Items::new(alloc);
    for i in 0..shapes.len() {
        let children: &[Child] = match lists.get(i) {
            Some(list) => list.as_slice(),
            None => &[],
        };
        under.push(make_under(alloc, schema, &shapes[i], children, heap)?)?;
    }
    Ok(under)
}

// The record of a row that was found, behind the lists under it.
fn make_found(
    alloc: Global,
    schema: &Schema,
    shape: &FoundShape,
    found: &Found,
    heap: &mut Heap,
) -> Result<Value, NoMemory>
    ensures { IfOk result (λ v. (v, heap.new) ≡ spec.found_made schema.now shape.now found.now heap.old) }
{
    let shapes = shape.children.as_slice();
    let under = make_lists(alloc, schema, shapes, found.children.as_slice(), heap)?;
    let paths = found.paths.as_slice();
    make_row(alloc, schema, &shape.row, &found.row, paths, under, heap)
}

/// The list of the records of what a query found, made behind the things that are there. Want of memory is the only error, and some
/// of them may be made then.
pub fn make_records(
    alloc: Global,
    schema: &Schema,
    shape: &FoundShape,
    found: &[Found],
    heap: &mut Heap,
) -> Result<Value, NoMemory>
    ensures { IfOk result (λ v. (v, heap.new) ≡ spec.records_made schema.now shape.now found.now heap.old) }
{
    let mut records = Items::new(alloc);
    for one in found {
        records.push(make_found(alloc, schema, shape, one, heap)?)?;
    }
    put(heap, Thing::List(records))
}
