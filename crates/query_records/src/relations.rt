// The records over a row.

ghost use Rattle.std.specs.Prelude.{◌≡◌, [], Some, IfOk};
ghost use Rattle.txn_heap.specs.declared.thing.Thing.TheVariants as T;
ghost use Rattle.query_records.specs.Making as making;
ghost use Rattle.query_records.specs.Records as spec;

use crate::cells::{know_given, no_cells};
use crate::shape::{Given, Over};
use apex_list::{Boxed, Items};
use apex_num::{Cell, NoMemory};
use apex_schema::Schema;
use query_rows::object_leads;
use std::alloc::Global;
use txn_heap::{Heap, Record, Relation, Selected, Thing, Value};

/// Puts a thing behind the others.
pub fn put(heap: &mut Heap, thing: Thing) -> Result<Value, NoMemory>
    ensures { IfOk result (λ v. (v, heap.new) ≡ spec.new_thing thing heap.old) }
{
    let made = heap.make(thing)?;
    Ok(Value::Object(made))
}

/// Puts a record that a query gave behind the others.
pub fn put_record(
    alloc: Global,
    object: usize,
    cells: Items<Option<Cell>>,
    selected: Selected,
    heap: &mut Heap,
) -> Result<Value, NoMemory>
    ensures { IfOk result (λ v. (v, heap.new) ≡ spec.new_thing (T.Record (record { object = object; cells = cells; selected = Some selected })) heap.old) }
{
    let selected = Some(Boxed::new(alloc, selected)?);
    put(
        heap,
        Thing::Record(Record {
            object,
            cells,
            selected,
        }),
    )
}

// The record of a row over another, with its relations.
fn put_over(
    alloc: Global,
    schema: &Schema,
    paths: &[Cell],
    given: &[Given],
    object: usize,
    parents: Items<Relation>,
    heap: &mut Heap,
) -> Result<Value, NoMemory>
    ensures { IfOk result (λ v. (v, heap.new) ≡ spec.over_record schema.now paths.now given.now parents object heap.old) }
{
    let mut cells = no_cells(alloc, schema, object)?;
    know_given(&mut cells, given, paths)?;
    let children = Items::new(alloc);
    put_record(alloc, object, cells, Selected { parents, children }, heap)
}

// The object of the row that a field leads to; none where there is no such row.
fn object_there(schema: &Schema, paths: &[Cell], over: &Over, object: usize) -> Option<usize>
    ensures { result ≡ making.object_there schema.now paths.now over.now object }
{
    let leads = object_leads(schema, object, over.field)?;
    match paths.get(over.id) {
        Some(Cell::Null) => None,
        Some(_) => Some(leads),
        None => None,
    }
}

// What a record of an object leads to by a field.
#[cycle(relations)]
fn relation(
    alloc: Global,
    schema: &Schema,
    paths: &[Cell],
    over: &Over,
    object: usize,
    heap: &mut Heap,
) -> Result<Relation, NoMemory>
    ensures { IfOk result (λ link. (link, heap.new) ≡ spec.over_made schema.now paths.now over.now object heap.old) }
{
    let field = over.field;
    let Some(object) = object_there(schema, paths, over, object) else {
        return Ok(Relation {
            field,
            value: Value::Plain(Cell::Null),
        });
    };
    let parents = relations(alloc, schema, paths, &over.over, object, heap)?;
    let given = over.cells.as_slice();
    Ok(Relation {
        field,
        value: put_over(alloc, schema, paths, given, object, parents, heap)?,
    })
}

/// What a record of an object leads to.
#[cycle(relations)]
pub fn relations(
    alloc: Global,
    schema: &Schema,
    paths: &[Cell],
    overs: &Items<Over>,
    object: usize,
    heap: &mut Heap,
) -> Result<Items<Relation>, NoMemory>
    ensures { IfOk result (λ links. (links, heap.new) ≡ spec.overs_made schema.now paths.now overs.now object heap.old) }
{
    let mut links = Items::new(alloc);
    for over in overs.as_slice() {
        links.push(relation(alloc, schema, paths, over, object, heap)?)?;
    }
    Ok(links)
}
