// What records lead to.

ghost use Rattle.std.specs.Prelude.{◌≡◌, IfOk};
ghost use Rattle.std.specs.Option.{option_copied};
ghost use Rattle.apex_meaning.specs.Records as spec;

use crate::cells::null_in_front;
use crate::words::{children_word, relation_word, unasked};
use apex_num::{Cell, NoMemory};
use apex_schema::Schema;
use platform_errors::Thrown;
use std::alloc::Global;
use txn_heap::{Heap, Record, Relation, Thing, Under, Value};
use value_operators::Calculated;

// ---- parents

fn parent_among(
    alloc: Global,
    schema: &Schema,
    parents: &[Relation],
    field: usize,
    known: &Record,
) -> Result<Calculated, NoMemory>
    ensures { IfOk result (λ c. c ≡ spec.parent_among schema.now parents.now field known.now) }
{
    for parent in parents {
        if parent.field == field {
            return Ok(Calculated::Val(parent.value.copy()?));
        }
    }
    let word = relation_word(alloc, schema, known.object, field)?;
    unasked(alloc, schema, known.object, word)
}

fn parent_of(
    alloc: Global,
    schema: &Schema,
    field: usize,
    known: &Record,
) -> Result<Calculated, NoMemory>
    ensures { IfOk result (λ c. c ≡ spec.parent_of schema.now known.now.selected field known.now) }
{
    match &known.selected {
        None => Ok(Calculated::Val(Value::Plain(Cell::Null))),
        Some(given) => { parent_among(alloc, schema, given.get().parents.as_slice(), field, known) }
    }
}

fn parent_of_thing(
    alloc: Global,
    schema: &Schema,
    field: usize,
    thing: Option<&Thing>,
) -> Result<Calculated, NoMemory>
    ensures { IfOk result (λ c. c ≡ spec.of_record (λ r. spec.parent_of schema.now r.selected field r) (option_copied thing.entry)) }
{
    match thing {
        Some(Thing::Record(known)) => parent_of(alloc, schema, field, known),
        _ => Ok(Calculated::Fails(Thrown::NullObject)),
    }
}

/// The record that a field of a record leads to. Where the mark says so, a null in the record's place gives null.
pub fn parent_in(
    alloc: Global,
    schema: &Schema,
    field: usize,
    goes_on: bool,
    on: &Value,
    heap: &Heap,
) -> Result<Calculated, NoMemory>
    ensures { IfOk result (λ c. c ≡ spec.parent_in schema.now field goes_on on.now heap.now) }
{
    match on {
        Value::Plain(_) => Ok(null_in_front(goes_on)),
        Value::Object(thing) => parent_of_thing(alloc, schema, field, heap.get(*thing)),
    }
}

// ---- children

fn children_among(
    alloc: Global,
    schema: &Schema,
    children: &[Under],
    object: usize,
    field: usize,
    known: &Record,
) -> Result<Calculated, NoMemory>
    ensures { IfOk result (λ c. c ≡ spec.children_among schema.now children.now object field known.now) }
{
    for under in children {
        if under.object == object && under.field == field {
            return Ok(Calculated::Val(under.list.copy()?));
        }
    }
    let word = children_word(alloc, schema, object, field)?;
    unasked(alloc, schema, known.object, word)
}

fn children_under(
    alloc: Global,
    schema: &Schema,
    object: usize,
    field: usize,
    known: &Record,
) -> Result<Calculated, NoMemory>
    ensures { IfOk result (λ c. c ≡ spec.children_under schema.now known.now.selected object field known.now) }
{
    match &known.selected {
        None => Ok(Calculated::Val(Value::Plain(Cell::Null))),
        Some(given) => children_among(
            alloc,
            schema,
            given.get().children.as_slice(),
            object,
            field,
            known,
        ),
    }
}

fn children_of_thing(
    alloc: Global,
    schema: &Schema,
    object: usize,
    field: usize,
    thing: Option<&Thing>,
) -> Result<Calculated, NoMemory>
    ensures { IfOk result (λ c. c ≡ spec.of_record (λ r. spec.children_under schema.now r.selected object field r) (option_copied thing.entry)) }
{
    match thing {
        Some(Thing::Record(known)) => children_under(alloc, schema, object, field, known),
        _ => Ok(Calculated::Fails(Thrown::NullObject)),
    }
}

/// The list of the records of an object under a record, by their field that leads to it. Where the mark says so, a null in the
/// record's place gives null.
pub fn children_in(
    alloc: Global,
    schema: &Schema,
    object: usize,
    field: usize,
    goes_on: bool,
    on: &Value,
    heap: &Heap,
) -> Result<Calculated, NoMemory>
    ensures { IfOk result (λ c. c ≡ spec.children_in schema.now object field goes_on on.now heap.now) }
{
    match on {
        Value::Plain(_) => Ok(null_in_front(goes_on)),
        Value::Object(thing) => children_of_thing(alloc, schema, object, field, heap.get(*thing)),
    }
}
