// Records of the heap that are made and saved.

ghost use Rattle.std.specs.Prelude.{◌≡◌, ◌∷◌, [], Some, None, length, replicate, IfOk, OnOk};
ghost use Rattle.std.specs.Option.{option_copied};
ghost use Rattle.request_states.specs.Expressions.{with_pairs, known as known_of, width as width_of};
ghost use Rattle.request_states.specs.Statements as spec;
ghost use Rattle.stack_code.specs.Things.{paired};

use apex_list::Items;
use apex_num::{Cell, Id, NoMemory, copy_list};
use apex_requests::SaveRow;
use apex_schema::Object;
use save_statements::RecordOutcome;
use std::alloc::Global;
use txn_heap::{Change, Heap, Ref, Thing, Value};
use typed_program::Saved;

// ---- the records of a statement

// The places of records; none where there is another value among them.
fn places_of(alloc: Global, values: &[Value]) -> Result<Option<Items<usize>>, NoMemory>
    ensures { IfOk result (λ places. places ≡ spec.places_of values.now) }
{
    let mut places = Items::new(alloc);
    for value in values {
        match value {
            Value::Object(thing) => places.push(thing.place)?,
            Value::Plain(_) => return Ok(None),
        }
    }
    Ok(Some(places))
}

// The places of the records of a list.
fn places_in(alloc: Global, thing: Option<&Thing>) -> Result<Option<Items<usize>>, NoMemory>
    ensures { IfOk result (λ places. places ≡ spec.places_in (option_copied thing.entry)) }
{
    match thing {
        Some(Thing::List(values)) => places_of(alloc, values.as_slice()),
        _ => Ok(None),
    }
}

// One place.
fn one_place(alloc: Global, place: usize) -> Result<Items<usize>, NoMemory>
    ensures { IfOk result (λ places. places ≡ place ∷ []) }
{
    let mut places = Items::new(alloc);
    places.push(place)?;
    Ok(places)
}

/// The object of the records that a statement saves, and where they are in the heap; none where a value isn't a record or a
/// list of records.
pub fn records_of(
    alloc: Global,
    saved: Saved,
    value: &Value,
    heap: &Heap,
) -> Result<Option<(usize, Items<usize>)>, NoMemory>
    ensures { IfOk result (λ records. records ≡ spec.records_of saved value.now heap.now) }
{
    let Value::Object(thing) = value else {
        return Ok(None);
    };
    match saved {
        Saved::One(object) => Ok(Some((object, one_place(alloc, thing.place)?))),
        Saved::Many(object) => match places_in(alloc, heap.get(*thing))? {
            Some(places) => Ok(Some((object, places))),
            None => Ok(None),
        },
        Saved::Nothing => Ok(None),
    }
}

// The Id that a record knows.
fn id_in(cells: &[Option<Cell>]) -> Option<Id>
    ensures { result ≡ spec.id_in cells.now }
{
    match cells.first() {
        Some(Some(Cell::Id(id))) => Some(*id),
        _ => None,
    }
}

// What of a record is saved.
fn row_in(alloc: Global, place: usize, thing: Option<&Thing>) -> Result<SaveRow, NoMemory>
    ensures { IfOk result (λ row. row ≡ spec.row_in place (option_copied thing.entry)) }
{
    match thing {
        Some(Thing::Record(record)) => Ok(SaveRow {
            key: place,
            id: id_in(record.cells.as_slice()),
            cells: copy_list(&record.cells)?,
        }),
        _ => Ok(SaveRow {
            key: place,
            id: None,
            cells: Items::new(alloc),
        }),
    }
}

/// What of the records at these places is saved.
pub fn rows_in(alloc: Global, heap: &Heap, places: &[usize]) -> Result<Items<SaveRow>, NoMemory>
    ensures { IfOk result (λ rows. rows ≡ spec.rows_in heap.now places.now) }
{
    let mut rows = Items::new(alloc);
    for place in places {
        rows.push(row_in(alloc, *place, heap.get(Ref { place: *place }))?)?;
    }
    Ok(rows)
}

// A record that was saved has its Id.
fn name_record(place: usize, outcome: &RecordOutcome, heap: &mut Heap) -> Result<(), NoMemory>
    ensures { OnOk result (heap.new ≡ spec.name_record place outcome.now heap.old) }
{
    match outcome {
        RecordOutcome::Done(id) => heap.change(Ref { place }, Change::Know(0, Cell::Id(*id))),
        RecordOutcome::Failed(_) => Ok(()),
    }
}

/// Those of the records at these places that were saved have their Ids.
pub fn name_records(
    places: &[usize],
    outcomes: &[RecordOutcome],
    heap: &mut Heap,
) -> Result<(), NoMemory>
    ensures { OnOk result (heap.new ≡ spec.name_records places.now outcomes.now heap.old) }
{
    for i in 0..places.len() {
        let Some(outcome) = outcomes.get(i) else {
            return Ok(());
        };
        name_record(places[i], outcome, heap)?;
    }
    Ok(())
}

// ---- new records

// What a record knows of a value.
fn known(value: Value) -> Option<Cell>
    ensures { result ≡ known_of value }
{
    match value {
        Value::Plain(cell) => Some(cell),
        Value::Object(_) => None,
    }
}

// How many fields an object has.
fn width(object: Option<&Object>) -> usize
    ensures { result ≡ width_of (option_copied object.entry) }
{
    match object {
        None => 0,
        Some(object) => object.fields.len(),
    }
}

fn nothing_known(alloc: Global, width: usize) -> Result<Items<Option<Cell>>, NoMemory>
    ensures { IfOk result (λ cells. cells ≡ replicate width None) }
{
    let mut cells = Items::new(alloc);
    'fill: for i in 0..width {
        cells.push(None)?;
    }
    Ok(cells)
}

/// The cells of a new record that knows these fields.
pub fn new_cells(
    alloc: Global,
    object: Option<&Object>,
    fields: &[usize],
    values: Vec<Value>,
) -> Result<Items<Option<Cell>>, NoMemory>
    ensures { IfOk result (λ cells. cells ≡ with_pairs (paired fields.now values.items) (replicate (width_of (option_copied object.entry)) None)) }
{
    let mut cells = nothing_known(alloc, width(object))?;
    let mut i = 0;
    for value in values {
        let Some(field) = fields.get(i) else {
            return Ok(cells);
        };
        if *field < cells.len() {
            cells.set(*field, known(value));
        }
        i += 1;
    }
    Ok(cells)
}

/// How many fields have a value.
#[tactic(auto, using(crate::proofs::Lists::length_paired))]
pub fn pair_count(fields: &[usize], values: &[Value]) -> usize
    ensures { result ≡ length (paired fields.now values.now) }
{
    fields.len().min(values.len())
}
