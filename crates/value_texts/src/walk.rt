// The walk through a value. The collections that are open stand on a stack of its own, so that no depth is too much for it.

ghost use Rattle.std.specs.Prelude.{◌≡◌, ◌<◌, ◌≤◌, ◌+◌, ◌++◌, ℕ, List, suc, ◌∷◌, [], length, eqb, codes, slice_get, slice_index_or, OnOk, MatchResult, Some, string_bytes};
ghost use Rattle.std.specs.Map.{keys_of, values_of};
ghost use Rattle.apex_num.specs.declared.cell.Cell.TheVariants as C;
ghost use Rattle.apex_num.specs.declared.kind.LimitKind.TheVariants.{Alloc};
ghost use Rattle.builtin_table.specs.Shown.{shown};
ghost use Rattle.limit_meter.specs.Charges.{limit_of};
ghost use Rattle.txn_heap.specs.declared.thing.Value.{Value as TheValue};
ghost use Rattle.txn_heap.specs.declared.thing.Value.TheVariants.{Plain};
ghost use Rattle.value_texts.specs.Pieces.{Tells, Opens, Walks, Comes, closing, item_texts, rest_of, seen_at, pends, effort};
ghost use Rattle.value_texts.specs.Texts as spec;

use crate::line::{Line, TextEnd, push, push_cell, push_comma};
use crate::record::push_record;
use apex_list::Stack;
use apex_num::{Cell, Text};
use apex_schema::Schema;
use std::alloc::Global;
use txn_heap::{Entries, Heap, Ref, Thing, Value};

/// What the walk goes through: the schema, the names of classes and the things.
#[derive(Clone, Copy, Drop)]
pub(crate) struct Scene<'a> {
    pub schema: &'a Schema,
    pub classes: &'a [Text],
    pub heap: &'a Heap,
}

/// A collection that is open: its place, and the item that comes next.
#[derive(Clone, Copy, Drop)]
pub(crate) struct Rest {
    pub place: usize,
    pub next: usize,
}

// How many items a collection has; other things have none.
fn count(thing: &Thing) -> usize
    ensures { (text : TheValue → List ℕ) → result ≡ length (item_texts text thing.now) }
{
    match thing {
        Thing::List(items) => items.len(),
        Thing::Set(keys) => keys.as_slice().len(),
        Thing::Map(entries) => entries.keys().len(),
        _ => 0,
    }
}

// The bracket behind the items of a collection.
fn closing(thing: &Thing) -> &'static str
    ensures { result.now ≡ closing thing.now }
{
    match thing {
        Thing::List(_) => ")",
        Thing::Set(_) | Thing::Map(_) => "}",
        _ => "",
    }
}

// The name of a class.
fn push_class(classes: &[Text], class: usize, line: &mut Line) -> Result<(), TextEnd>
    ensures { Tells (spec.name_of (slice_get classes.now class)) line.old line.new result }
{
    match classes.get(class) {
        None => Ok(()),
        Some(name) => push(name.as_str(), line),
    }
}

// The bracket before the items of a collection, which are to come.
fn open(sign: &str, place: usize, line: &mut Line, stack: &mut Stack<Rest>) -> Result<(), TextEnd>
    ensures line { Tells sign.now line.old line.new result }
    ensures stack { OnOk result (stack.new ≡ record { place = place; next = 0 } ∷ stack.old) }
{
    push(sign, line)?;
    stack.push(Rest { place, next: 0 })?;
    Ok(())
}

// A thing. Of a collection the bracket is put behind the line, and the items are to come.
fn tell_thing(
    alloc: Global,
    scene: &Scene<'_>,
    place: usize,
    line: &mut Line,
    stack: &mut Stack<Rest>,
) -> Result<(), TextEnd>
    ensures { Walks scene.now (spec.thing_text (seen_at scene.now (suc (length stack.old))) scene.now.schema.now scene.now.classes.now (slice_get scene.now.heap.now place)) line.old stack.old line.new stack.new result }
{
    match scene.heap.get(Ref { place }) {
        None => Ok(()),
        Some(Thing::Record(record)) => push_record(alloc, scene.schema, record, line),
        Some(Thing::Instance(instance)) => push_class(scene.classes, instance.class, line),
        Some(Thing::Exception(exception)) => push(exception.class.name(), line),
        Some(Thing::Guard(_)) => Ok(()),
        Some(Thing::List(_)) => open("(", place, line, stack),
        Some(Thing::Set(_)) => open("{", place, line, stack),
        Some(Thing::Map(_)) => open("{", place, line, stack),
    }
}

// A value in the collections that are open.
fn tell(
    alloc: Global,
    scene: &Scene<'_>,
    value: &Value,
    line: &mut Line,
    stack: &mut Stack<Rest>,
) -> Result<(), TextEnd>
    requires deep { length stack.old < limit_of Alloc }
    ensures { Walks scene.now (seen_at scene.now (length stack.old) value.now) line.old stack.old line.new stack.new result }
{
    match value {
        Value::Plain(cell) => push_cell(alloc, cell, line),
        Value::Object(thing) => tell_thing(alloc, scene, thing.place, line, stack),
    }
}

// The value at a place of a list.
fn tell_value(
    alloc: Global,
    scene: &Scene<'_>,
    values: &[Value],
    n: usize,
    line: &mut Line,
    stack: &mut Stack<Rest>,
) -> Result<(), TextEnd>
    requires deep { length stack.old < limit_of Alloc }
    requires within { n < length values.now }
    ensures { Walks scene.now (seen_at scene.now (length stack.old) (slice_index_or values.now n (Plain C.Null))) line.old stack.old line.new stack.new result }
{
    tell(alloc, scene, &values[n], line, stack)
}

// The element at a place of a set, or the key at one of a map.
fn push_key(alloc: Global, keys: &[Cell], n: usize, line: &mut Line) -> Result<(), TextEnd>
    requires within { n < length keys.now }
    ensures { Tells (shown (slice_index_or keys.now n C.Null)) line.old line.new result }
{
    push_cell(alloc, &keys[n], line)
}

// The entry at a place of a map.
fn tell_entry(
    alloc: Global,
    scene: &Scene<'_>,
    entries: &Entries,
    n: usize,
    line: &mut Line,
    stack: &mut Stack<Rest>,
) -> Result<(), TextEnd>
    requires deep { length stack.old < limit_of Alloc }
    requires keys { n < length (keys_of entries.now) }
    requires values { n < length (values_of entries.now) }
    ensures { Walks scene.now (shown (slice_index_or (keys_of entries.now) n C.Null) ++ codes "=" ++ seen_at scene.now (length stack.old) (slice_index_or (values_of entries.now) n (Plain C.Null))) line.old stack.old line.new stack.new result }
{
    push_key(alloc, entries.keys(), n, line)?;
    push("=", line)?;
    tell_value(alloc, scene, entries.values(), n, line, stack)
}

// An item of a collection.
fn tell_item(
    alloc: Global,
    scene: &Scene<'_>,
    thing: &Thing,
    n: usize,
    line: &mut Line,
    stack: &mut Stack<Rest>,
) -> Result<(), TextEnd>
    requires deep { length stack.old < limit_of Alloc }
    requires within { n < length (item_texts (seen_at scene.now (length stack.old)) thing.now) }
    ensures { Walks scene.now (slice_index_or (item_texts (seen_at scene.now (length stack.old)) thing.now) n []) line.old stack.old line.new stack.new result }
{
    match thing {
        Thing::List(items) => tell_value(alloc, scene, items.as_slice(), n, line, stack),
        Thing::Set(keys) => push_key(alloc, keys.as_slice(), n, line),
        Thing::Map(entries) => tell_entry(alloc, scene, entries, n, line, stack),
        _ => Ok(()),
    }
}

// The next item of a collection, with a comma before all but the first one, or the bracket behind them.
fn tell_next(
    alloc: Global,
    scene: &Scene<'_>,
    thing: &Thing,
    rest: Rest,
    line: &mut Line,
    stack: &mut Stack<Rest>,
) -> Result<(), TextEnd>
    requires deep { suc (length stack.old) < limit_of Alloc }
    requires there { slice_get scene.now.heap.now rest.place ≡ Some thing.now }
    ensures text { Opens (pends scene.now) (rest_of (seen_at scene.now (suc (length stack.old))) rest.next (Some thing.now)) line.old stack.old line.new stack.new result }
    ensures height { OnOk result (length stack.new + length (string_bytes line.old.text) ≤ suc (length stack.old) + length (string_bytes line.new.text)) }
    ensures effort { OnOk result (effort line.new.left stack.new < effort line.old.left (rest ∷ stack.old)) }
{
    if rest.next >= count(thing) {
        return push(closing(thing), line);
    }
    push_comma(rest.next == 0, line)?;
    stack.push(Rest {
        place: rest.place,
        next: rest.next + 1,
    })?;
    tell_item(alloc, scene, thing, rest.next, line, stack)
}

// What is to come of the innermost collection, up to the end of its next item.
fn go_on(
    alloc: Global,
    scene: &Scene<'_>,
    rest: Rest,
    line: &mut Line,
    stack: &mut Stack<Rest>,
) -> Result<(), TextEnd>
    requires deep { suc (length stack.old) < limit_of Alloc }
    ensures text { Opens (pends scene.now) (rest_of (seen_at scene.now (suc (length stack.old))) rest.next (slice_get scene.now.heap.now rest.place)) line.old stack.old line.new stack.new result }
    ensures height { OnOk result (length stack.new + length (string_bytes line.old.text) ≤ suc (length stack.old) + length (string_bytes line.new.text)) }
    ensures effort { OnOk result (effort line.new.left stack.new < effort line.old.left (rest ∷ stack.old)) }
{
    match scene.heap.get(Ref { place: rest.place }) {
        None => Ok(()),
        Some(thing) => tell_next(alloc, scene, thing, rest, line, stack),
    }
}

/// The text of a value, where it has no more than so many bytes.
pub(crate) fn walk(
    alloc: Global,
    scene: &Scene<'_>,
    value: &Value,
    most: usize,
) -> Result<String, TextEnd>
    requires small { most + 1 < limit_of Alloc }
    ensures { Comes (λ s. string_bytes s) most (spec.text_of scene.now.schema.now scene.now.classes.now scene.now.heap.now value.now) result }
{
    let mut line = Line {
        text: String::new(alloc),
        left: most,
    };
    let mut stack = Stack::new(alloc);
    tell(alloc, scene, value, &mut line, &mut stack)?;
    while let Some(rest) = stack.pop() {
        go_on(alloc, scene, rest, &mut line, &mut stack)?;
    }
    Ok(line.text)
}
