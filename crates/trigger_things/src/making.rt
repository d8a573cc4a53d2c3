// The things of a firing.

ghost use Rattle.std.specs.Prelude.{◌≡◌, ◌<◌, ◌^◌, ◌∷◌, ◌++◌, [], true, length, not, IfOk, OnOk};
ghost use Rattle.apex_num.specs.declared.cell.Cell.TheVariants as C;
ghost use Rattle.heap_methods.specs.Operands.{count, truth};
ghost use Rattle.txn_heap.specs.Words.{with_entries};
ghost use Rattle.txn_heap.specs.declared.thing.Thing.TheVariants as T;
ghost use Rattle.trigger_things.specs.Collected.{IsCollected};
ghost use Rattle.trigger_things.specs.Things as spec;

use crate::records::{Made, make_records, new_guard, old_guard};
use crate::variables::{add_facts, has_new, has_new_map, has_old, own_count};
use apex_list::Items;
use apex_num::{Cell, NoMemory};
use apex_requests::{Context, Op};
use std::alloc::Global;
use txn_heap::{Entries, Guard, Heap, Instance, Ref, Thing, Value};

// A list or a map that nobody may change.
fn make_fixed(heap: &mut Heap, thing: Thing) -> Result<Value, NoMemory>
    ensures things { OnOk result (heap.new ≡ heap.old ++ spec.fixed_if true thing) }
    ensures value { IfOk result (λ v. v ≡ spec.at_if true (length heap.old)) }
{
    heap.make(Thing::Guard(Guard::Fixed))?;
    let on = heap.make(thing)?;
    Ok(Value::Object(on))
}

// The list of records, where there is one.
fn make_list(heap: &mut Heap, is_there: bool, records: Items<Value>) -> Result<Value, NoMemory>
    ensures things { OnOk result (heap.new ≡ heap.old ++ spec.fixed_if is_there (T.List records)) }
    ensures value { IfOk result (λ v. v ≡ spec.at_if is_there (length heap.old)) }
{
    if is_there {
        make_fixed(heap, Thing::List(records))
    } else {
        Ok(Value::Plain(Cell::Null))
    }
}

// The map of records, where there is one.
fn make_map(
    heap: &mut Heap,
    is_there: bool,
    records: Items<(Cell, Value)>,
) -> Result<Value, NoMemory>
    ensures things { OnOk result (heap.new ≡ heap.old ++ spec.fixed_if is_there (T.Map (with_entries [] records))) }
    ensures value { IfOk result (λ v. v ≡ spec.at_if is_there (length heap.old)) }
{
    if is_there {
        let entries = Entries::of(heap.allocator(), records)?;
        make_fixed(heap, Thing::Map(entries))
    } else {
        Ok(Value::Plain(Cell::Null))
    }
}

fn four_of(
    alloc: Global,
    one: Value,
    two: Value,
    three: Value,
    four: Value,
) -> Result<Items<Value>, NoMemory>
    ensures { IfOk result (λ all. all ≡ one ∷ two ∷ three ∷ four ∷ []) }
{
    let mut all = Items::new(alloc);
    all.push(one)?;
    all.push(two)?;
    all.push(three)?;
    all.push(four)?;
    Ok(all)
}

// The lists and maps of the records, and the variables that name them.
fn make_collections(
    heap: &mut Heap,
    op: Op,
    before: bool,
    news: Made,
    olds: Made,
) -> Result<Items<Value>, NoMemory>
    ensures { IfOk result (λ variables. IsCollected op before news olds heap.old heap.new variables) }
{
    let new_list = make_list(heap, has_new(op), news.list)?;
    let old_list = make_list(heap, has_old(op), olds.list)?;
    let new_map = make_map(heap, has_new_map(op, before), news.by_id)?;
    let old_map = make_map(heap, has_old(op), olds.by_id)?;
    let variables = four_of(heap.allocator(), new_list, old_list, new_map, old_map)?;
    Ok(variables)
}

// What has the variables.
fn make_this(heap: &mut Heap, variables: Items<Value>) -> Result<Ref, NoMemory>
    ensures things { OnOk result (heap.new ≡ heap.old ++ T.Instance (record { class = 0; message = C.Null; fields = variables }) ∷ []) }
    ensures at { IfOk result (λ made. made.place ≡ length heap.old) }
{
    heap.make(Thing::Instance(Instance {
        class: 0,
        message: Cell::Null,
        fields: variables,
    }))
}

/// Makes the things that a trigger sees, behind the others: copies of the rows, whose cells are moved, the lists and maps of them,
/// and what has its variables, which is the answer. Want of memory is the only error.
pub fn make_things(heap: &mut Heap, context: Context) -> Result<Ref, NoMemory>
    ensures things { OnOk result (heap.new ≡ heap.old ++ spec.things (length heap.old) context) }
    ensures this { IfOk result (λ made. made.place ≡ spec.this_place (length heap.old) context) }
{
    let size = own_count(&context);
    let Context {
        op,
        before,
        news,
        olds,
    } = context;
    let news = make_records(heap, &new_guard(before), news)?;
    let olds = make_records(heap, &old_guard(op), olds)?;
    let mut variables = make_collections(heap, op, before, news, olds)?;
    add_facts(op, before, size, &mut variables)?;
    let this = make_this(heap, variables)?;
    Ok(this)
}
