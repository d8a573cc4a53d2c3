// Methods of lists.

ghost use Rattle.std.specs.Prelude.{◌≡◌, ◌+◌, ◌∷◌, ◌++◌, [], Some, length, insert, remove, position, slice_get, slice_set, IfOk};
ghost use Rattle.std.specs.List.{list_any};
ghost use Rattle.std.specs.Option.{option_copied};
ghost use Rattle.txn_heap.specs.declared.thing.Thing.TheVariants as T;
ghost use Rattle.builtin_table.specs.declared.method.ListMethod.TheVariants as M;
ghost use Rattle.heap_methods.specs.Lists as spec;
ghost use Rattle.heap_methods.specs.Operands.{same_value, as_list, null, or_null};
ghost use Rattle.heap_methods.specs.Outcomes.{Tells, Becomes, Makes};
ghost use Rattle.heap_methods.specs.Plans.{Plans};

use crate::operands::{
    Place, copy_or_null, count, null, place_in, place_or, same_value, thing_at, truth,
};
use crate::order::sorted;
use crate::plan::{Plan, Planned, null_object, out_of_bounds};
use apex_list::Items;
use apex_num::{NoMemory, copy_list};
use builtin_table::ListMethod;
use txn_heap::{Change, Heap, Thing, Value};

fn clone_list(items: &Items<Value>) -> Planned
    ensures { Plans (Makes (T.List items.now)) (Some (T.List items.now)) result }
{
    Ok(Plan::Makes(Thing::List(copy_list(items)?)))
}

fn sort_list(items: &Items<Value>) -> Planned
    ensures { Plans (spec.list_alone M.Sort items.now) (Some (T.List items.now)) result }
{
    Ok(Plan::Replaces(Thing::List(sorted(items)?), null()))
}

fn list_alone(which: ListMethod, items: &Items<Value>) -> Planned
    ensures { Plans (spec.list_alone which items.now) (Some (T.List items.now)) result }
{
    let size = items.as_slice().len();
    match which {
        ListMethod::Size => Ok(Plan::Tells(count(size))),
        ListMethod::IsEmpty => Ok(Plan::Tells(truth(size == 0))),
        ListMethod::Clear => Ok(Plan::Replaces(Thing::List(Items::new(items.allocator())), null())),
        ListMethod::Clone => clone_list(items),
        ListMethod::Sort => sort_list(items),
        _ => Err(null_object(items.allocator())),
    }
}

fn push(items: &Items<Value>, item: &Value) -> Planned
    ensures { Plans (Becomes (T.List (items.now ++ item.now ∷ [])) null) (Some (T.List items.now)) result }
{
    Ok(Plan::Changes(Change::Push(item.copy()?), null()))
}

fn append_list(items: &Items<Value>, more: &Items<Value>) -> Planned
    ensures { Plans (spec.append items.now (Some more.now)) (Some (T.List items.now)) result }
{
    Ok(Plan::Changes(Change::Append(copy_list(more)?), null()))
}

fn append(items: &Items<Value>, more: Option<&Items<Value>>) -> Planned
    ensures { Plans (spec.append items.now (option_copied more.entry)) (Some (T.List items.now)) result }
{
    match more {
        None => Err(null_object(items.allocator())),
        Some(more) => append_list(items, more),
    }
}

// The items of a list.
fn as_list(thing: Option<&Thing>) -> Option<&Items<Value>>
    ensures { option_copied result ≡ as_list (option_copied thing.entry) }
{
    match thing {
        Some(Thing::List(items)) => Some(items),
        _ => None,
    }
}

fn get_at(items: &Items<Value>, n: usize) -> Planned
    ensures { Plans (Tells (or_null (slice_get items.now n))) (Some (T.List items.now)) result }
{
    Ok(Plan::Tells(copy_or_null(items.get(n))?))
}

fn get(items: &Items<Value>, place: Place) -> Planned
    ensures { Plans (spec.at_place place (λ n. Tells (or_null (slice_get items.now n)))) (Some (T.List items.now)) result }
{
    match place {
        Place::Within(n) => get_at(items, n),
        Place::Outside(n) => Err(out_of_bounds(items.allocator(), n)),
        Place::Missing => Err(null_object(items.allocator())),
    }
}

fn remove_at(items: &Items<Value>, n: usize) -> Planned
    ensures { Plans (Becomes (T.List (remove items.now n)) (or_null (slice_get items.now n))) (Some (T.List items.now)) result }
{
    let item = copy_or_null(items.get(n))?;
    Ok(Plan::Changes(Change::RemoveAt(n), item))
}

fn remove(items: &Items<Value>, place: Place) -> Planned
    ensures { Plans (spec.at_place place (λ n. Becomes (T.List (remove items.now n)) (or_null (slice_get items.now n)))) (Some (T.List items.now)) result }
{
    match place {
        Place::Within(n) => remove_at(items, n),
        Place::Outside(n) => Err(out_of_bounds(items.allocator(), n)),
        Place::Missing => Err(null_object(items.allocator())),
    }
}

fn contains(items: &[Value], item: &Value) -> bool
    ensures { result ≡ list_any (same_value item.now) items.now }
{
    for other in items {
        if same_value(item, other) {
            return true;
        }
    }
    false
}

fn index_of(items: &[Value], item: &Value) -> Option<usize>
    ensures { result ≡ position (same_value item.now) items.now }
{
    items.iter().position(|other| same_value(item, other))
}

fn list_with(heap: &Heap, which: ListMethod, items: &Items<Value>, x: &Value) -> Planned
    ensures { Plans (spec.list_with which heap.now items.now x.now) (Some (T.List items.now)) result }
{
    let size = items.as_slice().len();
    match which {
        ListMethod::Add => push(items, x),
        ListMethod::AddAll => append(items, as_list(thing_at(heap, x))),
        ListMethod::Get => get(items, place_in(size, x)),
        ListMethod::Remove => remove(items, place_in(size, x)),
        ListMethod::Contains => Ok(Plan::Tells(truth(contains(items.as_slice(), x)))),
        ListMethod::IndexOf => Ok(Plan::Tells(place_or(index_of(items.as_slice(), x)))),
        _ => Err(null_object(items.allocator())),
    }
}

fn insert_at(items: &Items<Value>, n: usize, item: &Value) -> Planned
    ensures { Plans (Becomes (T.List (insert items.now n item.now)) null) (Some (T.List items.now)) result }
{
    Ok(Plan::Changes(Change::Insert(n, item.copy()?), null()))
}

fn insert(items: &Items<Value>, place: Place, item: &Value) -> Planned
    ensures { Plans (spec.at_place place (λ n. Becomes (T.List (insert items.now n item.now)) null)) (Some (T.List items.now)) result }
{
    match place {
        Place::Within(n) => insert_at(items, n, item),
        Place::Outside(n) => Err(out_of_bounds(items.allocator(), n)),
        Place::Missing => Err(null_object(items.allocator())),
    }
}

fn set_at(items: &Items<Value>, n: usize, item: &Value) -> Planned
    ensures { Plans (Becomes (T.List (slice_set items.now n item.now)) null) (Some (T.List items.now)) result }
{
    Ok(Plan::Changes(Change::Set(n, item.copy()?), null()))
}

fn set(items: &Items<Value>, place: Place, item: &Value) -> Planned
    ensures { Plans (spec.at_place place (λ n. Becomes (T.List (slice_set items.now n item.now)) null)) (Some (T.List items.now)) result }
{
    match place {
        Place::Within(n) => set_at(items, n, item),
        Place::Outside(n) => Err(out_of_bounds(items.allocator(), n)),
        Place::Missing => Err(null_object(items.allocator())),
    }
}

fn list_with_two(which: ListMethod, items: &Items<Value>, x: &Value, y: &Value) -> Planned
    ensures { Plans (spec.list_with_two which items.now x.now y.now) (Some (T.List items.now)) result }
{
    let size = items.as_slice().len();
    match which {
        ListMethod::Insert => insert(items, place_in(size + 1, x), y),
        ListMethod::Set => set(items, place_in(size, x), y),
        _ => Err(null_object(items.allocator())),
    }
}

/// A call of a method of a list.
pub(crate) fn list_method(
    heap: &Heap,
    which: ListMethod,
    items: &Items<Value>,
    args: &[Value],
) -> Planned
    ensures { Plans (spec.list_method which heap.now items.now args.now) (Some (T.List items.now)) result }
{
    match args {
        [] => list_alone(which, items),
        [x] => list_with(heap, which, items, x),
        [x, y] => list_with_two(which, items, x, y),
        _ => Err(null_object(items.allocator())),
    }
}
