// Values as receivers, arguments and answers of methods.

ghost use Rattle.std.specs.Prelude.{◌≡◌, ◌<◌, ◌^◌, length, map, IfOk, IfSome, MatchResult, IsErr};
ghost use Rattle.std.specs.Option.{option_copied};
ghost use Rattle.heap_methods.specs.Operands as spec;

use apex_list::Items;
use apex_num::{Cell, NoMemory};
use std::alloc::Global;
use txn_heap::{Heap, Thing, Value, copy_cells};

/// Where a position leads in a list.
#[derive(Clone, Copy, PartialEq, Eq, Drop)]
pub enum Place {
    /// To this place, from 0.
    Within(usize),
    /// Nowhere.
    Outside(i64),
    /// The position is null.
    Missing,
}

pub(crate) fn null() -> Value
    ensures { result ≡ spec.null }
{
    Value::Plain(Cell::Null)
}

pub(crate) fn truth(b: bool) -> Value
    ensures { result ≡ spec.truth b }
{
    Value::Plain(Cell::Bool(b))
}

pub(crate) fn count(n: usize) -> Value
    requires { n < 2 ^ 63 }
    ensures { result ≡ spec.count n }
{
    Value::Plain(Cell::Whole(n as i64))
}

/// A copy of a value, or null.
pub(crate) fn copy_or_null(value: Option<&Value>) -> Result<Value, NoMemory>
    ensures { IfOk result (λ v. v ≡ spec.or_null (option_copied value.entry)) }
{
    match value {
        None => Ok(null()),
        Some(value) => value.copy(),
    }
}

/// The place of a position where so many are right.
pub(crate) fn place_in(size: usize, position: &Value) -> Place
    ensures { result ≡ spec.place_in size position.now }
{
    match position {
        Value::Plain(Cell::Whole(n)) => whole_place(size, *n),
        _ => Place::Missing,
    }
}

fn whole_place(size: usize, n: i64) -> Place
    ensures { result ≡ spec.place_in size (spec.whole n) }
{
    if n < 0 {
        return Place::Outside(n);
    }
    let at = n as usize;
    if at < size {
        Place::Within(at)
    } else {
        Place::Outside(n)
    }
}

/// The element or key that a value is.
pub(crate) fn key_of(value: &Value) -> Result<Cell, NoMemory>
    ensures { IfOk result (λ key. key ≡ spec.key_of value.now) }
{
    match value {
        Value::Plain(cell) => cell.copy(),
        Value::Object(_) => Ok(Cell::Null),
    }
}

/// Whether two values are the same.
pub(crate) fn same_value(a: &Value, b: &Value) -> bool
    ensures { result ≡ spec.same_value a.now b.now }
{
    match (a, b) {
        (Value::Plain(a), Value::Plain(b)) => *a == *b,
        (Value::Object(a), Value::Object(b)) => a.place == b.place,
        _ => false,
    }
}

/// The thing that an argument names.
pub(crate) fn thing_at<'a>(heap: &'a Heap, value: &Value) -> Option<&'a Thing>
    ensures { option_copied result ≡ spec.thing_at heap.now value.now }
{
    match value {
        Value::Plain(_) => None,
        Value::Object(thing) => heap.get(*thing),
    }
}

/// A place as an answer, or -1.
pub(crate) fn place_or(place: Option<usize>) -> Value
    requires { IfSome place (λ n. n < 2 ^ 63) }
    ensures { result ≡ spec.place_or place }
{
    match place {
        Some(n) => count(n),
        None => Value::Plain(Cell::Whole(-1)),
    }
}

/// The elements or keys that values are.
pub(crate) fn keys_of_values(alloc: Global, values: &[Value]) -> Result<Items<Cell>, NoMemory>
    ensures { IfOk result (λ keys. keys ≡ map spec.key_of values.now) }
{
    let mut keys = Items::new(alloc);
    for value in values {
        keys.push(key_of(value)?)?;
    }
    Ok(keys)
}

/// A copy of the elements of a list or a set, or `None` for another thing.
pub(crate) fn copy_elements(
    alloc: Global,
    thing: Option<&Thing>,
) -> Result<Option<Items<Cell>>, NoMemory>
    ensures { IfOk result (λ keys. keys ≡ spec.as_elements (option_copied thing.entry)) }
{
    match thing {
        Some(Thing::List(items)) => some(keys_of_values(alloc, items.as_slice())),
        Some(Thing::Set(keys)) => some(copy_cells(alloc, keys.as_slice())),
        _ => Ok(None),
    }
}

fn some(keys: Result<Items<Cell>, NoMemory>) -> Result<Option<Items<Cell>>, NoMemory>
    ensures { MatchResult keys (λ k. result ≡ Ok (Some k)) (λ _. IsErr result) }
{
    Ok(Some(keys?))
}
