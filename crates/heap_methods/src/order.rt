// The order of `sort`.

ghost use Rattle.std.specs.Prelude.{◌≡◌, IfOk};
ghost use Rattle.std.specs.Cmp.Lexicographic.{slice_cmp};
ghost use Rattle.std.specs.Ordering.{nat_cmp, int_cmp};
ghost use Rattle.heap_methods.specs.Order as spec;

use apex_list::Items;
use apex_num::{Cell, NoMemory, copy_list};
use std::cmp::Ordering;
use txn_heap::Value;

fn cell_kind(cell: &Cell) -> u8
    ensures { result ≡ spec.cell_kind cell.now }
{
    match cell {
        Cell::Null => 0,
        Cell::Bool(_) => 1,
        Cell::Whole(_) => 2,
        Cell::Num(_) => 3,
        Cell::Text(_) => 4,
        Cell::Id(_) => 5,
        Cell::Day(_) => 6,
        Cell::Moment(_) => 7,
    }
}

fn kind(value: &Value) -> u8
    ensures { result ≡ spec.kind value.now }
{
    match value {
        Value::Plain(cell) => cell_kind(cell),
        Value::Object(_) => 8,
    }
}

fn cell_number(cell: &Cell) -> i128
    ensures { result ≡ spec.cell_number cell.now }
{
    match cell {
        Cell::Bool(true) => 1,
        Cell::Whole(n) => i128::from(*n),
        Cell::Num(d) => d.millionths(),
        Cell::Day(n) => i128::from(*n),
        Cell::Moment(n) => i128::from(*n),
        _ => 0,
    }
}

fn number(value: &Value) -> i128
    ensures { result ≡ spec.number value.now }
{
    match value {
        Value::Plain(cell) => cell_number(cell),
        Value::Object(thing) => thing.place as i128,
    }
}

fn with_bytes(bytes: &[u8], value: &Value) -> Ordering
    ensures { result ≡ slice_cmp nat_cmp bytes.now (spec.bytes value.now) }
{
    match value {
        Value::Plain(Cell::Text(text)) => compare_bytes(bytes, text.bytes()),
        Value::Plain(Cell::Id(id)) => compare_bytes(bytes, id.bytes().as_slice()),
        _ => compare_bytes(bytes, &[]),
    }
}

fn compare_bytes(a: &[u8], b: &[u8]) -> Ordering
    ensures { result ≡ slice_cmp nat_cmp a.now b.now }
{
    a.cmp(&b)
}

fn by_bytes(a: &Value, b: &Value) -> Ordering
    ensures { result ≡ slice_cmp nat_cmp (spec.bytes a.now) (spec.bytes b.now) }
{
    match a {
        Value::Plain(Cell::Text(text)) => with_bytes(text.bytes(), b),
        Value::Plain(Cell::Id(id)) => with_bytes(id.bytes().as_slice(), b),
        _ => with_bytes(&[], b),
    }
}

fn compared(a: &Value, b: &Value) -> Ordering
    ensures { result ≡ spec.compared a.now b.now }
{
    match kind(a).cmp(&kind(b)) {
        Ordering::Equal => match number(a).cmp(&number(b)) {
            Ordering::Equal => by_bytes(a, b),
            other => other,
        },
        other => other,
    }
}

/// The items of a list, sorted. Want of memory is the only error.
pub(crate) fn sorted(items: &Items<Value>) -> Result<Items<Value>, NoMemory>
    ensures { IfOk result (λ all. all ≡ spec.sorted items.now) }
{
    let mut all = copy_list(items)?.into_vec();
    all.sort_unstable_by(|a, b| compared(a, b));
    Ok(Items::of(all))
}
