// Comparisons.

ghost use Rattle.std.specs.Prelude.{◌≡◌};
ghost use Rattle.apex_num.specs.declared.cell.Cell.TheVariants as C;
ghost use Rattle.txn_heap.specs.declared.thing.Value.TheVariants.{Plain, Object};
ghost use Rattle.value_operators.specs.Operators as spec;

use apex_num::{Cell, Dec, Id, Text};
use txn_heap::{Ref, Value};
use typed_program::Order;

fn same_as_null(d: &Cell) -> bool
    ensures { result ≡ spec.same_cell C.Null d.now }
{
    match d {
        Cell::Null => true,
        _ => false,
    }
}

fn same_truth(a: bool, d: &Cell) -> bool
    ensures { result ≡ spec.same_cell (C.Bool a) d.now }
{
    match d {
        Cell::Bool(b) => a == *b,
        _ => false,
    }
}

fn same_whole(a: i64, d: &Cell) -> bool
    ensures { result ≡ spec.same_cell (C.Whole a) d.now }
{
    match d {
        Cell::Whole(b) => a == *b,
        _ => false,
    }
}

fn same_decimal(a: Dec, d: &Cell) -> bool
    ensures { result ≡ spec.same_cell (C.Num a) d.now }
{
    match d {
        Cell::Num(b) => a.millionths() == b.millionths(),
        _ => false,
    }
}

fn same_text(a: &Text, d: &Cell) -> bool
    ensures { result ≡ spec.same_cell (C.Text a.now) d.now }
{
    match d {
        Cell::Text(b) => a.as_str().eq_ignore_ascii_case(b.as_str()),
        _ => false,
    }
}

fn same_id(a: &Id, d: &Cell) -> bool
    ensures { result ≡ spec.same_cell (C.Id a.now) d.now }
{
    match d {
        Cell::Id(b) => a.bytes().as_slice() == b.bytes().as_slice(),
        _ => false,
    }
}

fn same_day(a: i32, d: &Cell) -> bool
    ensures { result ≡ spec.same_cell (C.Day a) d.now }
{
    match d {
        Cell::Day(b) => a == *b,
        _ => false,
    }
}

fn same_moment(a: i64, d: &Cell) -> bool
    ensures { result ≡ spec.same_cell (C.Moment a) d.now }
{
    match d {
        Cell::Moment(b) => a == *b,
        _ => false,
    }
}

fn same_cell(c: &Cell, d: &Cell) -> bool
    ensures { result ≡ spec.same_cell c.now d.now }
{
    match c {
        Cell::Null => same_as_null(d),
        Cell::Bool(a) => same_truth(*a, d),
        Cell::Whole(a) => same_whole(*a, d),
        Cell::Num(a) => same_decimal(*a, d),
        Cell::Text(a) => same_text(a, d),
        Cell::Id(a) => same_id(a, d),
        Cell::Day(a) => same_day(*a, d),
        Cell::Moment(a) => same_moment(*a, d),
    }
}

fn with_cell(c: &Cell, w: &Value) -> bool
    ensures { result ≡ spec.equal (Plain c.now) w.now }
{
    match w {
        Value::Plain(d) => same_cell(c, d),
        Value::Object(_) => false,
    }
}

fn with_thing(r: Ref, w: &Value) -> bool
    ensures { result ≡ spec.equal (Object r) w.now }
{
    match w {
        Value::Object(s) => r.place == s.place,
        Value::Plain(_) => false,
    }
}

/// Whether two values are equal.
pub(crate) fn equal(v: &Value, w: &Value) -> bool
    ensures { result ≡ spec.equal v.now w.now }
{
    match v {
        Value::Plain(c) => with_cell(c, w),
        Value::Object(r) => with_thing(*r, w),
    }
}

fn stands(o: Order, x: i128, y: i128) -> bool
    ensures { result ≡ spec.stands o x y }
{
    match o {
        Order::Less => x < y,
        Order::AtMost => x <= y,
        Order::More => x > y,
        Order::AtLeast => x >= y,
    }
}

fn whole_before(o: Order, x: i64, w: &Value) -> bool
    ensures { result ≡ spec.in_order o (Plain (C.Whole x)) w.now }
{
    match w {
        Value::Plain(Cell::Whole(y)) => stands(o, i128::from(x), i128::from(*y)),
        _ => false,
    }
}

fn decimal_before(o: Order, x: Dec, w: &Value) -> bool
    ensures { result ≡ spec.in_order o (Plain (C.Num x)) w.now }
{
    match w {
        Value::Plain(Cell::Num(y)) => stands(o, x.millionths(), y.millionths()),
        _ => false,
    }
}

fn day_before(o: Order, x: i32, w: &Value) -> bool
    ensures { result ≡ spec.in_order o (Plain (C.Day x)) w.now }
{
    match w {
        Value::Plain(Cell::Day(y)) => stands(o, i128::from(x), i128::from(*y)),
        _ => false,
    }
}

fn moment_before(o: Order, x: i64, w: &Value) -> bool
    ensures { result ≡ spec.in_order o (Plain (C.Moment x)) w.now }
{
    match w {
        Value::Plain(Cell::Moment(y)) => stands(o, i128::from(x), i128::from(*y)),
        _ => false,
    }
}

/// Whether two values stand in this order.
pub(crate) fn in_order(o: Order, v: &Value, w: &Value) -> bool
    ensures { result ≡ spec.in_order o v.now w.now }
{
    match v {
        Value::Plain(Cell::Whole(x)) => whole_before(o, *x, w),
        Value::Plain(Cell::Num(x)) => decimal_before(o, *x, w),
        Value::Plain(Cell::Day(x)) => day_before(o, *x, w),
        Value::Plain(Cell::Moment(x)) => moment_before(o, *x, w),
        _ => false,
    }
}
