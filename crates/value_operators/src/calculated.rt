// What an operator gives.

ghost use Rattle.std.specs.Prelude.{◌≡◌, ◌||◌};
ghost use Rattle.txn_heap.specs.declared.thing.Value.TheVariants.{Plain};
ghost use Rattle.value_operators.specs.declared.calculated.Calculated.TheVariants.{Val};
ghost use Rattle.value_operators.specs.Operators as spec;

use apex_num::Cell;
use platform_errors::Thrown;
use txn_heap::Value;

/// A value, or what is thrown in its place.
#[derive(Drop)]
pub enum Calculated {
    Val(Value),
    Fails(Thrown),
}

pub(crate) fn plain(cell: Cell) -> Calculated
    ensures { result ≡ Val (Plain cell) }
{
    Calculated::Val(Value::Plain(cell))
}

pub(crate) fn boolean(b: bool) -> Calculated
    ensures { result ≡ spec.boolean b }
{
    plain(Cell::Bool(b))
}

fn is_null(v: &Value) -> bool
    ensures { result ≡ spec.is_null v.now }
{
    match v {
        Value::Plain(Cell::Null) => true,
        _ => false,
    }
}

pub(crate) fn some_null(v: &Value, w: &Value) -> bool
    ensures { result ≡ spec.is_null v.now || spec.is_null w.now }
{
    is_null(v) || is_null(w)
}

/// The truth of a condition; `None` of null, at which the condition throws.
pub fn truth(v: &Value) -> Option<bool>
    ensures { result ≡ spec.truth v.now }
{
    match v {
        Value::Plain(Cell::Bool(b)) => Some(*b),
        _ => None,
    }
}
