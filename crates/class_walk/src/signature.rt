// Signatures of methods.

ghost use Rattle.std.specs.Prelude.{◌≡◌};
ghost use Rattle.class_walk.specs.Signatures as spec;

use class_tables::{MethodHead, ResultHead};
use static_types::ValueType;

// A type that has a fault is equal to any.
fn same_param(one: &Option<ValueType>, other: &Option<ValueType>) -> bool
    ensures { result ≡ spec.same_param one.now other.now }
{
    match (one, other) {
        (Some(one), Some(other)) => one.same(other),
        _ => true,
    }
}

fn same_params(ones: &[Option<ValueType>], others: &[Option<ValueType>]) -> bool
    ensures { result ≡ spec.same_params ones.now others.now }
{
    if ones.len() != others.len() {
        return false;
    }
    for i in 0..ones.len() {
        if !same_param(&ones[i], &others[i]) {
            return false;
        }
    }
    true
}

fn same_result(one: &ResultHead, other: &ResultHead) -> bool
    ensures { result ≡ spec.same_result one.now other.now }
{
    match (one, other) {
        (ResultHead::Faulty, _) | (_, ResultHead::Faulty) => true,
        (ResultHead::Void, ResultHead::Void) => true,
        (ResultHead::Value(one), ResultHead::Value(other)) => one.same(other),
        _ => false,
    }
}

/// Whether two methods have the same types.
pub fn same_signature(one: &MethodHead, other: &MethodHead) -> bool
    ensures { result ≡ spec.same_signature one.now other.now }
{
    same_result(&one.result, &other.result)
        && same_params(one.params.as_slice(), other.params.as_slice())
}
