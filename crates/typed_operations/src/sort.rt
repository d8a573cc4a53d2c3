// Kinds of operands.

ghost use Rattle.std.specs.Prelude.{◌≡◌};
ghost use Rattle.static_types.specs.declared.kind.ValueType.TheViews.{out-ValueType};
ghost use Rattle.typed_operations.specs.Sorts as spec;

use static_types::{Primitive, ValueType};
use typed_program::{Conversion, Number};
use typed_values::{Kind, between};

/// What operators tell operands apart by.
#[derive(Clone, Copy, Drop)]
pub enum Sort {
    /// No value.
    Nothing,
    Null,
    /// A value whose type has a fault that is told elsewhere.
    Faulty,
    Primitive(Primitive),
    /// A collection, a record, or what the platform answers.
    Content,
    /// An instance of a class or an exception.
    Instance,
}

pub fn sort_of_type(kind: &ValueType) -> Sort
    ensures { result ≡ spec.sort_of_type (out-ValueType kind.now) }
{
    match kind {
        ValueType::Primitive(p) => Sort::Primitive(*p),
        ValueType::List(_)
        | ValueType::Set(_)
        | ValueType::Map(..)
        | ValueType::Record(_)
        | ValueType::Platform(_) => Sort::Content,
        ValueType::Class(_) | ValueType::AnyException | ValueType::Exception(_) => Sort::Instance,
    }
}

/// What operators see of an operand.
pub fn sort_of(kind: &Kind) -> Sort
    ensures { result ≡ spec.sort_of kind.now }
{
    match kind {
        Kind::Nothing => Sort::Nothing,
        Kind::Null => Sort::Null,
        Kind::Faulty => Sort::Faulty,
        Kind::Is(kind) => sort_of_type(kind),
    }
}

/// The type of numbers that a primitive type is.
pub fn number_of(p: Primitive) -> Option<Number>
    ensures { result ≡ spec.number_of p }
{
    match p {
        Primitive::Integer => Some(Number::Integer),
        Primitive::Long => Some(Number::Long),
        Primitive::Decimal => Some(Number::Decimal),
        _ => None,
    }
}

/// The primitive type of numbers.
pub fn type_of_number(n: Number) -> Primitive
    ensures { result ≡ spec.type_of_number n }
{
    match n {
        Number::Integer => Primitive::Integer,
        Number::Long => Primitive::Long,
        Number::Decimal => Primitive::Decimal,
    }
}

/// The wider one of two types of numbers.
pub fn wider(a: Number, b: Number) -> Number
    ensures { result ≡ spec.wider a b }
{
    match (a, b) {
        (Number::Integer, other) => other,
        (Number::Long, Number::Integer) => Number::Long,
        (Number::Long, other) => other,
        (Number::Decimal, _) => Number::Decimal,
    }
}

/// How a number becomes one of a type that is as wide.
pub fn widened(from: Number, to: Number) -> Conversion
    ensures { result ≡ spec.widened from to }
{
    between(type_of_number(from), type_of_number(to))
}
