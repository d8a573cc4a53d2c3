// The widest type of numbers.

ghost use Rattle.std.specs.Prelude.{◌≡◌};
ghost use Rattle.typed_calls.specs.Widths as spec;

use builtin_table::{Builtin, MathMethod};
use static_types::Primitive;
use typed_operations::{Sort, sort_of, type_of_number, wider};
use typed_program::Number;
use typed_values::Typed;

// The type of a number; `null` counts as an Integer.
fn number_in(sort: Sort) -> Number
    ensures { result ≡ spec.number_in sort }
{
    match sort {
        Sort::Primitive(Primitive::Long) => Number::Long,
        Sort::Primitive(Primitive::Decimal) => Number::Decimal,
        _ => Number::Integer,
    }
}

fn widest_number(args: &[Typed]) -> Number
    ensures { result ≡ spec.widest_from Number.Integer args.now }
{
    let mut most = Number::Integer;
    for arg in args {
        most = wider(most, number_in(sort_of(&arg.kind)));
    }
    most
}

/// The widest type of the numbers among arguments.
pub fn widest(args: &[Typed]) -> Primitive
    ensures { result ≡ spec.widest args.now }
{
    type_of_number(widest_number(args))
}

fn absolute(p: Primitive) -> Builtin
    ensures { result ≡ spec.absolute p }
{
    match p {
        Primitive::Integer => Builtin::Math(MathMethod::AbsInteger),
        _ => Builtin::Math(MathMethod::Abs),
    }
}

/// The method on numbers of this type.
pub fn on_numbers(builtin: Builtin, p: Primitive) -> Builtin
    ensures { result ≡ spec.on_numbers builtin p }
{
    match builtin {
        Builtin::Math(MathMethod::Abs) => absolute(p),
        builtin => builtin,
    }
}
