// Collections of what is in another one.

ghost use Rattle.std.specs.Prelude.{◌≡◌};
ghost use Rattle.static_types.specs.declared.kind.ValueType.TheViews.{out-ValueType};
ghost use Rattle.typed_calls.specs.Copies as spec;

use class_tables::ClassHeads;
use static_types::{Primitive, ValueType};
use typed_values::{Kind, conversion, lists_records};

/// How a collection is made of another value.
#[derive(Clone, Copy, Drop)]
pub enum Copying {
    /// It has the same items, or keys and values.
    Same,
    /// It has the records of a list by their Ids.
    ById,
}

fn is_primitive(kind: &ValueType, p: Primitive) -> bool
    ensures { result ≡ spec.is_primitive (out-ValueType kind.now) p }
{
    match kind {
        ValueType::Primitive(q) => *q == p,
        _ => false,
    }
}

fn lists_primitives(kind: &ValueType, p: Primitive) -> bool
    ensures { result ≡ spec.lists_primitives (out-ValueType kind.now) p }
{
    match kind {
        ValueType::List(item) => is_primitive(item.get(), p),
        _ => false,
    }
}

// A map of records by their Ids is made of a list of them.
fn by_id(value: &ValueType, arg: &ValueType) -> Option<Copying>
    ensures { result ≡ spec.by_id (out-ValueType value.now) arg.now }
{
    match value {
        ValueType::Record(object) => {
            if lists_records(arg, *object) {
                Some(Copying::ById)
            } else {
                None
            }
        }
        _ => None,
    }
}

// A set is made of a list, too.
fn of_other(to: &ValueType, arg: &ValueType) -> Option<Copying>
    ensures { result ≡ spec.of_other (out-ValueType to.now) arg.now }
{
    match to {
        ValueType::Set(p) => {
            if lists_primitives(arg, *p) {
                Some(Copying::Same)
            } else {
                None
            }
        }
        ValueType::Map(Primitive::Id, value) => by_id(value.get(), arg),
        _ => None,
    }
}

fn of_kind(to: &ValueType, arg: &Kind) -> Option<Copying>
    ensures { result ≡ spec.of_kind to.now arg.now }
{
    match arg {
        Kind::Is(kind) => of_other(to, kind),
        Kind::Nothing | Kind::Null | Kind::Faulty => None,
    }
}

/// How a collection of a type is made of a value, or `None` where it isn't: of one that fits the type, a set of a list of
/// its items, and a map from Id to records of a list of them.
pub fn copying_of(lines: &ClassHeads, to: &ValueType, arg: &Kind) -> Option<Copying>
    ensures { result ≡ spec.copying_of lines.now.heads to.now arg.now }
{
    match conversion(lines, arg, to) {
        Some(_) => Some(Copying::Same),
        None => of_kind(to, arg),
    }
}
