// Arguments of methods that take values of several types.

ghost use Rattle.std.specs.Prelude.{◌≡◌};
ghost use Rattle.static_types.specs.declared.kind.ValueType.TheViews.{out-ValueType};
ghost use Rattle.typed_calls.specs.Admissions as spec;

use builtin_signatures::{Due, Dues};
use static_types::{Primitive, ValueType};
use typed_operations::{Sort, number_of, sort_of};
use typed_values::{Kind, Typed};

fn is_primitive(sort: Sort) -> bool
    ensures { result ≡ spec.is_primitive sort }
{
    match sort {
        Sort::Null | Sort::Faulty | Sort::Primitive(_) => true,
        Sort::Nothing | Sort::Content | Sort::Instance => false,
    }
}

fn is_number(sort: Sort) -> bool
    ensures { result ≡ spec.is_number sort }
{
    match sort {
        Sort::Null | Sort::Faulty => true,
        Sort::Primitive(p) => number_of(p).is_some(),
        Sort::Nothing | Sort::Content | Sort::Instance => false,
    }
}

fn is_whole(sort: Sort) -> bool
    ensures { result ≡ spec.is_whole sort }
{
    match sort {
        Sort::Null | Sort::Faulty => true,
        Sort::Primitive(Primitive::Integer | Primitive::Long) => true,
        _ => false,
    }
}

fn is_record(kind: &ValueType) -> bool
    ensures { result ≡ spec.is_record (out-ValueType kind.now) }
{
    match kind {
        ValueType::Record(_) => true,
        _ => false,
    }
}

fn has_records(kind: &ValueType) -> bool
    ensures { result ≡ spec.has_records (out-ValueType kind.now) }
{
    match kind {
        ValueType::Record(_) => true,
        ValueType::List(item) => is_record(item.get()),
        _ => false,
    }
}

// A record, or a list of records; `null` could be either.
fn are_records(kind: &Kind) -> bool
    ensures { result ≡ spec.are_records kind.now }
{
    match kind {
        Kind::Is(kind) => has_records(kind),
        Kind::Faulty => true,
        Kind::Nothing | Kind::Null => false,
    }
}

fn is_type(kind: &ValueType, p: Primitive) -> bool
    ensures { result ≡ spec.is_type (out-ValueType kind.now) p }
{
    match kind {
        ValueType::Primitive(q) => *q == p,
        _ => false,
    }
}

fn holds(kind: &ValueType, p: Primitive) -> bool
    ensures { result ≡ spec.holds (out-ValueType kind.now) p }
{
    match kind {
        ValueType::Set(q) => *q == p,
        ValueType::List(item) => is_type(item.get(), p),
        _ => false,
    }
}

// A list or a set of items of this type.
fn are_items(kind: &Kind, p: Primitive) -> bool
    ensures { result ≡ spec.are_items kind.now p }
{
    match kind {
        Kind::Is(kind) => holds(kind, p),
        Kind::Null | Kind::Faulty => true,
        Kind::Nothing => false,
    }
}

fn items_of(receiver: &ValueType, kind: &Kind) -> bool
    ensures { result ≡ spec.items_of (out-ValueType receiver.now) kind.now }
{
    match receiver {
        ValueType::Set(p) => are_items(kind, *p),
        _ => false,
    }
}

fn are_items_of(receiver: &Kind, kind: &Kind) -> bool
    ensures { result ≡ spec.are_items_of receiver.now kind.now }
{
    match receiver {
        Kind::Is(receiver) => items_of(receiver, kind),
        Kind::Nothing | Kind::Null | Kind::Faulty => false,
    }
}

fn admits(receiver: &Kind, due: Option<Due>, kind: &Kind) -> bool
    ensures { result ≡ spec.admits receiver.now due kind.now }
{
    match due {
        Some(Due::Plain) => is_primitive(sort_of(kind)),
        Some(Due::Number) => is_number(sort_of(kind)),
        Some(Due::Whole) => is_whole(sort_of(kind)),
        Some(Due::Records) => are_records(kind),
        Some(Due::Items) => are_items_of(receiver, kind),
        _ => true,
    }
}

/// Whether what is due of several types admits each argument; what is due of one type isn't looked at.
pub fn admits_all(receiver: &Kind, dues: Dues, args: &[Typed]) -> bool
    ensures { result ≡ spec.admits_all receiver.now dues args.now }
{
    for i in 0..args.len() {
        if !admits(receiver, dues.at(i), &args[i].kind) {
            return false;
        }
    }
    true
}
