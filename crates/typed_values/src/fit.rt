// What fits where.

ghost use Rattle.std.specs.Prelude.{◌≡◌, is_some, IfOk};
ghost use Rattle.static_types.specs.declared.kind.ValueType.TheViews.{out-ValueType};
ghost use Rattle.type_names.specs.Walks.{Comes, Gives, Tells};
ghost use Rattle.typed_values.specs.Fits as spec;

use crate::typed::{Kind, Role, Typed};
use apex_list::Boxed;
use apex_num::NoMemory;
use class_tables::ClassHeads;
use fault_words::FaultWord;
use static_types::{Primitive, ValueType};
use std::alloc::Global;
use type_names::{TreeFault, WalkFault};
use typed_program::{Conversion, TypedExpr};

// What a primitive becomes where one of this type is due.
fn becomes(to: Primitive) -> Conversion
    ensures { result ≡ spec.becomes to }
{
    match to {
        Primitive::Long => Conversion::ToLong,
        Primitive::Decimal => Conversion::ToDecimal,
        Primitive::Id => Conversion::ToId,
        Primitive::String => Conversion::ToText,
        Primitive::Boolean | Primitive::Integer | Primitive::Date | Primitive::Datetime =>
            Conversion::Same,
    }
}

/// How a primitive becomes one of a type that it fits.
pub fn between(from: Primitive, to: Primitive) -> Conversion
    ensures { result ≡ spec.between from to }
{
    if from == to {
        Conversion::Same
    } else {
        becomes(to)
    }
}

// Nothing but primitives is converted.
fn how(from: &ValueType, to: &ValueType) -> Conversion
    ensures { result ≡ spec.how from.now to.now }
{
    match (from, to) {
        (ValueType::Primitive(p), ValueType::Primitive(q)) => between(*p, *q),
        _ => Conversion::Same,
    }
}

fn type_conversion(lines: &ClassHeads, from: &ValueType, to: &ValueType) -> Option<Conversion>
    ensures { result ≡ spec.type_conversion lines.now.heads from.now to.now }
{
    if lines.fits(from, to) {
        Some(how(from, to))
    } else {
        None
    }
}

/// How a value of what is known becomes one of this type, or `None` where it doesn't fit: types are equal, Integer
/// becomes Long and both become Decimal, String and Id become one another, a class becomes an ancestor or an interface,
/// an exception `Exception`; `null` becomes everything. There is a conversion exactly where the value fits.
pub fn conversion(lines: &ClassHeads, from: &Kind, to: &ValueType) -> Option<Conversion>
    ensures how { result ≡ spec.conversion lines.now.heads from.now to.now }
    ensures fits { is_some result ≡ spec.takes lines.now.heads from.now to.now }
{
    match from {
        Kind::Nothing => None,
        Kind::Null | Kind::Faulty => Some(Conversion::Same),
        Kind::Is(kind) => type_conversion(lines, kind, to),
    }
}

/// A tree whose value is converted so; no tree is made where it stays the same.
pub fn converted(
    alloc: Global,
    how: Conversion,
    tree: Boxed<TypedExpr>,
) -> Result<Boxed<TypedExpr>, NoMemory>
    ensures { IfOk result (λ t. t ≡ spec.converted how tree) }
{
    match how {
        Conversion::Same => Ok(tree),
        how => Boxed::new(alloc, TypedExpr::Convert(how, tree)),
    }
}

// How a value becomes one of a type; `WrongType` at it where it doesn't fit.
fn fitting(lines: &ClassHeads, value: &Typed, to: &ValueType) -> Result<Conversion, TreeFault>
    ensures { Tells (spec.fitting lines.now.heads value.now to.now) result }
{
    match conversion(lines, &value.kind, to) {
        Some(how) => Ok(how),
        None => Err(TreeFault::new(FaultWord::WrongType, value.at)),
    }
}

fn given(
    alloc: Global,
    how: Conversion,
    tree: Boxed<TypedExpr>,
) -> Result<Boxed<TypedExpr>, WalkFault>
    ensures { Comes (Gives (spec.converted how tree)) result }
{
    Ok(converted(alloc, how, tree)?)
}

/// The tree of a value that has to fit a type, with its conversion; `WrongType` at the value where it doesn't.
pub fn fitted(
    alloc: Global,
    lines: &ClassHeads,
    value: Typed,
    to: &ValueType,
) -> Result<Boxed<TypedExpr>, WalkFault>
    ensures { Comes (spec.fitted lines.now.heads value to.now) result }
{
    let how = fitting(lines, &value, to)?;
    given(alloc, how, value.tree)
}

/// The tree of a condition: Boolean, or `null`.
pub fn condition(
    alloc: Global,
    lines: &ClassHeads,
    value: Typed,
) -> Result<Boxed<TypedExpr>, WalkFault>
    ensures { Comes (spec.condition lines.now.heads value) result }
{
    fitted(
        alloc,
        lines,
        value,
        &ValueType::Primitive(Primitive::Boolean),
    )
}

/// Whether it is a list of the records of this object.
pub fn lists_records(kind: &ValueType, object: usize) -> bool
    ensures { result ≡ spec.lists_records (out-ValueType kind.now) object }
{
    match kind {
        ValueType::List(item) => match item.get() {
            ValueType::Record(n) => *n == object,
            _ => false,
        },
        _ => false,
    }
}

fn gives_record(value: &Typed, to: &ValueType) -> bool
    ensures { result ≡ spec.gives_record value.now (out-ValueType to.now) }
{
    match (value.role, &value.kind, to) {
        (Role::Query, Kind::Is(kind), ValueType::Record(object)) => lists_records(kind, *object),
        _ => false,
    }
}

/// The tree of a value that is stored in a variable of a type or returned as one: as `fitted`, and a query itself may
/// stand for its only record.
pub fn stored(
    alloc: Global,
    lines: &ClassHeads,
    value: Typed,
    to: &ValueType,
) -> Result<Boxed<TypedExpr>, WalkFault>
    ensures { Comes (spec.stored lines.now.heads value to.now) result }
{
    if gives_record(&value, to) {
        return given(alloc, Conversion::ToRecord, value.tree);
    }
    fitted(alloc, lines, value, to)
}
