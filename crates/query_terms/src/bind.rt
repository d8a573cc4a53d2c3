// Binds.

ghost use Rattle.std.specs.Prelude.{◌≡◌};
ghost use Rattle.static_types.specs.declared.kind.ValueType.TheViews.{out-ValueType};
ghost use Rattle.type_names.specs.Walks.{Comes, Tells};
ghost use Rattle.query_terms.specs.Binds as spec;

use class_tables::ClassHeads;
use fault_words::FaultWord;
use static_types::{Primitive, ValueType};
use std::alloc::Global;
use type_names::{TreeFault, WalkFault};
use typed_program::{Conversion, TypedBind};
use typed_values::{Kind, Typed, conversion, converted};

/// The bind of a value where a primitive of this type is due, with its conversion; the colon stands at this byte.
/// `BadQuery` at the colon where the value doesn't fit.
pub fn one_bind(
    alloc: Global,
    lines: &ClassHeads,
    to: Primitive,
    at: usize,
    value: Typed,
) -> Result<TypedBind, WalkFault>
    ensures { Comes (spec.one_bind lines.now.heads to at value) result }
{
    match conversion(lines, &value.kind, &ValueType::Primitive(to)) {
        Some(how) => {
            let tree = converted(alloc, how, value.tree)?;
            Ok(TypedBind::One(tree))
        }
        None => Err(TreeFault::new(FaultWord::BadQuery, at).into()),
    }
}

fn primitive_item(lines: &ClassHeads, from: Primitive, to: Primitive) -> Option<Conversion>
    ensures { result ≡ spec.primitive_item lines.now.heads from to }
{
    let kind = Kind::Is(ValueType::Primitive(from));
    conversion(lines, &kind, &ValueType::Primitive(to))
}

fn list_item(lines: &ClassHeads, item: &ValueType, to: Primitive) -> Option<Conversion>
    ensures { result ≡ spec.list_item lines.now.heads (out-ValueType item.now) to }
{
    match item {
        ValueType::Primitive(from) => primitive_item(lines, *from, to),
        _ => None,
    }
}

fn items_of(lines: &ClassHeads, kind: &ValueType, to: Primitive) -> Option<Conversion>
    ensures { result ≡ spec.items_of lines.now.heads (out-ValueType kind.now) to }
{
    match kind {
        ValueType::List(item) => list_item(lines, item.get(), to),
        ValueType::Set(from) => primitive_item(lines, *from, to),
        _ => None,
    }
}

fn items_how(lines: &ClassHeads, kind: &Kind, to: Primitive) -> Option<Conversion>
    ensures { result ≡ spec.items_how lines.now.heads kind.now to }
{
    match kind {
        Kind::Nothing => None,
        Kind::Null | Kind::Faulty => Some(Conversion::Same),
        Kind::Is(kind) => items_of(lines, kind, to),
    }
}

/// The bind behind `IN` where primitives of this type are due: a list or a set of those that fit; the colon stands at
/// this byte. `BadQuery` at the colon where the value is none.
pub fn list_bind(
    lines: &ClassHeads,
    to: Primitive,
    at: usize,
    value: Typed,
) -> Result<TypedBind, TreeFault>
    ensures { Tells (spec.list_bind lines.now.heads to at value) result }
{
    match items_how(lines, &value.kind, to) {
        Some(how) => Ok(TypedBind::Many(how, value.tree)),
        None => Err(TreeFault::new(FaultWord::BadQuery, at)),
    }
}
