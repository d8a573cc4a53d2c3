// Elements of lists.

ghost use Rattle.std.specs.Prelude.{◌≡◌};
ghost use Rattle.static_types.specs.declared.kind.ValueType.TheViews.{out-ValueType};
ghost use Rattle.type_names.specs.Walks.{Comes};
ghost use Rattle.new_values.specs.Indices as spec;

use apex_list::Boxed;
use class_tables::ClassHeads;
use fault_words::FaultWord;
use name_meanings::with_part;
use static_types::{Primitive, ValueType};
use std::alloc::Global;
use type_names::{TreeFault, WalkFault};
use typed_program::{TypedExpr, TypedPart};
use typed_values::{Kind, Role, Typed, fitted};

fn element_type(kind: ValueType) -> Option<Kind>
    ensures { result ≡ spec.element_type (out-ValueType kind) }
{
    match kind {
        ValueType::List(item) => Some(Kind::Is(item.into_value())),
        _ => None,
    }
}

// What is known of an element, or `None` where there is none.
fn element(kind: Kind) -> Option<Kind>
    ensures { result ≡ spec.element kind }
{
    match kind {
        Kind::Is(kind) => element_type(kind),
        Kind::Faulty => Some(Kind::Faulty),
        Kind::Nothing | Kind::Null => None,
    }
}

fn element_tree(
    alloc: Global,
    lines: &ClassHeads,
    list: Boxed<TypedExpr>,
    index: Typed,
) -> Result<Boxed<TypedExpr>, WalkFault>
    ensures { Comes (spec.element_tree lines.now.heads list index) result }
{
    let index = fitted(
        alloc,
        lines,
        index,
        &ValueType::Primitive(Primitive::Integer),
    )?;
    Ok(with_part(alloc, list, TypedPart::Index(index))?)
}

/// An element of a list, which may be assigned to. `WrongType` at the list where it is none, and at the index where that
/// is no Integer.
pub fn indexed(
    alloc: Global,
    lines: &ClassHeads,
    list: Typed,
    index: Typed,
) -> Result<Typed, WalkFault>
    ensures { Comes (spec.indexed lines.now.heads list index) result }
{
    match element(list.kind) {
        Some(kind) => {
            let at = list.at;
            let tree = element_tree(alloc, lines, list.tree, index)?;
            Ok(Typed {
                at,
                kind,
                role: Role::Variable,
                tree,
            })
        }
        None => Err(TreeFault::new(FaultWord::WrongType, list.at).into()),
    }
}
