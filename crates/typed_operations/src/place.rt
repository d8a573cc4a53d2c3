// Variables that may be assigned to.

ghost use Rattle.std.specs.Prelude.{◌≡◌, Some, IfOk};
ghost use Rattle.type_names.specs.Walks.{Comes};
ghost use Rattle.typed_program.specs.declared.expr.TypedBind.TheViews.{out-TypedPart};
ghost use Rattle.typed_operations.specs.Places as spec;

use apex_list::{Boxed, Items};
use apex_num::NoMemory;
use fault_words::FaultWord;
use std::alloc::Global;
use type_names::{TreeFault, WalkFault};
use typed_program::{TypedExpr, TypedPart, TypedPlace};
use typed_values::{Kind, Role, Typed};

/// A variable that may be assigned to.
#[derive(Drop)]
pub struct Target {
    /// The byte place of the first token of its expression, from 0.
    pub at: usize,
    pub kind: Kind,
    pub place: Boxed<TypedPlace>,
}

fn reached(
    alloc: Global,
    head: Boxed<TypedExpr>,
    parts: Items<TypedPart>,
) -> Result<Boxed<TypedExpr>, NoMemory>
    ensures { IfOk result (λ t. t ≡ spec.reached head parts) }
{
    if parts.is_empty() {
        Ok(head)
    } else {
        Boxed::new(alloc, TypedExpr::Postfix(head, parts))
    }
}

fn some(alloc: Global, place: TypedPlace) -> Result<Option<Boxed<TypedPlace>>, NoMemory>
    ensures { IfOk result (λ p. p ≡ Some place) }
{
    Ok(Some(Boxed::new(alloc, place)?))
}

// What a part leads to in a value.
fn place_in(
    alloc: Global,
    value: Boxed<TypedExpr>,
    part: TypedPart,
) -> Result<Option<Boxed<TypedPlace>>, NoMemory>
    ensures { IfOk result (λ p. p ≡ spec.place_in value (out-TypedPart part)) }
{
    match part {
        TypedPart::Field(class, field) => some(alloc, TypedPlace::Field(value, class, field)),
        TypedPart::Cell(object, field, goes_on) => {
            some(alloc, TypedPlace::Cell(value, object, field, goes_on))
        }
        TypedPart::Index(index) => some(alloc, TypedPlace::Index(value, index)),
        _ => Ok(None),
    }
}

fn place_behind(
    alloc: Global,
    head: Boxed<TypedExpr>,
    parts: Items<TypedPart>,
    last: TypedPart,
) -> Result<Option<Boxed<TypedPlace>>, NoMemory>
    ensures { IfOk result (λ p. p ≡ spec.place_in (spec.reached head parts) (out-TypedPart last)) }
{
    let value = reached(alloc, head, parts)?;
    place_in(alloc, value, last)
}

#[tactic(auto, using(crate::proofs::LastParts::along, crate::proofs::LastParts::along_none))]
fn place_along(
    alloc: Global,
    head: Boxed<TypedExpr>,
    parts: Items<TypedPart>,
) -> Result<Option<Boxed<TypedPlace>>, NoMemory>
    ensures { IfOk result (λ p. p ≡ spec.place_along head parts) }
{
    let mut parts = parts;
    match parts.pop() {
        Some(last) => place_behind(alloc, head, parts, last),
        None => Ok(None),
    }
}

// The place that an expression names.
fn place_of(alloc: Global, tree: Boxed<TypedExpr>) -> Result<Option<Boxed<TypedPlace>>, NoMemory>
    ensures { IfOk result (λ p. p ≡ spec.place_of tree) }
{
    match tree.into_value() {
        TypedExpr::Local(slot) => some(alloc, TypedPlace::Local(slot)),
        TypedExpr::Static(class, field) => some(alloc, TypedPlace::Static(class, field)),
        TypedExpr::Postfix(head, parts) => place_along(alloc, head, parts),
        _ => Ok(None),
    }
}

fn place_where(
    alloc: Global,
    role: Role,
    tree: Boxed<TypedExpr>,
) -> Result<Option<Boxed<TypedPlace>>, NoMemory>
    ensures { IfOk result (λ p. p ≡ spec.place_where role tree) }
{
    match role {
        Role::Variable => place_of(alloc, tree),
        _ => Ok(None),
    }
}

/// The variable that an expression is, so that it may be assigned to: `NotWritable` at it where it is none.
pub fn writable(alloc: Global, value: Typed) -> Result<Target, WalkFault>
    ensures { Comes (spec.writable value) result }
{
    match place_where(alloc, value.role, value.tree)? {
        Some(place) => Ok(Target {
            at: value.at,
            kind: value.kind,
            place,
        }),
        None => Err(TreeFault::new(FaultWord::NotWritable, value.at).into()),
    }
}
