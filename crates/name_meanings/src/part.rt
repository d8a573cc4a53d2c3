// What goes on with a value.

ghost use Rattle.std.specs.Prelude.{◌≡◌, IfOk};
ghost use Rattle.name_meanings.specs.Parts as spec;

use apex_list::{Boxed, Items};
use apex_num::NoMemory;
use std::alloc::Global;
use typed_program::{TypedExpr, TypedPart};

fn first_part(
    alloc: Global,
    head: Boxed<TypedExpr>,
    part: TypedPart,
) -> Result<Boxed<TypedExpr>, NoMemory>
    ensures { IfOk result (λ t. t ≡ spec.first_part head part) }
{
    let mut parts = Items::new(alloc);
    parts.push(part)?;
    Boxed::new(alloc, TypedExpr::Postfix(head, parts))
}

fn next_part(
    alloc: Global,
    head: Boxed<TypedExpr>,
    parts: Items<TypedPart>,
    part: TypedPart,
) -> Result<Boxed<TypedExpr>, NoMemory>
    ensures { IfOk result (λ t. t ≡ spec.next_part head parts part) }
{
    let mut parts = parts;
    parts.push(part)?;
    Boxed::new(alloc, TypedExpr::Postfix(head, parts))
}

fn boxed_first(
    alloc: Global,
    tree: TypedExpr,
    part: TypedPart,
) -> Result<Boxed<TypedExpr>, NoMemory>
    ensures { IfOk result (λ t. t ≡ spec.first_part tree part) }
{
    first_part(alloc, Boxed::new(alloc, tree)?, part)
}

/// A value with one part more behind it.
pub fn with_part(
    alloc: Global,
    tree: Boxed<TypedExpr>,
    part: TypedPart,
) -> Result<Boxed<TypedExpr>, NoMemory>
    ensures { IfOk result (λ t. t ≡ spec.with_part tree part) }
{
    match tree.into_value() {
        TypedExpr::Postfix(head, parts) => next_part(alloc, head, parts, part),
        tree => boxed_first(alloc, tree, part),
    }
}
