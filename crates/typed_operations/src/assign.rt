// Assignments.

ghost use Rattle.std.specs.Prelude.{◌≡◌, IfOk};
ghost use Rattle.type_names.specs.Walks.{Comes, Tells};
ghost use Rattle.typed_operations.specs.Assignments as spec;

use crate::Fit;
use crate::chain::{fit_at, given};
use crate::place::Target;
use apex_list::Boxed;
use apex_num::NoMemory;
use apex_syntax::BinaryOp;
use class_tables::ClassHeads;
use fault_words::FaultWord;
use std::alloc::Global;
use type_names::{TreeFault, WalkFault};
use typed_program::{Assignment, Conversion, TypedExpr};
use typed_values::{Kind, Typed, conversion, stored};

// A value that is stored in a variable whose type is at fault elsewhere.
fn any_value(value: Typed) -> Result<Boxed<TypedExpr>, TreeFault>
    ensures { Tells (spec.any_value value) result }
{
    match value.kind {
        Kind::Nothing => Err(TreeFault::new(FaultWord::WrongType, value.at)),
        _ => Ok(value.tree),
    }
}

fn stored_as(
    alloc: Global,
    lines: &ClassHeads,
    kind: &Kind,
    value: Typed,
) -> Result<Boxed<TypedExpr>, WalkFault>
    ensures { Comes (spec.stored_as lines.now.heads kind.now value) result }
{
    match kind {
        Kind::Is(to) => stored(alloc, lines, value, to),
        _ => Ok(any_value(value)?),
    }
}

/// `target = value`. `WrongType` at the value where it doesn't fit; a query itself
/// may stand for its only record.
pub fn assigned(
    alloc: Global,
    lines: &ClassHeads,
    target: Target,
    value: Typed,
) -> Result<Typed, WalkFault>
    ensures { Comes (spec.assigned lines.now.heads target value) result }
{
    let value = stored_as(alloc, lines, &target.kind, value)?;
    let tree = TypedExpr::Assign(target.place, value);
    Ok(Typed::plain(alloc, target.at, target.kind, tree)?)
}

// How what an operator gives becomes the value of a variable.
fn back(lines: &ClassHeads, kind: &Kind, target: &Kind) -> Option<Conversion>
    ensures { result ≡ spec.back lines.now.heads kind.now target.now }
{
    match target {
        Kind::Is(to) => conversion(lines, kind, to),
        _ => Some(Conversion::Same),
    }
}

fn back_at(lines: &ClassHeads, fit: Fit, target: &Kind, at: usize) -> Result<Assignment, TreeFault>
    ensures { Tells (spec.back_at lines.now.heads fit target.now at) result }
{
    match back(lines, &given(fit.gives), target) {
        Some(back) => Ok(Assignment {
            left: fit.left,
            op: fit.op,
            right: fit.right,
            back,
        }),
        None => Err(TreeFault::new(FaultWord::WrongType, at)),
    }
}

fn fitting(
    lines: &ClassHeads,
    target: &Target,
    op: BinaryOp,
    value: &Typed,
) -> Result<Assignment, TreeFault>
    ensures { Tells (spec.fitting lines.now.heads target.now op value.now) result }
{
    let fit = fit_at(lines, &target.kind, target.at, op, value)?;
    back_at(lines, fit, &target.kind, value.at)
}

/// `target op= value`. `WrongType` at the target where the operator doesn't take it on its left, and at the value where it
/// doesn't take that on its right, or where what it gives doesn't fit the target.
pub fn assigned_with(
    alloc: Global,
    lines: &ClassHeads,
    target: Target,
    op: BinaryOp,
    value: Typed,
) -> Result<Typed, WalkFault>
    ensures { Comes (spec.assigned_with lines.now.heads target op value) result }
{
    let how = fitting(lines, &target, op, &value)?;
    let tree = TypedExpr::AssignWith(target.place, how, value.tree);
    Ok(Typed::plain(alloc, target.at, target.kind, tree)?)
}
