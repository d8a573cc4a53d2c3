// Expressions with operators, and casts.

ghost use Rattle.std.specs.Prelude.{◌≡◌};
ghost use Rattle.type_names.specs.Walks.{Comes};
ghost use Rattle.typed_values.specs.Alterations.{Alters};
ghost use Rattle.expression_walk.specs.Expressions as spec;
ghost use Rattle.expression_walk.specs.Views.{sight};

use crate::leaf::{assigned_by, prefixed};
use crate::view::View;
use crate::walk::value;
use apex_syntax::{AssignOp, Expr, Operand, PrefixOp, TypeTree};
use apex_text::Span;
use std::alloc::Global;
use type_names::{WalkFault, type_of};
use typed_operations::{OpenChain, begun, cast_to, chosen, closed, with_operand, writable};
use typed_values::Typed;

#[cycle(expr)]
pub fn prefix(
    alloc: Global,
    view: &View,
    tree: &Expr,
    span: Span,
    op: PrefixOp,
    operand: &Expr,
) -> Result<Typed, WalkFault>
    requires { tree.now ≡ Expr.Prefix span op operand.now }
    ensures { Comes (spec.bare (sight view.now) tree.now) result }
{
    let setting = view.setting;
    let value = value(alloc, view, operand)?;
    prefixed(alloc, setting.lines, span.from, op, value)
}

#[cycle(expr)]
pub fn cast(
    alloc: Global,
    view: &View,
    tree: &Expr,
    span: Span,
    kind: &TypeTree,
    operand: &Expr,
) -> Result<Typed, WalkFault>
    requires { tree.now ≡ Expr.Cast span kind.now operand.now }
    ensures { Comes (spec.bare (sight view.now) tree.now) result }
{
    let setting = view.setting;
    let kind = type_of(alloc, &setting.names, kind)?;
    let value = value(alloc, view, operand)?;
    cast_to(alloc, setting.lines, span.from, kind, value)
}

#[cycle(expr)]
pub fn chain(
    alloc: Global,
    view: &View,
    tree: &Expr,
    span: Span,
    first: &Expr,
    operands: &[Operand],
) -> Result<Typed, WalkFault>
    requires { tree.now ≡ Expr.Chain span first.now operands.now }
    ensures { Comes (spec.bare (sight view.now) tree.now) result }
{
    let first = value(alloc, view, first)?;
    let mut chain = begun(alloc, first);
    for next in operands {
        operand(alloc, view, next, &mut chain)?;
    }
    Ok(closed(alloc, chain)?)
}

#[cycle(expr)]
fn operand(
    alloc: Global,
    view: &View,
    tree: &Operand,
    chain: &mut OpenChain,
) -> Result<(), WalkFault>
    ensures { Alters (spec.operand (sight view.now) tree.now chain.old) result chain.new }
{
    let setting = view.setting;
    let right = value(alloc, view, tree.right.get())?;
    with_operand(setting.lines, tree.op, right, chain)
}

#[cycle(expr)]
pub fn conditional(
    alloc: Global,
    view: &View,
    tree: &Expr,
    span: Span,
    test: &Expr,
    first: &Expr,
    second: &Expr,
) -> Result<Typed, WalkFault>
    requires { tree.now ≡ Expr.Conditional span test.now first.now second.now }
    ensures { Comes (spec.bare (sight view.now) tree.now) result }
{
    let setting = view.setting;
    let test = value(alloc, view, test)?;
    let first = value(alloc, view, first)?;
    let second = value(alloc, view, second)?;
    chosen(alloc, setting.lines, test, first, second)
}

#[cycle(expr)]
pub fn assignment(
    alloc: Global,
    view: &View,
    tree: &Expr,
    span: Span,
    target: &Expr,
    op: AssignOp,
    behind: &Expr,
) -> Result<Typed, WalkFault>
    requires { tree.now ≡ Expr.Assign span target.now op behind.now }
    ensures { Comes (spec.bare (sight view.now) tree.now) result }
{
    let setting = view.setting;
    let target = value(alloc, view, target)?;
    let target = writable(alloc, target)?;
    let value = value(alloc, view, behind)?;
    assigned_by(alloc, setting.lines, target, op, value)
}
