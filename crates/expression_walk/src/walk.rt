// Expressions.

ghost use Rattle.std.specs.Prelude.{◌≡◌, map};
ghost use Rattle.type_names.specs.Walks.{Comes, all};
ghost use Rattle.expression_walk.specs.Expressions as spec;
ghost use Rattle.expression_walk.specs.Views.{sight};

use crate::calls::{call, call_on, index};
use crate::leaf::{in_parentheses, literal, stepped_behind, value_of};
use crate::makings::new;
use crate::operators::{assignment, cast, chain, conditional, prefix};
use crate::queries::whole_query;
use crate::view::View;
use apex_list::Items;
use apex_syntax::{Expr, PostfixPart};
use apex_text::Span;
use name_meanings::{member_of, name_in, super_in, this_in};
use std::alloc::Global;
use type_names::WalkFault;
use typed_values::Typed;

// An expression where a value is needed.
#[cycle(expr)]
pub fn value(alloc: Global, view: &View, tree: &Expr) -> Result<Typed, WalkFault>
    ensures { Comes (spec.expression (sight view.now) tree.now) result }
{
    let value = expr(alloc, view, tree)?;
    Ok(value_of(value)?)
}

#[cycle(expr)]
pub fn values(alloc: Global, view: &View, trees: &[Expr]) -> Result<Items<Typed>, WalkFault>
    ensures { Comes (all (map (spec.expression (sight view.now)) trees.now)) result }
{
    let mut values = Items::new(alloc);
    for tree in trees {
        let value = value(alloc, view, tree)?;
        values.push(value)?;
    }
    Ok(values)
}

#[cycle(expr)]
fn paren(
    alloc: Global,
    view: &View,
    tree: &Expr,
    span: Span,
    inner: &Expr,
) -> Result<Typed, WalkFault>
    requires { tree.now ≡ Expr.Paren span inner.now }
    ensures { Comes (spec.bare (sight view.now) tree.now) result }
{
    let value = value(alloc, view, inner)?;
    Ok(in_parentheses(span.from, value))
}

#[cycle(expr)]
fn postfix(
    alloc: Global,
    view: &View,
    tree: &Expr,
    span: Span,
    head: &Expr,
    parts: &[PostfixPart],
) -> Result<Typed, WalkFault>
    requires { tree.now ≡ Expr.Postfix span head.now parts.now }
    ensures { Comes (spec.bare (sight view.now) tree.now) result }
{
    let mut value = expr(alloc, view, head)?;
    for one in parts {
        value = part(alloc, view, one, value)?;
    }
    Ok(value)
}

#[cycle(expr)]
fn part(alloc: Global, view: &View, tree: &PostfixPart, value: Typed) -> Result<Typed, WalkFault>
    ensures { Comes (spec.part (sight view.now) tree.now value) result }
{
    let setting = view.setting;
    match tree {
        PostfixPart::Field(word) => member_of(alloc, setting, value, word),
        PostfixPart::Call(span, word, args) => {
            call_on(alloc, view, tree, *span, word, args.as_slice(), value)
        }
        PostfixPart::Index(span, inner) => index(alloc, view, tree, *span, inner.get(), value),
        PostfixPart::Step(_, op) => stepped_behind(alloc, *op, value),
    }
}

// An expression that may be a name before a dot, of a class and its like, or `super`.
#[cycle(expr)]
fn expr(alloc: Global, view: &View, tree: &Expr) -> Result<Typed, WalkFault>
    ensures { Comes (spec.bare (sight view.now) tree.now) result }
{
    let setting = view.setting;
    match tree {
        Expr::Literal(span, value) => literal(alloc, span.from, value),
        Expr::This(span) => this_in(alloc, setting, span.from),
        Expr::Super(span) => super_in(alloc, setting, span.from),
        Expr::Name(word) => name_in(alloc, setting, view.scope, word),
        Expr::Call(span, word, args) => call(alloc, view, tree, *span, word, args.as_slice()),
        Expr::Paren(span, inner) => paren(alloc, view, tree, *span, inner.get()),
        Expr::New(span, kind, part) => new(alloc, view, tree, *span, kind, part),
        Expr::Query(span, inner) => whole_query(alloc, view, tree, *span, inner.get()),
        Expr::Postfix(span, head, parts) => {
            postfix(alloc, view, tree, *span, head.get(), parts.as_slice())
        }
        Expr::Prefix(span, op, inner) => prefix(alloc, view, tree, *span, *op, inner.get()),
        Expr::Cast(span, kind, inner) => cast(alloc, view, tree, *span, kind, inner.get()),
        Expr::Chain(span, first, operands) => {
            chain(alloc, view, tree, *span, first.get(), operands.as_slice())
        }
        Expr::Conditional(span, test, first, second) => {
            conditional(
                alloc,
                view,
                tree,
                *span,
                test.get(),
                first.get(),
                second.get(),
            )
        }
        Expr::Assign(span, target, op, behind) => {
            assignment(alloc, view, tree, *span, target.get(), *op, behind.get())
        }
    }
}

/// An expression where a value is needed, with its type and its typed tree, or its first fault: the parts from left to
/// right, and then the whole. `WrongType` at a name that is no value, and at `super`.
pub fn expression(alloc: Global, view: &View, tree: &Expr) -> Result<Typed, WalkFault>
    ensures { Comes (spec.expression (sight view.now) tree.now) result }
{
    value(alloc, view, tree)
}

/// Several expressions, from left to right.
pub fn arguments(alloc: Global, view: &View, trees: &[Expr]) -> Result<Items<Typed>, WalkFault>
    ensures { Comes (all (map (spec.expression (sight view.now)) trees.now)) result }
{
    values(alloc, view, trees)
}
