// Whole expressions. `expr` reads an expression in a form that is opened, and `unary` an operand without a binary
// operator.

ghost use Rattle.token_grammar.specs.Readings.{Told, ReadsBy};
ghost use Rattle.apex_parse_expr.specs.Exprs as grammar;

use crate::args::inner;
use crate::levels::chain;
use crate::part::{Branches, Part};
use apex_lexer::{Sign, Token};
use apex_list::Boxed;
use apex_parse_leaf::{Level, is_assign, open_assign};
use apex_syntax::Expr;
use std::alloc::Global;
use token_grammar::{Stop, boxed, is_sign, open_sign, pass_sign, span_of};

// What stands behind the `?`.
fn branches<E: Fn(usize) -> Result<(Boxed<Expr>, usize), Stop>>(
    tokens: &[Token],
    at: usize,
    room: usize,
    expr: &E,
) -> Result<(Branches, usize), Stop>
    requires calls { E.IsAlwaysCallable expr.now }
    requires told { ReadsBy tokens.now (E.post expr.now) (grammar.deeper_expr room) }
    ensures { Told tokens.now (grammar.branches (grammar.deeper_expr room)) at result }
{
    let (one, behind) = inner(tokens, at, room, expr)?;
    let behind = pass_sign(tokens, behind, Sign::Colon)?;
    let (other, end) = inner(tokens, behind, room, expr)?;
    Ok((Branches { one, other }, end))
}

// `?` and both branches, behind a condition that began at `start`.
fn conditional<E: Fn(usize) -> Result<(Boxed<Expr>, usize), Stop>>(
    alloc: Global,
    tokens: &[Token],
    at: usize,
    room: usize,
    start: usize,
    cond: Boxed<Expr>,
    expr: &E,
) -> Result<(Boxed<Expr>, usize), Stop>
    requires calls { E.IsAlwaysCallable expr.now }
    requires told { ReadsBy tokens.now (E.post expr.now) (grammar.deeper_expr room) }
    ensures { Told tokens.now (grammar.conditional room (grammar.deeper_expr room) start cond) at result }
{
    let (_, behind) = open_sign(tokens, at, Sign::Question, room)?;
    let (branches, end) = branches(tokens, behind, room, expr)?;
    let span = span_of(tokens, start, end);
    let Branches { one, other } = branches;
    boxed(alloc, Expr::Conditional(span, cond, one, other), end)
}

// An operator that assigns and a value, behind a target that began at `start`.
fn assigned<E: Fn(usize) -> Result<(Boxed<Expr>, usize), Stop>>(
    alloc: Global,
    tokens: &[Token],
    at: usize,
    room: usize,
    start: usize,
    target: Boxed<Expr>,
    expr: &E,
) -> Result<(Boxed<Expr>, usize), Stop>
    requires calls { E.IsAlwaysCallable expr.now }
    requires told { ReadsBy tokens.now (E.post expr.now) (grammar.deeper_expr room) }
    ensures { Told tokens.now (grammar.assigned room (grammar.deeper_expr room) start target) at result }
{
    let (op, behind) = open_assign(tokens, at, room)?;
    let (value, end) = inner(tokens, behind, room, expr)?;
    let span = span_of(tokens, start, end);
    boxed(alloc, Expr::Assign(span, target, op, value), end)
}

// What stands behind the first operand of an expression that began at `start`.
fn expr_rest<E: Fn(usize) -> Result<(Boxed<Expr>, usize), Stop>>(
    alloc: Global,
    tokens: &[Token],
    at: usize,
    room: usize,
    start: usize,
    first: Part,
    expr: &E,
) -> Result<(Boxed<Expr>, usize), Stop>
    requires calls { E.IsAlwaysCallable expr.now }
    requires told { ReadsBy tokens.now (E.post expr.now) (grammar.deeper_expr room) }
    ensures { Told tokens.now (grammar.expr_rest room (grammar.deeper_expr room) start first) at result }
{
    if is_sign(tokens, at, Sign::Question) {
        conditional(alloc, tokens, at, room, start, first.tree, expr)
    } else if is_assign(tokens, at, first.target) {
        assigned(alloc, tokens, at, room, start, first.tree, expr)
    } else {
        Ok((first.tree, at))
    }
}

/// An expression.
pub fn expr_with<
    E: Fn(usize) -> Result<(Boxed<Expr>, usize), Stop>,
    U: Fn(usize) -> Result<(Part, usize), Stop>,
>(
    alloc: Global,
    tokens: &[Token],
    at: usize,
    room: usize,
    expr: &E,
    unary: &U,
) -> Result<(Boxed<Expr>, usize), Stop>
    requires calls { E.IsAlwaysCallable expr.now }
    requires told { ReadsBy tokens.now (E.post expr.now) (grammar.deeper_expr room) }
    requires unary_calls { U.IsAlwaysCallable unary.now }
    requires unary_told { ReadsBy tokens.now (U.post unary.now) (grammar.unary room) }
    ensures { Told tokens.now (grammar.expr_with room (grammar.deeper_expr room) (grammar.unary room)) at result }
{
    let (first, behind) = chain(alloc, tokens, at, room, Level::Or, unary)?;
    expr_rest(alloc, tokens, behind, room, at, first, expr)
}
