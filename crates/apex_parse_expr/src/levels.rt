// Binary operators by their precedence. `unary` reads an operand without one.

ghost use Rattle.std.specs.Prelude.{◌≡◌, IfOk};
ghost use Rattle.token_grammar.specs.Readings.{Told, ReadsBy};
ghost use Rattle.apex_parse_leaf.specs.declared.level.Level.TheVariants as levels;
ghost use Rattle.apex_parse_expr.specs.Exprs as grammar;

use crate::part::Part;
use apex_lexer::Token;
use apex_list::{Boxed, Items};
use apex_parse_leaf::{Level, is_op, op};
use apex_syntax::{Expr, Operand};
use apex_text::Span;
use std::alloc::{AllocError, Global};
use token_grammar::{Stop, span_of};

// An operand without a binary operator; `room` says by which rule.
fn single<U: Fn(usize) -> Result<(Part, usize), Stop>>(
    tokens: &[Token],
    at: usize,
    room: usize,
    unary: &U,
) -> Result<(Part, usize), Stop>
    requires calls { U.IsAlwaysCallable unary.now }
    requires told { ReadsBy tokens.now (U.post unary.now) (grammar.unary room) }
    ensures { Told tokens.now (grammar.unary room) at result }
{
    let _ = tokens;
    let _ = room;
    unary(at)
}

// The expression of a first operand and those behind it.
fn chained(
    alloc: Global,
    span: Span,
    first: Part,
    links: Items<Operand>,
) -> Result<Part, AllocError>
    ensures { IfOk result (λ part. part ≡ grammar.chained span first links) }
{
    if links.is_empty() {
        return Ok(first);
    }
    let tree = Boxed::new(alloc, Expr::Chain(span, first.tree, links))?;
    Ok(Part {
        tree,
        target: false,
    })
}

// What stands between the operators of a level.
#[cycle(levels)]
fn operand<U: Fn(usize) -> Result<(Part, usize), Stop>>(
    alloc: Global,
    tokens: &[Token],
    at: usize,
    room: usize,
    level: Level,
    unary: &U,
) -> Result<(Part, usize), Stop>
    requires calls { U.IsAlwaysCallable unary.now }
    requires told { ReadsBy tokens.now (U.post unary.now) (grammar.unary room) }
    ensures { Told tokens.now (grammar.operand level (grammar.unary room)) at result }
{
    match level {
        Level::Product => single(tokens, at, room, unary),
        Level::Sum => chain(alloc, tokens, at, room, Level::Product, unary),
        Level::Order => chain(alloc, tokens, at, room, Level::Sum, unary),
        Level::Equal => order(alloc, tokens, at, room, unary),
        Level::And => chain(alloc, tokens, at, room, Level::Equal, unary),
        Level::Or => chain(alloc, tokens, at, room, Level::And, unary),
    }
}

// An operator and the operand on its right.
#[cycle(levels)]
fn link<U: Fn(usize) -> Result<(Part, usize), Stop>>(
    alloc: Global,
    tokens: &[Token],
    at: usize,
    room: usize,
    level: Level,
    unary: &U,
) -> Result<(Operand, usize), Stop>
    requires calls { U.IsAlwaysCallable unary.now }
    requires told { ReadsBy tokens.now (U.post unary.now) (grammar.unary room) }
    ensures { Told tokens.now (grammar.link level (grammar.operand level (grammar.unary room))) at result }
{
    let (op, behind) = op(tokens, at, level)?;
    let (right, end) = operand(alloc, tokens, behind, room, level, unary)?;
    Ok((
        Operand {
            op,
            right: right.tree,
        },
        end,
    ))
}

// The operators behind a first operand.
#[cycle(levels)]
fn links<U: Fn(usize) -> Result<(Part, usize), Stop>>(
    alloc: Global,
    tokens: &[Token],
    at: usize,
    room: usize,
    level: Level,
    unary: &U,
) -> Result<(Items<Operand>, usize), Stop>
    requires calls { U.IsAlwaysCallable unary.now }
    requires told { ReadsBy tokens.now (U.post unary.now) (grammar.unary room) }
    ensures { Told tokens.now (grammar.links level (grammar.operand level (grammar.unary room))) at result }
{
    let mut links = Items::new(alloc);
    let mut end = at;
    'links: while is_op(tokens, end, level) {
        let (next, after) = link(alloc, tokens, end, room, level, unary)?;
        links.push(next)?;
        end = after;
    }
    Ok((links, end))
}

/// Operands of one level with any number of its operators between them.
#[cycle(levels)]
pub fn chain<U: Fn(usize) -> Result<(Part, usize), Stop>>(
    alloc: Global,
    tokens: &[Token],
    at: usize,
    room: usize,
    level: Level,
    unary: &U,
) -> Result<(Part, usize), Stop>
    requires calls { U.IsAlwaysCallable unary.now }
    requires told { ReadsBy tokens.now (U.post unary.now) (grammar.unary room) }
    ensures { Told tokens.now (grammar.chain level (grammar.operand level (grammar.unary room))) at result }
{
    let (first, behind) = operand(alloc, tokens, at, room, level, unary)?;
    let (links, end) = links(alloc, tokens, behind, room, level, unary)?;
    let span = span_of(tokens, at, end);
    Ok((chained(alloc, span, first, links)?, end))
}

// An order and its right operand, behind the left one that began at `start`.
#[cycle(levels)]
fn ordered<U: Fn(usize) -> Result<(Part, usize), Stop>>(
    alloc: Global,
    tokens: &[Token],
    at: usize,
    room: usize,
    start: usize,
    first: Part,
    unary: &U,
) -> Result<(Part, usize), Stop>
    requires calls { U.IsAlwaysCallable unary.now }
    requires told { ReadsBy tokens.now (U.post unary.now) (grammar.unary room) }
    ensures { Told tokens.now (grammar.ordered start first (grammar.operand levels.Order (grammar.unary room))) at result }
{
    let (right, end) = link(alloc, tokens, at, room, Level::Order, unary)?;
    let mut links = Items::new(alloc);
    links.push(right)?;
    let span = span_of(tokens, start, end);
    Ok((chained(alloc, span, first, links)?, end))
}

// One operand, or two with an order between them.
#[cycle(levels)]
fn order<U: Fn(usize) -> Result<(Part, usize), Stop>>(
    alloc: Global,
    tokens: &[Token],
    at: usize,
    room: usize,
    unary: &U,
) -> Result<(Part, usize), Stop>
    requires calls { U.IsAlwaysCallable unary.now }
    requires told { ReadsBy tokens.now (U.post unary.now) (grammar.unary room) }
    ensures { Told tokens.now (grammar.order (grammar.operand levels.Order (grammar.unary room))) at result }
{
    let (first, behind) = operand(alloc, tokens, at, room, Level::Order, unary)?;
    if is_op(tokens, behind, Level::Order) {
        ordered(alloc, tokens, behind, room, at, first, unary)
    } else {
        Ok((first, behind))
    }
}
