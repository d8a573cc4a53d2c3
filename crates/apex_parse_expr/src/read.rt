// Expressions where so many forms may be open.

ghost use Rattle.std.specs.Prelude.{◌≡◌, ◌≤◌, min, MatchResult};
ghost use Rattle.token_grammar.specs.Readings.{Told, Found, RefusedBy};
ghost use Rattle.apex_parse_expr.specs.Exprs as grammar;

use crate::args::args;
use crate::part::Part;
use crate::postfix::bind_with;
use crate::rule::InCode;
use crate::unary::unary_with;
use crate::whole::expr_with;
use apex_lexer::Token;
use apex_list::{Boxed, Items};
use apex_syntax::{BindTree, Expr, QueryTree};
use soql_parse::{Binds, query_within};
use std::alloc::Global;
use token_grammar::{ParseFault, ParseWord, Stop, fault_of};

// An expression in a form that is opened, where so many could be opened before that.
#[cycle(expr)]
fn deeper_expr(
    alloc: Global,
    tokens: &[Token],
    at: usize,
    room: usize,
) -> Result<(Boxed<Expr>, usize), Stop>
    ensures { Told tokens.now (grammar.deeper_expr room) at result }
{
    if room == 0 {
        return Err(Stop::At(ParseWord::TooDeep, at));
    }
    expr_within(alloc, tokens, at, room - 1)
}

// The same of an operand without a binary operator.
#[cycle(expr)]
fn deeper_unary(
    alloc: Global,
    tokens: &[Token],
    at: usize,
    room: usize,
) -> Result<(Part, usize), Stop>
    ensures { Told tokens.now (grammar.deeper_unary room) at result }
{
    if room == 0 {
        return Err(Stop::At(ParseWord::TooDeep, at));
    }
    unary_within(alloc, tokens, at, room - 1)
}

// The same of a query.
#[cycle(expr)]
fn deeper_query(
    alloc: Global,
    tokens: &[Token],
    at: usize,
    room: usize,
) -> Result<(Boxed<QueryTree>, usize), Stop>
    ensures { Told tokens.now (grammar.deeper_query room) at result }
{
    if room == 0 {
        return Err(Stop::At(ParseWord::TooDeep, at));
    }
    let most = room - 1;
    let read = |place: usize, inside: usize| -> Result<(BindTree, usize), Stop>
        ensures { Told tokens.entry.now (grammar.binds most inside) place result }
    { bind_within(alloc, tokens, place, least(inside, most)) };
    let how = InCode { room: most };
    query_within(alloc, tokens, at, most, &Binds { how, read })
}

// A bind of a query, where `room` more forms may be open.
#[cycle(expr)]
fn bind_within(
    alloc: Global,
    tokens: &[Token],
    at: usize,
    room: usize,
) -> Result<(BindTree, usize), Stop>
    ensures { Told tokens.now (grammar.bind_with room (grammar.deeper_expr room)) at result }
{
    let argument = |place: usize| -> Result<(Boxed<Expr>, usize), Stop>
        ensures { Told tokens.entry.now (grammar.deeper_expr room) place result }
    { deeper_expr(alloc, tokens, place, room) };
    bind_with(alloc, tokens, at, room, &argument)
}

// An operand without a binary operator, where `room` more forms may be open.
#[cycle(expr)]
fn unary_within(
    alloc: Global,
    tokens: &[Token],
    at: usize,
    room: usize,
) -> Result<(Part, usize), Stop>
    ensures { Told tokens.now (grammar.unary room) at result }
{
    let expr = |place: usize| -> Result<(Boxed<Expr>, usize), Stop>
        ensures { Told tokens.entry.now (grammar.deeper_expr room) place result }
    { deeper_expr(alloc, tokens, place, room) };
    let query = |place: usize| -> Result<(Boxed<QueryTree>, usize), Stop>
        ensures { Told tokens.entry.now (grammar.deeper_query room) place result }
    { deeper_query(alloc, tokens, place, room) };
    let unary = |place: usize| -> Result<(Part, usize), Stop>
        ensures { Told tokens.entry.now (grammar.deeper_unary room) place result }
    { deeper_unary(alloc, tokens, place, room) };
    unary_with(alloc, tokens, at, room, &expr, &query, &unary)
}

/// An expression and the place behind it, where `room` more forms may be open.
#[cycle(expr)]
pub fn expr_within(
    alloc: Global,
    tokens: &[Token],
    at: usize,
    room: usize,
) -> Result<(Boxed<Expr>, usize), Stop>
    ensures { Told tokens.now (grammar.expr room) at result }
{
    let inner = |place: usize| -> Result<(Boxed<Expr>, usize), Stop>
        ensures { Told tokens.entry.now (grammar.deeper_expr room) place result }
    { deeper_expr(alloc, tokens, place, room) };
    let operand = |place: usize| -> Result<(Part, usize), Stop>
        ensures { Told tokens.entry.now (grammar.unary room) place result }
    { unary_within(alloc, tokens, place, room) };
    expr_with(alloc, tokens, at, room, &inner, &operand)
}

/// Arguments in their parentheses, where `room` more forms may be open.
pub fn args_within(
    alloc: Global,
    tokens: &[Token],
    at: usize,
    room: usize,
) -> Result<(Items<Expr>, usize), Stop>
    ensures { Told tokens.now (grammar.args room (grammar.deeper_expr room)) at result }
{
    let inner = |place: usize| -> Result<(Boxed<Expr>, usize), Stop>
        ensures { Told tokens.entry.now (grammar.deeper_expr room) place result }
    { deeper_expr(alloc, tokens, place, room) };
    args(alloc, tokens, at, room, &inner)
}

fn least(a: usize, b: usize) -> usize
    ensures least { result ≡ min a b }
    ensures within { result ≤ b }
{
    if a < b { a } else { b }
}

/// The expression that begins at a token, and the place behind it. At most 64 forms are open at once.
pub fn expr(alloc: Global, tokens: &[Token], at: usize) -> Result<(Boxed<Expr>, usize), ParseFault>
    ensures { MatchResult result (λ r. Found tokens.now (grammar.expr 64) at r.0 r.1) (λ e. RefusedBy tokens.now (grammar.expr 64) at e) }
{
    match expr_within(alloc, tokens, at, 64) {
        Ok(read) => Ok(read),
        Err(stop) => Err(fault_of(tokens, stop)),
    }
}
