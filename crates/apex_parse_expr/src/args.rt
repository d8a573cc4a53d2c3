// Expressions in parentheses and between commas. `expr` reads an expression in a form that is opened.

ghost use Rattle.token_grammar.specs.Readings.{Told, ReadsBy};
ghost use Rattle.apex_parse_expr.specs.Exprs as grammar;

use apex_lexer::{Sign, Token};
use apex_list::{Boxed, Items};
use apex_syntax::{Expr, Word};
use std::alloc::Global;
use token_grammar::{Names, Stop, add, boxed, is_sign, name, open_sign, pass_sign, span_of};

fn comma_expr<E: Fn(usize) -> Result<(Boxed<Expr>, usize), Stop>>(
    tokens: &[Token],
    at: usize,
    room: usize,
    expr: &E,
) -> Result<(Boxed<Expr>, usize), Stop>
    requires calls { E.IsAlwaysCallable expr.now }
    requires told { ReadsBy tokens.now (E.post expr.now) (grammar.deeper_expr room) }
    ensures { Told tokens.now (grammar.comma_expr (grammar.deeper_expr room)) at result }
{
    let behind = pass_sign(tokens, at, Sign::Comma)?;
    inner(tokens, behind, room, expr)
}

// The expressions behind a first one.
fn more_exprs<E: Fn(usize) -> Result<(Boxed<Expr>, usize), Stop>>(
    alloc: Global,
    tokens: &[Token],
    at: usize,
    room: usize,
    first: Boxed<Expr>,
    expr: &E,
) -> Result<(Items<Expr>, usize), Stop>
    requires calls { E.IsAlwaysCallable expr.now }
    requires told { ReadsBy tokens.now (E.post expr.now) (grammar.deeper_expr room) }
    ensures { Told tokens.now (grammar.more_exprs (grammar.deeper_expr room) first) at result }
{
    let mut exprs = Items::new(alloc);
    add(&mut exprs, first)?;
    let mut end = at;
    'exprs: while is_sign(tokens, end, Sign::Comma) {
        let (next, after) = comma_expr(tokens, end, room, expr)?;
        add(&mut exprs, next)?;
        end = after;
    }
    Ok((exprs, end))
}

fn some_exprs<E: Fn(usize) -> Result<(Boxed<Expr>, usize), Stop>>(
    alloc: Global,
    tokens: &[Token],
    at: usize,
    room: usize,
    expr: &E,
) -> Result<(Items<Expr>, usize), Stop>
    requires calls { E.IsAlwaysCallable expr.now }
    requires told { ReadsBy tokens.now (E.post expr.now) (grammar.deeper_expr room) }
    ensures { Told tokens.now (grammar.some_exprs (grammar.deeper_expr room)) at result }
{
    let (first, behind) = inner(tokens, at, room, expr)?;
    more_exprs(alloc, tokens, behind, room, first, expr)
}

// What stands between the parentheses.
fn inner_args<E: Fn(usize) -> Result<(Boxed<Expr>, usize), Stop>>(
    alloc: Global,
    tokens: &[Token],
    at: usize,
    room: usize,
    expr: &E,
) -> Result<(Items<Expr>, usize), Stop>
    requires calls { E.IsAlwaysCallable expr.now }
    requires told { ReadsBy tokens.now (E.post expr.now) (grammar.deeper_expr room) }
    ensures { Told tokens.now (grammar.inner_args (grammar.deeper_expr room)) at result }
{
    if is_sign(tokens, at, Sign::CloseParen) {
        Ok((Items::new(alloc), at))
    } else {
        some_exprs(alloc, tokens, at, room, expr)
    }
}

/// Arguments in their parentheses.
pub fn args<E: Fn(usize) -> Result<(Boxed<Expr>, usize), Stop>>(
    alloc: Global,
    tokens: &[Token],
    at: usize,
    room: usize,
    expr: &E,
) -> Result<(Items<Expr>, usize), Stop>
    requires calls { E.IsAlwaysCallable expr.now }
    requires told { ReadsBy tokens.now (E.post expr.now) (grammar.deeper_expr room) }
    ensures { Told tokens.now (grammar.args room (grammar.deeper_expr room)) at result }
{
    let (_, behind) = open_sign(tokens, at, Sign::OpenParen, room)?;
    let (exprs, behind) = inner_args(alloc, tokens, behind, room, expr)?;
    let end = pass_sign(tokens, behind, Sign::CloseParen)?;
    Ok((exprs, end))
}

/// An expression in a form that is opened, where so many could be opened before that.
pub fn inner<E: Fn(usize) -> Result<(Boxed<Expr>, usize), Stop>>(
    tokens: &[Token],
    at: usize,
    room: usize,
    expr: &E,
) -> Result<(Boxed<Expr>, usize), Stop>
    requires calls { E.IsAlwaysCallable expr.now }
    requires told { ReadsBy tokens.now (E.post expr.now) (grammar.deeper_expr room) }
    ensures { Told tokens.now (grammar.deeper_expr room) at result }
{
    let _ = tokens;
    let _ = room;
    expr(at)
}

// Arguments behind a name that began at `start`.
fn call<E: Fn(usize) -> Result<(Boxed<Expr>, usize), Stop>>(
    alloc: Global,
    tokens: &[Token],
    at: usize,
    room: usize,
    start: usize,
    word: Word,
    expr: &E,
) -> Result<(Boxed<Expr>, usize), Stop>
    requires calls { E.IsAlwaysCallable expr.now }
    requires told { ReadsBy tokens.now (E.post expr.now) (grammar.deeper_expr room) }
    ensures { Told tokens.now (grammar.call room (grammar.deeper_expr room) start word) at result }
{
    let (args, end) = args(alloc, tokens, at, room, expr)?;
    let span = span_of(tokens, start, end);
    boxed(alloc, Expr::Call(span, word, args), end)
}

/// A name, or a name with arguments.
pub fn named<E: Fn(usize) -> Result<(Boxed<Expr>, usize), Stop>>(
    alloc: Global,
    tokens: &[Token],
    at: usize,
    room: usize,
    expr: &E,
) -> Result<(Boxed<Expr>, usize), Stop>
    requires calls { E.IsAlwaysCallable expr.now }
    requires told { ReadsBy tokens.now (E.post expr.now) (grammar.deeper_expr room) }
    ensures { Told tokens.now (grammar.named room (grammar.deeper_expr room)) at result }
{
    let (word, behind) = name(alloc, tokens, at, Names::InCode)?;
    if is_sign(tokens, behind, Sign::OpenParen) {
        call(alloc, tokens, behind, room, at, word, expr)
    } else {
        boxed(alloc, Expr::Name(word), behind)
    }
}

/// An expression in parentheses.
pub fn paren<E: Fn(usize) -> Result<(Boxed<Expr>, usize), Stop>>(
    alloc: Global,
    tokens: &[Token],
    at: usize,
    room: usize,
    expr: &E,
) -> Result<(Boxed<Expr>, usize), Stop>
    requires calls { E.IsAlwaysCallable expr.now }
    requires told { ReadsBy tokens.now (E.post expr.now) (grammar.deeper_expr room) }
    ensures { Told tokens.now (grammar.paren room (grammar.deeper_expr room)) at result }
{
    let (_, behind) = open_sign(tokens, at, Sign::OpenParen, room)?;
    let (tree, behind) = inner(tokens, behind, room, expr)?;
    let end = pass_sign(tokens, behind, Sign::CloseParen)?;
    let span = span_of(tokens, at, end);
    boxed(alloc, Expr::Paren(span, tree), end)
}
