// Primary and postfix expressions. `expr` and `query` read an expression and a query in a form that is opened.

ghost use Rattle.std.specs.Prelude.{◌≡◌, MatchBool, IfOk};
ghost use Rattle.token_grammar.specs.Notation.{seen};
ghost use Rattle.token_grammar.specs.Readings.{Told, ReadsBy};
ghost use Rattle.token_grammar.specs.Tokens.{next_name};
ghost use Rattle.token_grammar.specs.declared.read.Names.TheVariants as names;
ghost use Rattle.apex_parse_leaf.specs.Types as types;
ghost use Rattle.apex_parse_expr.specs.Exprs as grammar;

use crate::args::{args, inner, named, paren};
use crate::news::new_expr;
use apex_lexer::{Keyword, Sign, Token};
use apex_list::{Boxed, Items};
use apex_parse_leaf::{is_part, is_step, simple, step};
use apex_syntax::{BindTree, Expr, PostfixPart, QueryTree, Word};
use apex_text::Span;
use std::alloc::{AllocError, Global};
use token_grammar::{
    Names, Stop, boxed, is_name, is_sign, is_word, kind_at, name, open_sign, pass_sign, span_of,
};

// A query in a form that is opened, where so many could be opened before that.
fn inner_query<Q: Fn(usize) -> Result<(Boxed<QueryTree>, usize), Stop>>(
    tokens: &[Token],
    at: usize,
    room: usize,
    query: &Q,
) -> Result<(Boxed<QueryTree>, usize), Stop>
    requires calls { Q.IsAlwaysCallable query.now }
    requires told { ReadsBy tokens.now (Q.post query.now) (grammar.deeper_query room) }
    ensures { Told tokens.now (grammar.deeper_query room) at result }
{
    let _ = tokens;
    let _ = room;
    query(at)
}

// A query in brackets.
fn bracketed<Q: Fn(usize) -> Result<(Boxed<QueryTree>, usize), Stop>>(
    alloc: Global,
    tokens: &[Token],
    at: usize,
    room: usize,
    query: &Q,
) -> Result<(Boxed<Expr>, usize), Stop>
    requires calls { Q.IsAlwaysCallable query.now }
    requires told { ReadsBy tokens.now (Q.post query.now) (grammar.deeper_query room) }
    ensures { Told tokens.now (grammar.bracketed room (grammar.deeper_query room)) at result }
{
    let (_, behind) = open_sign(tokens, at, Sign::OpenBracket, room)?;
    let (tree, behind) = inner_query(tokens, behind, room, query)?;
    let end = pass_sign(tokens, behind, Sign::CloseBracket)?;
    let span = span_of(tokens, at, end);
    boxed(alloc, Expr::Query(span, tree), end)
}

// Whether a name stands here.
fn is_named(tokens: &[Token], at: usize) -> bool
    ensures { MatchBool result (next_name names.InCode (seen tokens.now) at) (next_name names.InCode (seen tokens.now) at → ⊥) }
{
    is_name(Names::InCode, kind_at(tokens, at))
}

fn primary<
    E: Fn(usize) -> Result<(Boxed<Expr>, usize), Stop>,
    Q: Fn(usize) -> Result<(Boxed<QueryTree>, usize), Stop>,
>(
    alloc: Global,
    tokens: &[Token],
    at: usize,
    room: usize,
    expr: &E,
    query: &Q,
) -> Result<(Boxed<Expr>, usize), Stop>
    requires calls { E.IsAlwaysCallable expr.now }
    requires told { ReadsBy tokens.now (E.post expr.now) (grammar.deeper_expr room) }
    requires query_calls { Q.IsAlwaysCallable query.now }
    requires query_told { ReadsBy tokens.now (Q.post query.now) (grammar.deeper_query room) }
    ensures { Told tokens.now (grammar.primary room (grammar.deeper_expr room) (grammar.deeper_query room) (types.type room)) at result }
{
    if is_word(tokens, at, Keyword::New) {
        new_expr(alloc, tokens, at, room, expr)
    } else if is_sign(tokens, at, Sign::OpenParen) {
        paren(alloc, tokens, at, room, expr)
    } else if is_sign(tokens, at, Sign::OpenBracket) {
        bracketed(alloc, tokens, at, room, query)
    } else if is_named(tokens, at) {
        named(alloc, tokens, at, room, expr)
    } else {
        simple(alloc, tokens, at)
    }
}

// Arguments behind a member's name, which began at `start`.
fn call_part<E: Fn(usize) -> Result<(Boxed<Expr>, usize), Stop>>(
    alloc: Global,
    tokens: &[Token],
    at: usize,
    room: usize,
    start: usize,
    word: Word,
    expr: &E,
) -> Result<(PostfixPart, usize), Stop>
    requires calls { E.IsAlwaysCallable expr.now }
    requires told { ReadsBy tokens.now (E.post expr.now) (grammar.deeper_expr room) }
    ensures { Told tokens.now (grammar.call_part room (grammar.deeper_expr room) start word) at result }
{
    let (args, end) = args(alloc, tokens, at, room, expr)?;
    let span = span_of(tokens, start, end);
    Ok((PostfixPart::Call(span, word, args), end))
}

// A dot, and a field or a call.
fn member_part<E: Fn(usize) -> Result<(Boxed<Expr>, usize), Stop>>(
    alloc: Global,
    tokens: &[Token],
    at: usize,
    room: usize,
    expr: &E,
) -> Result<(PostfixPart, usize), Stop>
    requires calls { E.IsAlwaysCallable expr.now }
    requires told { ReadsBy tokens.now (E.post expr.now) (grammar.deeper_expr room) }
    ensures { Told tokens.now (grammar.member_part room (grammar.deeper_expr room)) at result }
{
    let start = pass_sign(tokens, at, Sign::Dot)?;
    let (word, behind) = name(alloc, tokens, start, Names::AllWords)?;
    if is_sign(tokens, behind, Sign::OpenParen) {
        call_part(alloc, tokens, behind, room, start, word, expr)
    } else {
        Ok((PostfixPart::Field(word), behind))
    }
}

// An index in brackets.
fn index_part<E: Fn(usize) -> Result<(Boxed<Expr>, usize), Stop>>(
    tokens: &[Token],
    at: usize,
    room: usize,
    expr: &E,
) -> Result<(PostfixPart, usize), Stop>
    requires calls { E.IsAlwaysCallable expr.now }
    requires told { ReadsBy tokens.now (E.post expr.now) (grammar.deeper_expr room) }
    ensures { Told tokens.now (grammar.index_part room (grammar.deeper_expr room)) at result }
{
    let (_, behind) = open_sign(tokens, at, Sign::OpenBracket, room)?;
    let (index, behind) = inner(tokens, behind, room, expr)?;
    let end = pass_sign(tokens, behind, Sign::CloseBracket)?;
    let span = span_of(tokens, at, end);
    Ok((PostfixPart::Index(span, index), end))
}

fn part<E: Fn(usize) -> Result<(Boxed<Expr>, usize), Stop>>(
    alloc: Global,
    tokens: &[Token],
    at: usize,
    room: usize,
    expr: &E,
) -> Result<(PostfixPart, usize), Stop>
    requires calls { E.IsAlwaysCallable expr.now }
    requires told { ReadsBy tokens.now (E.post expr.now) (grammar.deeper_expr room) }
    ensures { Told tokens.now (grammar.part room (grammar.deeper_expr room)) at result }
{
    if is_sign(tokens, at, Sign::Dot) {
        member_part(alloc, tokens, at, room, expr)
    } else {
        index_part(tokens, at, room, expr)
    }
}

// What goes on with a primary expression.
fn parts<E: Fn(usize) -> Result<(Boxed<Expr>, usize), Stop>>(
    alloc: Global,
    tokens: &[Token],
    at: usize,
    room: usize,
    expr: &E,
) -> Result<(Items<PostfixPart>, usize), Stop>
    requires calls { E.IsAlwaysCallable expr.now }
    requires told { ReadsBy tokens.now (E.post expr.now) (grammar.deeper_expr room) }
    ensures { Told tokens.now (grammar.parts room (grammar.deeper_expr room)) at result }
{
    let mut parts = Items::new(alloc);
    let mut end = at;
    'parts: while is_part(tokens, end) {
        let (next, after) = part(alloc, tokens, end, room, expr)?;
        parts.push(next)?;
        end = after;
    }
    Ok((parts, end))
}

// `++` or `--` behind the parts.
fn stepped(
    tokens: &[Token],
    at: usize,
    parts: Items<PostfixPart>,
) -> Result<(Items<PostfixPart>, usize), Stop>
    ensures { Told tokens.now (grammar.stepped parts) at result }
{
    let mut parts = parts;
    if is_step(tokens, at) {
        let (last, end) = step(tokens, at)?;
        parts.push(last)?;
        Ok((parts, end))
    } else {
        Ok((parts, at))
    }
}

// The expression with its parts.
fn postfixed(
    alloc: Global,
    span: Span,
    first: Boxed<Expr>,
    parts: Items<PostfixPart>,
) -> Result<Boxed<Expr>, AllocError>
    ensures { IfOk result (λ tree. tree ≡ grammar.postfixed span first parts) }
{
    if parts.is_empty() {
        Ok(first)
    } else {
        Boxed::new(alloc, Expr::Postfix(span, first, parts))
    }
}

/// A postfix expression.
pub fn postfix<
    E: Fn(usize) -> Result<(Boxed<Expr>, usize), Stop>,
    Q: Fn(usize) -> Result<(Boxed<QueryTree>, usize), Stop>,
>(
    alloc: Global,
    tokens: &[Token],
    at: usize,
    room: usize,
    expr: &E,
    query: &Q,
) -> Result<(Boxed<Expr>, usize), Stop>
    requires calls { E.IsAlwaysCallable expr.now }
    requires told { ReadsBy tokens.now (E.post expr.now) (grammar.deeper_expr room) }
    requires query_calls { Q.IsAlwaysCallable query.now }
    requires query_told { ReadsBy tokens.now (Q.post query.now) (grammar.deeper_query room) }
    ensures { Told tokens.now (grammar.postfix room (grammar.deeper_expr room) (grammar.deeper_query room) (types.type room)) at result }
{
    let (first, behind) = primary(alloc, tokens, at, room, expr, query)?;
    let (parts, behind) = parts(alloc, tokens, behind, room, expr)?;
    let (parts, end) = stepped(tokens, behind, parts)?;
    let span = span_of(tokens, at, end);
    Ok((postfixed(alloc, span, first, parts)?, end))
}

// The expression of a bind.
fn bound<E: Fn(usize) -> Result<(Boxed<Expr>, usize), Stop>>(
    alloc: Global,
    tokens: &[Token],
    at: usize,
    room: usize,
    expr: &E,
) -> Result<(Boxed<Expr>, usize), Stop>
    requires calls { E.IsAlwaysCallable expr.now }
    requires told { ReadsBy tokens.now (E.post expr.now) (grammar.deeper_expr room) }
    ensures { Told tokens.now (grammar.bound room (grammar.deeper_expr room)) at result }
{
    let (first, behind) = named(alloc, tokens, at, room, expr)?;
    let (parts, end) = parts(alloc, tokens, behind, room, expr)?;
    let span = span_of(tokens, at, end);
    Ok((postfixed(alloc, span, first, parts)?, end))
}

/// A bind of a query.
pub fn bind_with<E: Fn(usize) -> Result<(Boxed<Expr>, usize), Stop>>(
    alloc: Global,
    tokens: &[Token],
    at: usize,
    room: usize,
    expr: &E,
) -> Result<(BindTree, usize), Stop>
    requires calls { E.IsAlwaysCallable expr.now }
    requires told { ReadsBy tokens.now (E.post expr.now) (grammar.deeper_expr room) }
    ensures { Told tokens.now (grammar.bind_with room (grammar.deeper_expr room)) at result }
{
    let behind = pass_sign(tokens, at, Sign::Colon)?;
    let (tree, end) = bound(alloc, tokens, behind, room, expr)?;
    let span = span_of(tokens, at, end);
    Ok((BindTree::Expr(span, tree), end))
}
