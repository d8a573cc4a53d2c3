// Statements with statements in them. `stmt` reads one in a form that is opened.

ghost use Rattle.std.specs.Prelude.{List};
ghost use Rattle.token_grammar.specs.Notation.{Give};
ghost use Rattle.token_grammar.specs.Readings.{Told, ReadsBy};
ghost use Rattle.token_grammar.specs.Tokens.{optional, next_word};
ghost use Rattle.apex_lexer.specs.declared.token.Keyword.TheVariants as keywords;
ghost use Rattle.apex_lexer.specs.declared.token.Token.{Token};
ghost use Rattle.apex_parse_stmt.specs.Stmts as grammar;

use crate::look::is_stmt;
use crate::loops::{for_parens, tested};
use crate::part::{ForHead, Ways};
use apex_lexer::{Keyword, Sign, Token};
use apex_list::{Boxed, Items};
use apex_syntax::{Body, Expr, Stmt};
use apex_text::Span;
use std::alloc::Global;
use token_grammar::{
    ParseWord, Stop, boxed, is_sign, is_word, open_sign, pass_sign, pass_word, span_of,
};

// A statement in a form that is opened, where so many could be opened before that.
fn inner_stmt<S: Fn(usize) -> Result<(Boxed<Stmt>, usize), Stop>>(
    tokens: &[Token],
    at: usize,
    room: usize,
    stmt: &S,
) -> Result<(Boxed<Stmt>, usize), Stop>
    requires calls { S.IsAlwaysCallable stmt.now }
    requires told { ReadsBy tokens.now (S.post stmt.now) (grammar.deeper_stmt room) }
    ensures { Told tokens.now (grammar.deeper_stmt room) at result }
{
    let _ = tokens;
    let _ = room;
    stmt(at)
}

// The statements of a block.
fn stmts<S: Fn(usize) -> Result<(Boxed<Stmt>, usize), Stop>>(
    alloc: Global,
    tokens: &[Token],
    at: usize,
    room: usize,
    stmt: &S,
) -> Result<(Items<Stmt>, usize), Stop>
    requires calls { S.IsAlwaysCallable stmt.now }
    requires told { ReadsBy tokens.now (S.post stmt.now) (grammar.deeper_stmt room) }
    ensures { Told tokens.now (grammar.stmts (grammar.deeper_stmt room)) at result }
{
    let mut stmts = Items::new(alloc);
    let mut end = at;
    'stmts: while is_stmt(tokens, end) {
        let (next, after) = inner_stmt(tokens, end, room, stmt)?;
        stmts.push(next.into_value())?;
        end = after;
    }
    Ok((stmts, end))
}

/// Statements in braces.
pub fn block<S: Fn(usize) -> Result<(Boxed<Stmt>, usize), Stop>>(
    alloc: Global,
    tokens: &[Token],
    at: usize,
    room: usize,
    stmt: &S,
) -> Result<(Body, usize), Stop>
    requires calls { S.IsAlwaysCallable stmt.now }
    requires told { ReadsBy tokens.now (S.post stmt.now) (grammar.deeper_stmt room) }
    ensures { Told tokens.now (grammar.block room (grammar.deeper_stmt room)) at result }
{
    let (_, behind) = open_sign(tokens, at, Sign::OpenBrace, room)?;
    let (stmts, behind) = stmts(alloc, tokens, behind, room, stmt)?;
    let end = pass_sign(tokens, behind, Sign::CloseBrace)?;
    let span = span_of(tokens, at, end);
    Ok((Body { span, stmts }, end))
}

/// Statements in braces, as a statement.
pub fn braced<S: Fn(usize) -> Result<(Boxed<Stmt>, usize), Stop>>(
    alloc: Global,
    tokens: &[Token],
    at: usize,
    room: usize,
    stmt: &S,
) -> Result<(Boxed<Stmt>, usize), Stop>
    requires calls { S.IsAlwaysCallable stmt.now }
    requires told { ReadsBy tokens.now (S.post stmt.now) (grammar.deeper_stmt room) }
    ensures { Told tokens.now (grammar.braced room (grammar.deeper_stmt room)) at result }
{
    let (body, end) = block(alloc, tokens, at, room, stmt)?;
    boxed(alloc, Stmt::Block(body), end)
}

// A statement for which no room is left.
fn no_room(tokens: &[Token], at: usize) -> Result<(Boxed<Stmt>, usize), Stop>
    ensures { Told tokens.now grammar.no_room at result }
{
    if is_stmt(tokens, at) {
        Err(Stop::At(ParseWord::TooDeep, at))
    } else {
        Err(Stop::At(ParseWord::Expected, at))
    }
}

// A statement without braces in another one.
fn unbraced<S: Fn(usize) -> Result<(Boxed<Stmt>, usize), Stop>>(
    tokens: &[Token],
    at: usize,
    room: usize,
    stmt: &S,
) -> Result<(Boxed<Stmt>, usize), Stop>
    requires calls { S.IsAlwaysCallable stmt.now }
    requires told { ReadsBy tokens.now (S.post stmt.now) (grammar.deeper_stmt room) }
    ensures { Told tokens.now (grammar.unbraced room (grammar.deeper_stmt room)) at result }
{
    if room == 0 {
        return no_room(tokens, at);
    }
    inner_stmt(tokens, at, room, stmt)
}

// A statement in another one.
fn inner<S: Fn(usize) -> Result<(Boxed<Stmt>, usize), Stop>>(
    alloc: Global,
    tokens: &[Token],
    at: usize,
    room: usize,
    stmt: &S,
) -> Result<(Boxed<Stmt>, usize), Stop>
    requires calls { S.IsAlwaysCallable stmt.now }
    requires told { ReadsBy tokens.now (S.post stmt.now) (grammar.deeper_stmt room) }
    ensures { Told tokens.now (grammar.inner room (grammar.deeper_stmt room)) at result }
{
    if is_sign(tokens, at, Sign::OpenBrace) {
        braced(alloc, tokens, at, room, stmt)
    } else {
        unbraced(tokens, at, room, stmt)
    }
}

// The statement behind `else`, where that is written.
fn else_part<S: Fn(usize) -> Result<(Boxed<Stmt>, usize), Stop>>(
    alloc: Global,
    tokens: &[Token],
    at: usize,
    room: usize,
    stmt: &S,
) -> Result<(Option<Boxed<Stmt>>, usize), Stop>
    requires calls { S.IsAlwaysCallable stmt.now }
    requires told { ReadsBy tokens.now (S.post stmt.now) (grammar.deeper_stmt room) }
    ensures { Told tokens.now (optional (next_word keywords.Else) (grammar.else_part room (grammar.deeper_stmt room))) at result }
{
    if is_word(tokens, at, Keyword::Else) {
        let behind = pass_word(tokens, at, Keyword::Else)?;
        let (tree, end) = inner(alloc, tokens, behind, room, stmt)?;
        Ok((Some(tree), end))
    } else {
        Ok((None, at))
    }
}

// The statements of an `if`.
fn ways<S: Fn(usize) -> Result<(Boxed<Stmt>, usize), Stop>>(
    alloc: Global,
    tokens: &[Token],
    at: usize,
    room: usize,
    stmt: &S,
) -> Result<(Ways, usize), Stop>
    requires calls { S.IsAlwaysCallable stmt.now }
    requires told { ReadsBy tokens.now (S.post stmt.now) (grammar.deeper_stmt room) }
    ensures { Told tokens.now (grammar.ways room (grammar.deeper_stmt room)) at result }
{
    let (yes, behind) = inner(alloc, tokens, at, room, stmt)?;
    let (no, end) = else_part(alloc, tokens, behind, room, stmt)?;
    Ok((Ways { yes, no }, end))
}

fn if_stmt<S: Fn(usize) -> Result<(Boxed<Stmt>, usize), Stop>>(
    alloc: Global,
    tokens: &[Token],
    at: usize,
    room: usize,
    stmt: &S,
) -> Result<(Boxed<Stmt>, usize), Stop>
    requires calls { S.IsAlwaysCallable stmt.now }
    requires told { ReadsBy tokens.now (S.post stmt.now) (grammar.deeper_stmt room) }
    ensures { Told tokens.now (grammar.if_stmt room (grammar.deeper_stmt room)) at result }
{
    let behind = pass_word(tokens, at, Keyword::If)?;
    let (cond, behind) = tested(alloc, tokens, behind, room)?;
    let (ways, end) = ways(alloc, tokens, behind, room, stmt)?;
    let span = span_of(tokens, at, end);
    boxed(alloc, Stmt::If(span, cond, ways.yes, ways.no), end)
}

fn while_stmt<S: Fn(usize) -> Result<(Boxed<Stmt>, usize), Stop>>(
    alloc: Global,
    tokens: &[Token],
    at: usize,
    room: usize,
    stmt: &S,
) -> Result<(Boxed<Stmt>, usize), Stop>
    requires calls { S.IsAlwaysCallable stmt.now }
    requires told { ReadsBy tokens.now (S.post stmt.now) (grammar.deeper_stmt room) }
    ensures { Told tokens.now (grammar.while_stmt room (grammar.deeper_stmt room)) at result }
{
    let behind = pass_word(tokens, at, Keyword::While)?;
    let (cond, behind) = tested(alloc, tokens, behind, room)?;
    let (inner, end) = inner(alloc, tokens, behind, room, stmt)?;
    let span = span_of(tokens, at, end);
    boxed(alloc, Stmt::While(span, cond, inner), end)
}

// `while`, a condition and `;`
fn do_end(
    alloc: Global,
    tokens: &[Token],
    at: usize,
    room: usize,
) -> Result<(Boxed<Expr>, usize), Stop>
    ensures { Told tokens.now (grammar.do_end room) at result }
{
    let behind = pass_word(tokens, at, Keyword::While)?;
    let (cond, behind) = tested(alloc, tokens, behind, room)?;
    let end = pass_sign(tokens, behind, Sign::Semicolon)?;
    Ok((cond, end))
}

fn do_stmt<S: Fn(usize) -> Result<(Boxed<Stmt>, usize), Stop>>(
    alloc: Global,
    tokens: &[Token],
    at: usize,
    room: usize,
    stmt: &S,
) -> Result<(Boxed<Stmt>, usize), Stop>
    requires calls { S.IsAlwaysCallable stmt.now }
    requires told { ReadsBy tokens.now (S.post stmt.now) (grammar.deeper_stmt room) }
    ensures { Told tokens.now (grammar.do_stmt room (grammar.deeper_stmt room)) at result }
{
    let behind = pass_word(tokens, at, Keyword::Do)?;
    let (inner, behind) = inner(alloc, tokens, behind, room, stmt)?;
    let (cond, end) = do_end(alloc, tokens, behind, room)?;
    let span = span_of(tokens, at, end);
    boxed(alloc, Stmt::Do(span, inner, cond), end)
}

// A `for` that ends here, in a box.
fn for_made(
    alloc: Global,
    span: Span,
    head: Boxed<ForHead>,
    stmt: Boxed<Stmt>,
    end: usize,
) -> Result<(Boxed<Stmt>, usize), Stop>
    ensures { (tokens : List Token) → Told tokens (Give (grammar.for_tree span head stmt)) end result }
{
    match head.into_value() {
        ForHead::Each(kind, name, list) => {
            let kind = kind.into_value();
            let tree = Stmt::ForEach(span, kind, name, list, stmt);
            boxed(alloc, tree, end)
        }
        ForHead::Loop(start, cond, step) => {
            let start = start.into_value();
            let tree = Stmt::For(span, start, cond, step, stmt);
            boxed(alloc, tree, end)
        }
    }
}

fn for_stmt<S: Fn(usize) -> Result<(Boxed<Stmt>, usize), Stop>>(
    alloc: Global,
    tokens: &[Token],
    at: usize,
    room: usize,
    stmt: &S,
) -> Result<(Boxed<Stmt>, usize), Stop>
    requires calls { S.IsAlwaysCallable stmt.now }
    requires told { ReadsBy tokens.now (S.post stmt.now) (grammar.deeper_stmt room) }
    ensures { Told tokens.now (grammar.for_stmt room (grammar.deeper_stmt room)) at result }
{
    let behind = pass_word(tokens, at, Keyword::For)?;
    let (head, behind) = for_parens(alloc, tokens, behind, room)?;
    let (inner, end) = inner(alloc, tokens, behind, room, stmt)?;
    let span = span_of(tokens, at, end);
    for_made(alloc, span, head, inner, end)
}

/// A statement that has statements in it and isn't `try`.
pub fn branching<S: Fn(usize) -> Result<(Boxed<Stmt>, usize), Stop>>(
    alloc: Global,
    tokens: &[Token],
    at: usize,
    room: usize,
    stmt: &S,
) -> Result<(Boxed<Stmt>, usize), Stop>
    requires calls { S.IsAlwaysCallable stmt.now }
    requires told { ReadsBy tokens.now (S.post stmt.now) (grammar.deeper_stmt room) }
    ensures { Told tokens.now (grammar.branching room (grammar.deeper_stmt room)) at result }
{
    if is_word(tokens, at, Keyword::If) {
        if_stmt(alloc, tokens, at, room, stmt)
    } else if is_word(tokens, at, Keyword::While) {
        while_stmt(alloc, tokens, at, room, stmt)
    } else if is_word(tokens, at, Keyword::Do) {
        do_stmt(alloc, tokens, at, room, stmt)
    } else {
        for_stmt(alloc, tokens, at, room, stmt)
    }
}
