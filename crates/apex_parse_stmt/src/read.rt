// Statements where so many forms may be open, and anonymous blocks.

ghost use Rattle.std.specs.Prelude.{MatchResult};
ghost use Rattle.token_grammar.specs.Readings.{Told, Passed, RefusedBy, ReadsBy};
ghost use Rattle.apex_lexer.specs.declared.token.TokenKind.TheVariants as kinds;
ghost use Rattle.apex_parse_stmt.specs.Units as units;
ghost use Rattle.apex_parse_stmt.specs.Stmts as grammar;

use crate::declare::declare;
use crate::leaf::{dml_stmt, empty, expr_stmt, jumps, super_call, this_call};
use crate::look::{is_call, is_declared, is_dml, is_jump, is_nested, is_stmt};
use crate::nest::{block, braced, branching};
use crate::tries::try_stmt;
use apex_lexer::{Keyword, Sign, Token, TokenKind};
use apex_list::{Boxed, Items};
use apex_syntax::{Body, Stmt, Unit};
use std::alloc::Global;
use token_grammar::{ParseFault, ParseWord, Stop, boxed, fault_of, is_sign, is_word, token_at};

fn nested<S: Fn(usize) -> Result<(Boxed<Stmt>, usize), Stop>>(
    alloc: Global,
    tokens: &[Token],
    at: usize,
    room: usize,
    stmt: &S,
) -> Result<(Boxed<Stmt>, usize), Stop>
    requires calls { S.IsAlwaysCallable stmt.now }
    requires told { ReadsBy tokens.now (S.post stmt.now) (grammar.deeper_stmt room) }
    ensures { Told tokens.now (grammar.nested room (grammar.deeper_stmt room)) at result }
{
    if is_word(tokens, at, Keyword::Try) {
        try_stmt(alloc, tokens, at, room, stmt)
    } else {
        branching(alloc, tokens, at, room, stmt)
    }
}

// What begins with no word of its own.
fn other(
    alloc: Global,
    tokens: &[Token],
    at: usize,
    room: usize,
) -> Result<(Boxed<Stmt>, usize), Stop>
    ensures { Told tokens.now (grammar.other room) at result }
{
    if is_call(tokens, at, Keyword::This) {
        return this_call(alloc, tokens, at, room);
    }
    if is_call(tokens, at, Keyword::Super) {
        return super_call(alloc, tokens, at, room);
    }
    let declared = is_declared(alloc, tokens, at)?;
    if declared {
        declare(alloc, tokens, at, room)
    } else {
        expr_stmt(alloc, tokens, at, room)
    }
}

fn stmt_with<S: Fn(usize) -> Result<(Boxed<Stmt>, usize), Stop>>(
    alloc: Global,
    tokens: &[Token],
    at: usize,
    room: usize,
    stmt: &S,
) -> Result<(Boxed<Stmt>, usize), Stop>
    requires calls { S.IsAlwaysCallable stmt.now }
    requires told { ReadsBy tokens.now (S.post stmt.now) (grammar.deeper_stmt room) }
    ensures { Told tokens.now (grammar.stmt_with room (grammar.deeper_stmt room)) at result }
{
    if is_sign(tokens, at, Sign::OpenBrace) {
        braced(alloc, tokens, at, room, stmt)
    } else if is_sign(tokens, at, Sign::Semicolon) {
        empty(alloc, tokens, at)
    } else if is_nested(tokens, at) {
        nested(alloc, tokens, at, room, stmt)
    } else if is_jump(tokens, at) {
        jumps(alloc, tokens, at, room)
    } else if is_dml(tokens, at) {
        dml_stmt(alloc, tokens, at, room)
    } else {
        other(alloc, tokens, at, room)
    }
}

// A statement in a form that is opened, where so many could be opened before that.
#[cycle(stmt)]
fn deeper_stmt(
    alloc: Global,
    tokens: &[Token],
    at: usize,
    room: usize,
) -> Result<(Boxed<Stmt>, usize), Stop>
    ensures { Told tokens.now (grammar.deeper_stmt room) at result }
{
    if room == 0 {
        return Err(Stop::At(ParseWord::TooDeep, at));
    }
    stmt_within(alloc, tokens, at, room - 1)
}

/// A statement and the place behind it, where `room` more forms may be open.
#[cycle(stmt)]
pub fn stmt_within(
    alloc: Global,
    tokens: &[Token],
    at: usize,
    room: usize,
) -> Result<(Boxed<Stmt>, usize), Stop>
    ensures { Told tokens.now (grammar.stmt room) at result }
{
    let inner = |place: usize| -> Result<(Boxed<Stmt>, usize), Stop>
        ensures { Told tokens.entry.now (grammar.deeper_stmt room) place result }
    { deeper_stmt(alloc, tokens, place, room) };
    stmt_with(alloc, tokens, at, room, &inner)
}

/// Statements in braces and the place behind them, where `room` more forms may be open.
pub fn body_within(
    alloc: Global,
    tokens: &[Token],
    at: usize,
    room: usize,
) -> Result<(Body, usize), Stop>
    ensures { Told tokens.now (grammar.block room (grammar.deeper_stmt room)) at result }
{
    let inner = |place: usize| -> Result<(Boxed<Stmt>, usize), Stop>
        ensures { Told tokens.entry.now (grammar.deeper_stmt room) place result }
    { deeper_stmt(alloc, tokens, place, room) };
    block(alloc, tokens, at, room, &inner)
}

// Statements one after the other, each where `room` more forms may be open.
fn stmts(
    alloc: Global,
    tokens: &[Token],
    at: usize,
    room: usize,
) -> Result<(Items<Stmt>, usize), Stop>
    ensures { Told tokens.now (grammar.stmts (grammar.stmt room)) at result }
{
    let mut stmts = Items::new(alloc);
    let mut end = at;
    'stmts: while is_stmt(tokens, end) {
        let (next, after) = stmt_within(alloc, tokens, end, room)?;
        stmts.push(next.into_value())?;
        end = after;
    }
    Ok((stmts, end))
}

/// The place behind the end of the tokens.
pub fn pass_end(tokens: &[Token], at: usize) -> Result<usize, Stop>
    ensures { Passed tokens.now kinds.End at result }
{
    match token_at(tokens, at) {
        Some(token) => match token.kind {
            TokenKind::End => Ok(at + 1),
            _ => Err(Stop::At(ParseWord::Expected, at)),
        },
        None => Err(Stop::At(ParseWord::Expected, at)),
    }
}

fn anonymous(
    alloc: Global,
    tokens: &[Token],
    at: usize,
    room: usize,
) -> Result<(Items<Stmt>, usize), Stop>
    ensures { Told tokens.now (grammar.anonymous room) at result }
{
    let (stmts, behind) = stmts(alloc, tokens, at, room)?;
    let end = pass_end(tokens, behind)?;
    Ok((stmts, end))
}

// All statements, as a unit.
fn block_unit(alloc: Global, tokens: &[Token], room: usize) -> Result<(Boxed<Unit>, usize), Stop>
    ensures { Told tokens.now (units.block_unit room) 0 result }
{
    let (stmts, end) = anonymous(alloc, tokens, 0, room)?;
    boxed(alloc, Unit::Block(stmts), end)
}

/// The statements of an anonymous block: all tokens up to the end. At most 64 forms are open at once.
pub fn anonymous_unit(alloc: Global, tokens: &[Token]) -> Result<Boxed<Unit>, ParseFault>
    ensures { MatchResult result (units.WholeUnit tokens.now (units.block_unit 64)) (RefusedBy tokens.now (units.block_unit 64) 0) }
{
    match block_unit(alloc, tokens, 64) {
        Ok((unit, _)) => Ok(unit),
        Err(stop) => Err(fault_of(tokens, stop)),
    }
}
