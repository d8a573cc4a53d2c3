// Binds, kept as ranges of tokens.

ghost use Rattle.std.specs.Prelude.{◌≡◌, ◌<◌, MatchBool, IfOk};
ghost use Rattle.token_grammar.specs.Readings.{Told};
ghost use Rattle.token_grammar.specs.Tokens.{skip};
ghost use Rattle.token_grammar.specs.Notation.{seen};
ghost use Rattle.soql_parse.specs.Queries as grammar;

use apex_lexer::{Sign, Token, TokenKind};
use apex_syntax::{BindRange, BindTree};
use std::alloc::Global;
use token_grammar::{Names, ParseWord, Stop, is_sign, kind_at, name, pass_sign, span_of, token_at};

// The sign that closes what this one opens.
fn closing(kind: TokenKind) -> Option<Sign>
    ensures { result ≡ grammar.closing kind }
{
    match kind {
        TokenKind::Sign(Sign::OpenParen) => Some(Sign::CloseParen),
        TokenKind::Sign(Sign::OpenBracket) => Some(Sign::CloseBracket),
        TokenKind::Sign(Sign::OpenBrace) => Some(Sign::CloseBrace),
        _ => None,
    }
}

// Whether the token at a place opens a group.
fn is_opening(tokens: &[Token], at: usize) -> bool
    ensures { MatchBool result (grammar.next_opening (seen tokens.now) at) (grammar.next_opening (seen tokens.now) at → ⊥) }
{
    match kind_at(tokens, at) {
        TokenKind::Sign(sign) => match sign {
            Sign::OpenParen | Sign::OpenBracket | Sign::OpenBrace => true,
            _ => false,
        },
        _ => false,
    }
}

// Whether the token at a place is neither a closing sign nor the end.
fn is_inner(tokens: &[Token], at: usize) -> bool
    ensures { MatchBool result (grammar.next_inner (seen tokens.now) at) (grammar.next_inner (seen tokens.now) at → ⊥) }
{
    match kind_at(tokens, at) {
        TokenKind::Sign(sign) => match sign {
            Sign::CloseParen | Sign::CloseBracket | Sign::CloseBrace => false,
            _ => true,
        },
        TokenKind::End => false,
        _ => true,
    }
}

// The opening sign at a place: the one that closes it, and the place behind.
fn opening(tokens: &[Token], at: usize) -> Result<(Sign, usize), Stop>
    ensures { Told tokens.now grammar.opening at result }
{
    if let Some(token) = token_at(tokens, at) {
        if let Some(sign) = closing(token.kind) {
            return Ok((sign, at + 1));
        }
    }
    Err(Stop::At(ParseWord::Expected, at))
}

// Any token.
fn any_token(tokens: &[Token], at: usize) -> Result<((), usize), Stop>
    ensures { Told tokens.now grammar.any_token at result }
{
    match token_at(tokens, at) {
        Some(_) => Ok(((), at + 1)),
        None => Err(Stop::At(ParseWord::Expected, at)),
    }
}

// The sign that closes a group, where `room` more may be open.
fn opener(tokens: &[Token], at: usize, room: usize) -> Result<(Sign, usize), Stop>
    ensures told { Told tokens.now (grammar.opener room) at result }
    ensures room { IfOk result (λ _. 0 < room) }
{
    let (close, behind) = opening(tokens, at)?;
    if room == 0 {
        return Err(Stop::At(ParseWord::TooDeep, at));
    }
    Ok((close, behind))
}

// A token of a group, or a group in it.
#[cycle(group)]
fn inner(tokens: &[Token], at: usize, room: usize) -> Result<((), usize), Stop>
    ensures { Told tokens.now (grammar.inner (grammar.group room)) at result }
{
    if is_opening(tokens, at) {
        group(tokens, at, room)
    } else {
        any_token(tokens, at)
    }
}

// The tokens and groups of a group.
#[cycle(group)]
fn inners(tokens: &[Token], at: usize, room: usize) -> Result<((), usize), Stop>
    ensures { Told tokens.now (skip grammar.next_inner (grammar.inner (grammar.group room))) at result }
{
    let mut end = at;
    'inners: while is_inner(tokens, end) {
        let (_, after) = inner(tokens, end, room)?;
        end = after;
    }
    Ok(((), end))
}

// An opening sign, tokens and groups, and the sign that closes it.
#[cycle(group)]
fn group(tokens: &[Token], at: usize, room: usize) -> Result<((), usize), Stop>
    ensures { Told tokens.now (grammar.group room) at result }
{
    let (close, behind) = opener(tokens, at, room)?;
    let (_, behind) = inners(tokens, behind, room - 1)?;
    let end = pass_sign(tokens, behind, close)?;
    Ok(((), end))
}

// Whether the token at a place goes on with a bind.
fn is_part(tokens: &[Token], at: usize) -> bool
    ensures { MatchBool result (grammar.next_part (seen tokens.now) at) (grammar.next_part (seen tokens.now) at → ⊥) }
{
    match kind_at(tokens, at) {
        TokenKind::Sign(sign) => match sign {
            Sign::Dot | Sign::OpenParen | Sign::OpenBracket => true,
            _ => false,
        },
        _ => false,
    }
}

// A dot and a name, or a group.
fn bind_part(alloc: Global, tokens: &[Token], at: usize, room: usize) -> Result<((), usize), Stop>
    ensures { Told tokens.now (grammar.bind_part room) at result }
{
    if is_sign(tokens, at, Sign::Dot) {
        let behind = pass_sign(tokens, at, Sign::Dot)?;
        let (_, end) = name(alloc, tokens, behind, Names::AllWords)?;
        Ok(((), end))
    } else {
        group(tokens, at, room)
    }
}

// What goes on with a bind.
fn bind_parts(alloc: Global, tokens: &[Token], at: usize, room: usize) -> Result<((), usize), Stop>
    ensures { Told tokens.now (skip grammar.next_part (grammar.bind_part room)) at result }
{
    let mut end = at;
    'parts: while is_part(tokens, end) {
        let (_, after) = bind_part(alloc, tokens, end, room)?;
        end = after;
    }
    Ok(((), end))
}

/// A bind that is kept as its tokens: a colon, a name, and what goes on with it.
pub fn range(
    alloc: Global,
    tokens: &[Token],
    at: usize,
    room: usize,
) -> Result<(BindTree, usize), Stop>
    ensures { Told tokens.now (grammar.range room) at result }
{
    let behind = pass_sign(tokens, at, Sign::Colon)?;
    let (_, behind) = name(alloc, tokens, behind, Names::InCode)?;
    let (_, to) = bind_parts(alloc, tokens, behind, room)?;
    let span = span_of(tokens, at, to);
    Ok((
        BindTree::Tokens(BindRange {
            span,
            from: at,
            to,
            room,
        }),
        to,
    ))
}
