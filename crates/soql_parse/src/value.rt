// Values, lists of them, and counts.

ghost use Rattle.std.specs.Prelude.{◌≡◌, IfOk};
ghost use Rattle.apex_lexer.specs.Reading.{shown};
ghost use Rattle.token_grammar.specs.Readings.{Told};
ghost use Rattle.token_grammar.specs.Notation.{Many};
ghost use Rattle.token_grammar.specs.Tokens.{next_sign};
ghost use Rattle.soql_parse.specs.Readers.{BindsBy};
ghost use Rattle.soql_parse.specs.Queries as grammar;

use crate::binds::{Binds, bind};
use crate::rule::BindRule;
use apex_lexer::{Keyword, Sign, Token, TokenKind};
use apex_list::Items;
use apex_syntax::{BindTree, CountTree, ListTree, NumberTree, ValueTree};
use std::alloc::{AllocError, Global};
use token_grammar::{
    ParseWord, Stop, is_sign, literal_bytes, open_sign, pass_sign, span_of, token_at,
};

fn number_of(kind: TokenKind) -> Option<NumberTree>
    ensures { result ≡ grammar.number_kind kind }
{
    match kind {
        TokenKind::Integer(n) => Some(NumberTree::Integer(n)),
        TokenKind::Long(n) => Some(NumberTree::Long(n)),
        TokenKind::Decimal(n) => Some(NumberTree::Decimal(n)),
        _ => None,
    }
}

// A number without a sign.
fn number(tokens: &[Token], at: usize) -> Result<(NumberTree, usize), Stop>
    ensures { Told tokens.now grammar.number at result }
{
    if let Some(token) = token_at(tokens, at) {
        if let Some(number) = number_of(token.kind) {
            return Ok((number, at + 1));
        }
    }
    Err(Stop::At(ParseWord::Expected, at))
}

// A `-` and a number.
fn negative(tokens: &[Token], at: usize) -> Result<(ValueTree, usize), Stop>
    ensures { Told tokens.now grammar.negative at result }
{
    let behind = pass_sign(tokens, at, Sign::Minus)?;
    let (number, end) = number(tokens, behind)?;
    let span = span_of(tokens, at, end);
    Ok((ValueTree::Number(span, true, number), end))
}

// The value that one token is.
fn literal_of(alloc: Global, token: &Token) -> Result<Option<ValueTree>, AllocError>
    ensures { IfOk result (λ value. value ≡ grammar.literal_of (shown token.now)) }
{
    let span = token.span;
    if let Some(number) = number_of(token.kind) {
        return Ok(Some(ValueTree::Number(span, false, number)));
    }
    match token.kind {
        TokenKind::Quoted => Ok(Some(ValueTree::Text(span, literal_bytes(alloc, token.text)?))),
        TokenKind::Date(day) => Ok(Some(ValueTree::Date(span, day))),
        TokenKind::Moment(second) => Ok(Some(ValueTree::Moment(span, second))),
        TokenKind::Keyword(word) => match word {
            Keyword::True => Ok(Some(ValueTree::Bool(span, true))),
            Keyword::False => Ok(Some(ValueTree::Bool(span, false))),
            Keyword::Null => Ok(Some(ValueTree::Null(span))),
            _ => Ok(None),
        },
        _ => Ok(None),
    }
}

fn literal(alloc: Global, tokens: &[Token], at: usize) -> Result<(ValueTree, usize), Stop>
    ensures { Told tokens.now grammar.literal at result }
{
    if let Some(token) = token_at(tokens, at) {
        if let Some(value) = literal_of(alloc, token)? {
            return Ok((value, at + 1));
        }
    }
    Err(Stop::At(ParseWord::Expected, at))
}

fn bound<K: BindRule, B: Fn(usize, usize) -> Result<(BindTree, usize), Stop>>(
    alloc: Global,
    tokens: &[Token],
    at: usize,
    room: usize,
    binds: &Binds<K, B>,
) -> Result<(ValueTree, usize), Stop>
    requires calls { B.IsAlwaysCallable binds.now.read }
    requires told { BindsBy tokens.now (B.post binds.now.read) (K.rule binds.now.how) }
    ensures { Told tokens.now (grammar.bound (K.rule binds.now.how) room) at result }
{
    let (bind, end) = bind(tokens, at, room, binds)?;
    Ok((ValueTree::Bind(bind), end))
}

/// A value of a condition.
pub fn value<K: BindRule, B: Fn(usize, usize) -> Result<(BindTree, usize), Stop>>(
    alloc: Global,
    tokens: &[Token],
    at: usize,
    room: usize,
    binds: &Binds<K, B>,
) -> Result<(ValueTree, usize), Stop>
    requires calls { B.IsAlwaysCallable binds.now.read }
    requires told { BindsBy tokens.now (B.post binds.now.read) (K.rule binds.now.how) }
    ensures { Told tokens.now (grammar.value (K.rule binds.now.how) room) at result }
{
    if is_sign(tokens, at, Sign::Colon) {
        bound(alloc, tokens, at, room, binds)
    } else if is_sign(tokens, at, Sign::Minus) {
        negative(tokens, at)
    } else {
        literal(alloc, tokens, at)
    }
}

fn comma_value<K: BindRule, B: Fn(usize, usize) -> Result<(BindTree, usize), Stop>>(
    alloc: Global,
    tokens: &[Token],
    at: usize,
    room: usize,
    binds: &Binds<K, B>,
) -> Result<(ValueTree, usize), Stop>
    requires calls { B.IsAlwaysCallable binds.now.read }
    requires told { BindsBy tokens.now (B.post binds.now.read) (K.rule binds.now.how) }
    ensures { Told tokens.now (grammar.comma_value (K.rule binds.now.how) room) at result }
{
    let behind = pass_sign(tokens, at, Sign::Comma)?;
    value(alloc, tokens, behind, room, binds)
}

// The values behind the first one of a list.
fn more_values<K: BindRule, B: Fn(usize, usize) -> Result<(BindTree, usize), Stop>>(
    alloc: Global,
    tokens: &[Token],
    at: usize,
    room: usize,
    first: ValueTree,
    binds: &Binds<K, B>,
) -> Result<(Items<ValueTree>, usize), Stop>
    requires calls { B.IsAlwaysCallable binds.now.read }
    requires told { BindsBy tokens.now (B.post binds.now.read) (K.rule binds.now.how) }
    ensures { Told tokens.now (grammar.more_values (K.rule binds.now.how) room first) at result }
{
    let mut values = Items::new(alloc);
    values.push(first)?;
    let mut end = at;
    'values: while is_sign(tokens, end, Sign::Comma) {
        let (value, after) = comma_value(alloc, tokens, end, room, binds)?;
        values.push(value)?;
        end = after;
    }
    Ok((values, end))
}

// Values in parentheses.
fn values<K: BindRule, B: Fn(usize, usize) -> Result<(BindTree, usize), Stop>>(
    alloc: Global,
    tokens: &[Token],
    at: usize,
    room: usize,
    binds: &Binds<K, B>,
) -> Result<(ListTree, usize), Stop>
    requires calls { B.IsAlwaysCallable binds.now.read }
    requires told { BindsBy tokens.now (B.post binds.now.read) (K.rule binds.now.how) }
    ensures { Told tokens.now (grammar.values (K.rule binds.now.how) room) at result }
{
    let (inside, behind) = open_sign(tokens, at, Sign::OpenParen, room)?;
    let (first, behind) = value(alloc, tokens, behind, inside, binds)?;
    let (values, behind) = more_values(alloc, tokens, behind, inside, first, binds)?;
    let end = pass_sign(tokens, behind, Sign::CloseParen)?;
    let span = span_of(tokens, at, end);
    Ok((ListTree::Values(span, values), end))
}

/// What stands behind `IN`.
pub fn list<K: BindRule, B: Fn(usize, usize) -> Result<(BindTree, usize), Stop>>(
    alloc: Global,
    tokens: &[Token],
    at: usize,
    room: usize,
    binds: &Binds<K, B>,
) -> Result<(ListTree, usize), Stop>
    requires calls { B.IsAlwaysCallable binds.now.read }
    requires told { BindsBy tokens.now (B.post binds.now.read) (K.rule binds.now.how) }
    ensures { Told tokens.now (grammar.list (K.rule binds.now.how) room) at result }
{
    if is_sign(tokens, at, Sign::Colon) {
        let (bind, end) = bind(tokens, at, room, binds)?;
        Ok((ListTree::Bind(bind), end))
    } else {
        values(alloc, tokens, at, room, binds)
    }
}

fn whole(tokens: &[Token], at: usize) -> Result<(CountTree, usize), Stop>
    ensures { Told tokens.now grammar.whole at result }
{
    if let Some(token) = token_at(tokens, at) {
        if let TokenKind::Integer(n) = token.kind {
            return Ok((CountTree::Whole(token.span, n), at + 1));
        }
    }
    Err(Stop::At(ParseWord::Expected, at))
}

/// What stands behind `LIMIT` and `OFFSET`.
pub fn count<K: BindRule, B: Fn(usize, usize) -> Result<(BindTree, usize), Stop>>(
    alloc: Global,
    tokens: &[Token],
    at: usize,
    room: usize,
    binds: &Binds<K, B>,
) -> Result<(CountTree, usize), Stop>
    requires calls { B.IsAlwaysCallable binds.now.read }
    requires told { BindsBy tokens.now (B.post binds.now.read) (K.rule binds.now.how) }
    ensures { Told tokens.now (grammar.count (K.rule binds.now.how) room) at result }
{
    if is_sign(tokens, at, Sign::Colon) {
        let (bind, end) = bind(tokens, at, room, binds)?;
        Ok((CountTree::Bind(bind), end))
    } else {
        whole(tokens, at)
    }
}
