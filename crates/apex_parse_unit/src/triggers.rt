// Triggers.

ghost use Rattle.std.specs.Prelude.{◌≡◌, List};
ghost use Rattle.apex_lexer.specs.declared.token.Token.{Token};
ghost use Rattle.token_grammar.specs.Notation as notation;
ghost use Rattle.token_grammar.specs.Readings.{Told};
ghost use Rattle.apex_parse_unit.specs.Triggers as grammar;

use crate::named::unit_name;
use crate::part::TriggerHead;
use apex_lexer::{Keyword, Sign, Token, TokenKind};
use apex_list::{Boxed, Items};
use apex_parse_stmt::body_within;
use apex_syntax::{Body, EventOp, EventTree, TriggerTree};
use apex_text::Span;
use std::alloc::Global;
use token_grammar::{
    Names, ParseWord, Stop, boxed, is_sign, name, open_sign, pass_sign, pass_word, span_of,
    token_at,
};

fn time_kind(kind: TokenKind) -> Option<bool>
    ensures { result ≡ grammar.time_kind kind }
{
    match kind {
        TokenKind::Keyword(Keyword::Before) => Some(false),
        TokenKind::Keyword(Keyword::After) => Some(true),
        _ => None,
    }
}

// `before` or `after`
fn time(tokens: &[Token], at: usize) -> Result<(bool, usize), Stop>
    ensures { Told tokens.now (notation.Take grammar.time_of) at result }
{
    if let Some(token) = token_at(tokens, at) {
        if let Some(after) = time_kind(token.kind) {
            return Ok((after, at + 1));
        }
    }
    Err(Stop::At(ParseWord::Expected, at))
}

fn change_kind(kind: TokenKind) -> Option<EventOp>
    ensures { result ≡ grammar.change_kind kind }
{
    match kind {
        TokenKind::Keyword(word) => match word {
            Keyword::Insert => Some(EventOp::Insert),
            Keyword::Update => Some(EventOp::Update),
            Keyword::Delete => Some(EventOp::Delete),
            _ => None,
        },
        _ => None,
    }
}

fn change(tokens: &[Token], at: usize) -> Result<(EventOp, usize), Stop>
    ensures { Told tokens.now (notation.Take grammar.change_of) at result }
{
    if let Some(token) = token_at(tokens, at) {
        if let Some(op) = change_kind(token.kind) {
            return Ok((op, at + 1));
        }
    }
    Err(Stop::At(ParseWord::Expected, at))
}

fn event(tokens: &[Token], at: usize) -> Result<(EventTree, usize), Stop>
    ensures { Told tokens.now grammar.event at result }
{
    let (after, behind) = time(tokens, at)?;
    let (op, end) = change(tokens, behind)?;
    let span = span_of(tokens, at, end);
    Ok((EventTree { span, after, op }, end))
}

fn comma_event(tokens: &[Token], at: usize) -> Result<(EventTree, usize), Stop>
    ensures { Told tokens.now grammar.comma_event at result }
{
    let behind = pass_sign(tokens, at, Sign::Comma)?;
    event(tokens, behind)
}

// The events behind a first one.
fn more_events(
    alloc: Global,
    tokens: &[Token],
    at: usize,
    first: EventTree,
) -> Result<(Items<EventTree>, usize), Stop>
    ensures { Told tokens.now (grammar.more_events first) at result }
{
    let mut events = Items::new(alloc);
    events.push(first)?;
    let mut end = at;
    'events: while is_sign(tokens, end, Sign::Comma) {
        let (next, after) = comma_event(tokens, end)?;
        events.push(next)?;
        end = after;
    }
    Ok((events, end))
}

fn all_events(alloc: Global, tokens: &[Token], at: usize) -> Result<(Items<EventTree>, usize), Stop>
    ensures { Told tokens.now grammar.all_events at result }
{
    let (first, behind) = event(tokens, at)?;
    more_events(alloc, tokens, behind, first)
}

fn events(
    alloc: Global,
    tokens: &[Token],
    at: usize,
    room: usize,
) -> Result<(Items<EventTree>, usize), Stop>
    ensures { Told tokens.now (grammar.events room) at result }
{
    let (_, behind) = open_sign(tokens, at, Sign::OpenParen, room)?;
    let (events, behind) = all_events(alloc, tokens, behind)?;
    let end = pass_sign(tokens, behind, Sign::CloseParen)?;
    Ok((events, end))
}

fn trigger_head(alloc: Global, tokens: &[Token], at: usize) -> Result<(TriggerHead, usize), Stop>
    ensures { Told tokens.now grammar.trigger_head at result }
{
    let behind = pass_word(tokens, at, Keyword::Trigger)?;
    let (word, behind) = unit_name(alloc, tokens, behind)?;
    let behind = pass_word(tokens, behind, Keyword::On)?;
    let (object, end) = name(alloc, tokens, behind, Names::InCode)?;
    Ok((TriggerHead { name: word, object }, end))
}

// A trigger that ends here, in a box.
fn made(
    alloc: Global,
    span: Span,
    head: TriggerHead,
    events: Items<EventTree>,
    body: Body,
    end: usize,
) -> Result<(Boxed<TriggerTree>, usize), Stop>
    ensures { (tokens : List Token) → Told tokens (notation.Give (grammar.trigger_tree span head events body)) end result }
{
    let tree = TriggerTree {
        span,
        name: head.name.word,
        written: head.name.written,
        object: head.object,
        events,
        body,
    };
    boxed(alloc, tree, end)
}

/// A trigger.
pub fn trigger(
    alloc: Global,
    tokens: &[Token],
    at: usize,
    room: usize,
) -> Result<(Boxed<TriggerTree>, usize), Stop>
    ensures { Told tokens.now (grammar.trigger room) at result }
{
    let (head, behind) = trigger_head(alloc, tokens, at)?;
    let (events, behind) = events(alloc, tokens, behind, room)?;
    let (body, end) = body_within(alloc, tokens, behind, room)?;
    let span = span_of(tokens, at, end);
    made(alloc, span, head, events, body, end)
}
