// Orders.

ghost use Rattle.token_grammar.specs.Readings.{Told};
ghost use Rattle.soql_parse.specs.Queries as grammar;

use crate::path::path;
use apex_lexer::{Keyword, Sign, Token};
use apex_list::Items;
use apex_syntax::{KeyTree, OrderTree};
use std::alloc::Global;
use token_grammar::{Stop, is_sign, is_word, pass_sign, pass_word, span_of};

// Whether the direction is `DESC`.
fn direction(tokens: &[Token], at: usize) -> Result<(bool, usize), Stop>
    ensures { Told tokens.now grammar.direction at result }
{
    if is_word(tokens, at, Keyword::Asc) {
        let end = pass_word(tokens, at, Keyword::Asc)?;
        Ok((false, end))
    } else if is_word(tokens, at, Keyword::Desc) {
        let end = pass_word(tokens, at, Keyword::Desc)?;
        Ok((true, end))
    } else {
        Ok((false, at))
    }
}

fn first_or_last(tokens: &[Token], at: usize) -> Result<(bool, usize), Stop>
    ensures { Told tokens.now grammar.first_or_last at result }
{
    if is_word(tokens, at, Keyword::First) {
        let end = pass_word(tokens, at, Keyword::First)?;
        Ok((false, end))
    } else {
        let end = pass_word(tokens, at, Keyword::Last)?;
        Ok((true, end))
    }
}

// Whether nulls stand last.
fn nulls(tokens: &[Token], at: usize) -> Result<(bool, usize), Stop>
    ensures { Told tokens.now grammar.nulls at result }
{
    if is_word(tokens, at, Keyword::Nulls) {
        let behind = pass_word(tokens, at, Keyword::Nulls)?;
        first_or_last(tokens, behind)
    } else {
        Ok((false, at))
    }
}

fn key(alloc: Global, tokens: &[Token], at: usize) -> Result<(KeyTree, usize), Stop>
    ensures { Told tokens.now grammar.key at result }
{
    let (path, behind) = path(alloc, tokens, at)?;
    let (descending, behind) = direction(tokens, behind)?;
    let (nulls_last, end) = nulls(tokens, behind)?;
    let span = span_of(tokens, at, end);
    Ok((
        KeyTree {
            span,
            path,
            descending,
            nulls_last,
        },
        end,
    ))
}

fn comma_key(alloc: Global, tokens: &[Token], at: usize) -> Result<(KeyTree, usize), Stop>
    ensures { Told tokens.now grammar.comma_key at result }
{
    let behind = pass_sign(tokens, at, Sign::Comma)?;
    key(alloc, tokens, behind)
}

// A first key and those behind it.
fn more_keys(
    alloc: Global,
    tokens: &[Token],
    at: usize,
    first: KeyTree,
) -> Result<(Items<KeyTree>, usize), Stop>
    ensures { Told tokens.now (grammar.more_keys first) at result }
{
    let mut keys = Items::new(alloc);
    keys.push(first)?;
    let mut end = at;
    'keys: while is_sign(tokens, end, Sign::Comma) {
        let (key, after) = comma_key(alloc, tokens, end)?;
        keys.push(key)?;
        end = after;
    }
    Ok((keys, end))
}

fn ordered(alloc: Global, tokens: &[Token], at: usize) -> Result<(OrderTree, usize), Stop>
    ensures { Told tokens.now grammar.ordered at result }
{
    let behind = pass_word(tokens, at, Keyword::Order)?;
    let behind = pass_word(tokens, behind, Keyword::By)?;
    let (first, behind) = key(alloc, tokens, behind)?;
    let (keys, end) = more_keys(alloc, tokens, behind, first)?;
    let whole = span_of(tokens, at, end);
    Ok((OrderTree { span: whole, keys }, end))
}

/// An order and its keys, where it is written.
pub fn order(alloc: Global, tokens: &[Token], at: usize) -> Result<(Option<OrderTree>, usize), Stop>
    ensures { Told tokens.now grammar.order at result }
{
    if is_word(tokens, at, Keyword::Order) {
        let (order, end) = ordered(alloc, tokens, at)?;
        Ok((Some(order), end))
    } else {
        Ok((None, at))
    }
}
