// What a method answers, and its parameters.

ghost use Rattle.std.specs.Prelude.{◌≡◌};
ghost use Rattle.token_grammar.specs.Readings.{Told};
ghost use Rattle.apex_parse_unit.specs.Members as grammar;

use apex_lexer::{Keyword, Sign, Token};
use apex_list::{Boxed, Items};
use apex_parse_leaf::type_tree;
use apex_parse_stmt::{boxed_type, is_named};
use apex_syntax::{ParamTree, ResultTree};
use std::alloc::Global;
use token_grammar::{
    Names, Stop, boxed, is_sign, is_word, name, open_sign, pass_sign, pass_word, span_of,
};

/// `void`
pub fn void_result(
    alloc: Global,
    tokens: &[Token],
    at: usize,
) -> Result<(Boxed<ResultTree>, usize), Stop>
    ensures { Told tokens.now grammar.void_result at result }
{
    let end = pass_word(tokens, at, Keyword::Void)?;
    boxed(alloc, ResultTree::Void(span_of(tokens, at, end)), end)
}

fn typed_result(
    alloc: Global,
    tokens: &[Token],
    at: usize,
    room: usize,
) -> Result<(Boxed<ResultTree>, usize), Stop>
    ensures { Told tokens.now (grammar.typed_result room) at result }
{
    let (kind, end) = type_tree(alloc, tokens, at, room)?;
    boxed(alloc, ResultTree::Type(kind), end)
}

/// What a method answers: `void` or a type.
pub fn result_tree(
    alloc: Global,
    tokens: &[Token],
    at: usize,
    room: usize,
) -> Result<(Boxed<ResultTree>, usize), Stop>
    ensures { Told tokens.now (grammar.result_tree room) at result }
{
    if is_word(tokens, at, Keyword::Void) {
        void_result(alloc, tokens, at)
    } else {
        typed_result(alloc, tokens, at, room)
    }
}

fn param(
    alloc: Global,
    tokens: &[Token],
    at: usize,
    room: usize,
) -> Result<(Boxed<ParamTree>, usize), Stop>
    ensures { Told tokens.now (grammar.param room) at result }
{
    let (kind, behind) = boxed_type(alloc, tokens, at, room)?;
    let (name, end) = name(alloc, tokens, behind, Names::InCode)?;
    let span = span_of(tokens, at, end);
    let kind = kind.into_value();
    boxed(alloc, ParamTree { span, kind, name }, end)
}

fn comma_param(
    alloc: Global,
    tokens: &[Token],
    at: usize,
    room: usize,
) -> Result<(Boxed<ParamTree>, usize), Stop>
    ensures { Told tokens.now (grammar.comma_param room) at result }
{
    let behind = pass_sign(tokens, at, Sign::Comma)?;
    param(alloc, tokens, behind, room)
}

// The parameters behind a first one.
fn more_params(
    alloc: Global,
    tokens: &[Token],
    at: usize,
    room: usize,
    first: Boxed<ParamTree>,
) -> Result<(Items<ParamTree>, usize), Stop>
    ensures { Told tokens.now (grammar.more_params room first) at result }
{
    let mut params = Items::new(alloc);
    params.push(first.into_value())?;
    let mut end = at;
    'params: while is_sign(tokens, end, Sign::Comma) {
        let (next, after) = comma_param(alloc, tokens, end, room)?;
        params.push(next.into_value())?;
        end = after;
    }
    Ok((params, end))
}

fn all_params(
    alloc: Global,
    tokens: &[Token],
    at: usize,
    room: usize,
) -> Result<(Items<ParamTree>, usize), Stop>
    ensures { Told tokens.now (grammar.all_params room) at result }
{
    let (first, behind) = param(alloc, tokens, at, room)?;
    more_params(alloc, tokens, behind, room, first)
}

fn param_list(
    alloc: Global,
    tokens: &[Token],
    at: usize,
    room: usize,
) -> Result<(Items<ParamTree>, usize), Stop>
    ensures { Told tokens.now (grammar.param_list room) at result }
{
    if is_named(tokens, at) {
        all_params(alloc, tokens, at, room)
    } else {
        Ok((Items::new(alloc), at))
    }
}

/// Parameters in parentheses.
pub fn params(
    alloc: Global,
    tokens: &[Token],
    at: usize,
    room: usize,
) -> Result<(Items<ParamTree>, usize), Stop>
    ensures { Told tokens.now (grammar.params room) at result }
{
    let (inside, behind) = open_sign(tokens, at, Sign::OpenParen, room)?;
    let (params, behind) = param_list(alloc, tokens, behind, inside)?;
    let end = pass_sign(tokens, behind, Sign::CloseParen)?;
    Ok((params, end))
}
