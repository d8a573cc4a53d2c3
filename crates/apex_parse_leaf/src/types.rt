// Types.

ghost use Rattle.std.specs.Prelude.{◌≡◌, ◌⊎◌, IfOk, MatchBool, MatchOption};
ghost use Rattle.token_grammar.specs.Readings.{Told};
ghost use Rattle.apex_parse_leaf.specs.Types as grammar;

use apex_lexer::{Sign, Token};
use apex_list::Items;
use apex_syntax::{TypeTree, Word};
use std::alloc::Global;
use token_grammar::{Names, ParseWord, Stop, is_sign, name, open_sign, pass_sign, span_of};

/// The name behind a dot, where a dot follows.
pub fn member(alloc: Global, tokens: &[Token], at: usize) -> Result<(Option<Word>, usize), Stop>
    ensures { Told tokens.now grammar.member at result }
{
    if is_sign(tokens, at, Sign::Dot) {
        let behind = pass_sign(tokens, at, Sign::Dot)?;
        let (word, end) = name(alloc, tokens, behind, Names::AllWords)?;
        Ok((Some(word), end))
    } else {
        Ok((None, at))
    }
}

// `[` and `]`
fn pair(tokens: &[Token], at: usize, room: usize) -> Result<((), usize), Stop>
    ensures { Told tokens.now (grammar.pair room) at result }
{
    let (_, behind) = open_sign(tokens, at, Sign::OpenBracket, room)?;
    let end = pass_sign(tokens, behind, Sign::CloseBracket)?;
    Ok(((), end))
}

/// How many pairs of brackets stand here.
pub fn arrays(tokens: &[Token], at: usize, room: usize) -> Result<(usize, usize), Stop>
    ensures { Told tokens.now (grammar.arrays room) at result }
{
    let mut count = 0;
    let mut end = at;
    'pairs: while is_sign(tokens, end, Sign::OpenBracket) {
        let (_, after) = pair(tokens, end, room)?;
        count += 1;
        end = after;
    }
    Ok((count, end))
}

// A first type between `<` and `>`, and the second one behind a comma.
#[cycle(types)]
fn second_arg(
    alloc: Global,
    tokens: &[Token],
    at: usize,
    room: usize,
    first: TypeTree,
) -> Result<(Items<TypeTree>, usize), Stop>
    ensures { Told tokens.now (grammar.second_arg (grammar.type room) first) at result }
{
    let mut args = Items::new(alloc);
    args.push(first)?;
    if is_sign(tokens, at, Sign::Comma) {
        let behind = pass_sign(tokens, at, Sign::Comma)?;
        let (second, end) = type_tree(alloc, tokens, behind, room)?;
        args.push(second)?;
        Ok((args, end))
    } else {
        Ok((args, at))
    }
}

// The types between `<` and `>`.
#[cycle(types)]
fn type_args(
    alloc: Global,
    tokens: &[Token],
    at: usize,
    room: usize,
) -> Result<(Items<TypeTree>, usize), Stop>
    ensures { Told tokens.now (grammar.type_args room (grammar.deeper_type room)) at result }
{
    let (inside, behind) = open_sign(tokens, at, Sign::Less, room)?;
    let (first, behind) = type_tree(alloc, tokens, behind, inside)?;
    let (args, behind) = second_arg(alloc, tokens, behind, inside, first)?;
    let end = pass_sign(tokens, behind, Sign::More)?;
    Ok((args, end))
}

#[cycle(types)]
fn args_part(
    alloc: Global,
    tokens: &[Token],
    at: usize,
    room: usize,
) -> Result<(Items<TypeTree>, usize), Stop>
    ensures { Told tokens.now (grammar.args_part room (grammar.deeper_type room)) at result }
{
    if is_sign(tokens, at, Sign::Less) {
        type_args(alloc, tokens, at, room)
    } else {
        Ok((Items::new(alloc), at))
    }
}

/// A type and the place behind it, where `room` more forms may be open.
#[cycle(types)]
pub fn type_tree(
    alloc: Global,
    tokens: &[Token],
    at: usize,
    room: usize,
) -> Result<(TypeTree, usize), Stop>
    ensures { Told tokens.now (grammar.type room) at result }
{
    let (name, behind) = name(alloc, tokens, at, Names::InCode)?;
    let (member, behind) = member(alloc, tokens, behind)?;
    let (args, behind) = args_part(alloc, tokens, behind, room)?;
    let (arrays, end) = arrays(tokens, behind, room)?;
    let span = span_of(tokens, at, end);
    Ok((
        TypeTree {
            span,
            name,
            member,
            args,
            arrays,
        },
        end,
    ))
}

/// A type in a form that is opened, where so many could be opened before that.
pub fn deeper_type(
    alloc: Global,
    tokens: &[Token],
    at: usize,
    room: usize,
) -> Result<(TypeTree, usize), Stop>
    ensures { Told tokens.now (grammar.deeper_type room) at result }
{
    if room == 0 {
        return Err(Stop::At(ParseWord::TooDeep, at));
    }
    type_tree(alloc, tokens, at, room - 1)
}
