// What stands in the parentheses of a statement.

ghost use Rattle.token_grammar.specs.Readings.{Told};
ghost use Rattle.apex_syntax.specs.declared.stmt.ForStart.TheVariants as starts;
ghost use Rattle.apex_parse_stmt.specs.Stmts as grammar;

use crate::declare::boxed_type;
use crate::leaf::unless;
use crate::look::is_declared;
use crate::part::ForHead;
use apex_lexer::{Sign, Token};
use apex_list::{Boxed, Items};
use apex_parse_expr::expr_within;
use apex_syntax::{Declarator, Expr, ForStart, TypeTree, Word};
use std::alloc::Global;
use token_grammar::{Names, Stop, boxed, is_sign, name, open_sign, pass_sign};

/// An expression in parentheses.
pub fn tested(
    alloc: Global,
    tokens: &[Token],
    at: usize,
    room: usize,
) -> Result<(Boxed<Expr>, usize), Stop>
    ensures { Told tokens.now (grammar.tested room) at result }
{
    let (inside, behind) = open_sign(tokens, at, Sign::OpenParen, room)?;
    let (tree, behind) = expr_within(alloc, tokens, behind, inside)?;
    let end = pass_sign(tokens, behind, Sign::CloseParen)?;
    Ok((tree, end))
}

// From the first `;` of a `for` on.
fn for_rest(
    alloc: Global,
    tokens: &[Token],
    at: usize,
    room: usize,
    start: Boxed<ForStart>,
) -> Result<(Boxed<ForHead>, usize), Stop>
    ensures { Told tokens.now (grammar.for_rest room start) at result }
{
    let behind = pass_sign(tokens, at, Sign::Semicolon)?;
    let (cond, behind) = unless(alloc, tokens, behind, room, Sign::Semicolon)?;
    let behind = pass_sign(tokens, behind, Sign::Semicolon)?;
    let (step, end) = unless(alloc, tokens, behind, room, Sign::CloseParen)?;
    boxed(alloc, ForHead::Loop(start, cond, step), end)
}

// `=` and the value of a variable.
fn first_value(
    alloc: Global,
    tokens: &[Token],
    at: usize,
    room: usize,
    name: Word,
) -> Result<(Declarator, usize), Stop>
    ensures { Told tokens.now (grammar.first_value room name) at result }
{
    let behind = pass_sign(tokens, at, Sign::Assign)?;
    let (value, end) = expr_within(alloc, tokens, behind, room)?;
    Ok((
        Declarator {
            name,
            value: Some(value),
        },
        end,
    ))
}

// A name with its value.
fn variable(
    alloc: Global,
    tokens: &[Token],
    at: usize,
    room: usize,
) -> Result<(Declarator, usize), Stop>
    ensures { Told tokens.now (grammar.variable room) at result }
{
    let (name, behind) = name(alloc, tokens, at, Names::InCode)?;
    first_value(alloc, tokens, behind, room, name)
}

fn comma_variable(
    alloc: Global,
    tokens: &[Token],
    at: usize,
    room: usize,
) -> Result<(Declarator, usize), Stop>
    ensures { Told tokens.now (grammar.comma_variable room) at result }
{
    let behind = pass_sign(tokens, at, Sign::Comma)?;
    variable(alloc, tokens, behind, room)
}

// The variables behind a first one.
fn more_variables(
    alloc: Global,
    tokens: &[Token],
    at: usize,
    room: usize,
    first: Declarator,
) -> Result<(Items<Declarator>, usize), Stop>
    ensures { Told tokens.now (grammar.more_variables room first) at result }
{
    let mut names = Items::new(alloc);
    names.push(first)?;
    let mut end = at;
    'names: while is_sign(tokens, end, Sign::Comma) {
        let (next, after) = comma_variable(alloc, tokens, end, room)?;
        names.push(next)?;
        end = after;
    }
    Ok((names, end))
}

fn all_variables(
    alloc: Global,
    tokens: &[Token],
    at: usize,
    room: usize,
    name: Word,
) -> Result<(Items<Declarator>, usize), Stop>
    ensures { Told tokens.now (grammar.all_variables room name) at result }
{
    let (first, behind) = first_value(alloc, tokens, at, room, name)?;
    more_variables(alloc, tokens, behind, room, first)
}

// The list behind a colon.
fn for_each(
    alloc: Global,
    tokens: &[Token],
    at: usize,
    room: usize,
    kind: Boxed<TypeTree>,
    name: Word,
) -> Result<(Boxed<ForHead>, usize), Stop>
    ensures { Told tokens.now (grammar.for_each room kind name) at result }
{
    let behind = pass_sign(tokens, at, Sign::Colon)?;
    let (list, end) = expr_within(alloc, tokens, behind, room)?;
    boxed(alloc, ForHead::Each(kind, name, list), end)
}

// The variables of a `for`, behind the name of the first one.
fn for_variables(
    alloc: Global,
    tokens: &[Token],
    at: usize,
    room: usize,
    kind: Boxed<TypeTree>,
    name: Word,
) -> Result<(Boxed<ForHead>, usize), Stop>
    ensures { Told tokens.now (grammar.for_variables room kind name) at result }
{
    let (names, behind) = all_variables(alloc, tokens, at, room, name)?;
    let start = Boxed::new(alloc, ForStart::Declare(kind.into_value(), names))?;
    for_rest(alloc, tokens, behind, room, start)
}

fn for_declared(
    alloc: Global,
    tokens: &[Token],
    at: usize,
    room: usize,
) -> Result<(Boxed<ForHead>, usize), Stop>
    ensures { Told tokens.now (grammar.for_declared room) at result }
{
    let (kind, behind) = boxed_type(alloc, tokens, at, room)?;
    let (name, behind) = name(alloc, tokens, behind, Names::InCode)?;
    if is_sign(tokens, behind, Sign::Colon) {
        for_each(alloc, tokens, behind, room, kind, name)
    } else {
        for_variables(alloc, tokens, behind, room, kind, name)
    }
}

fn for_expr(
    alloc: Global,
    tokens: &[Token],
    at: usize,
    room: usize,
) -> Result<(Boxed<ForHead>, usize), Stop>
    ensures { Told tokens.now (grammar.for_expr room) at result }
{
    let (tree, behind) = expr_within(alloc, tokens, at, room)?;
    let start = Boxed::new(alloc, ForStart::Expr(tree))?;
    for_rest(alloc, tokens, behind, room, start)
}

// A `for` that begins with nothing.
fn for_nothing(
    alloc: Global,
    tokens: &[Token],
    at: usize,
    room: usize,
) -> Result<(Boxed<ForHead>, usize), Stop>
    ensures { Told tokens.now (grammar.for_rest room starts.Nothing) at result }
{
    let start = Boxed::new(alloc, ForStart::Nothing)?;
    for_rest(alloc, tokens, at, room, start)
}

fn for_head(
    alloc: Global,
    tokens: &[Token],
    at: usize,
    room: usize,
) -> Result<(Boxed<ForHead>, usize), Stop>
    ensures { Told tokens.now (grammar.for_head room) at result }
{
    if is_sign(tokens, at, Sign::Semicolon) {
        return for_nothing(alloc, tokens, at, room);
    }
    let declared = is_declared(alloc, tokens, at)?;
    if declared {
        for_declared(alloc, tokens, at, room)
    } else {
        for_expr(alloc, tokens, at, room)
    }
}

/// What a `for` has in its parentheses.
pub fn for_parens(
    alloc: Global,
    tokens: &[Token],
    at: usize,
    room: usize,
) -> Result<(Boxed<ForHead>, usize), Stop>
    ensures { Told tokens.now (grammar.for_parens room) at result }
{
    let (inside, behind) = open_sign(tokens, at, Sign::OpenParen, room)?;
    let (head, behind) = for_head(alloc, tokens, behind, inside)?;
    let end = pass_sign(tokens, behind, Sign::CloseParen)?;
    Ok((head, end))
}
