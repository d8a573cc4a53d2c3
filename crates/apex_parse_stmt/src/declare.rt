// Declarations.

ghost use Rattle.token_grammar.specs.Readings.{Told};
ghost use Rattle.token_grammar.specs.Tokens.{optional, next_sign};
ghost use Rattle.apex_lexer.specs.declared.token.Sign.TheVariants as signs;
ghost use Rattle.apex_parse_leaf.specs.Types as types;
ghost use Rattle.apex_parse_stmt.specs.Stmts as grammar;

use apex_lexer::{Sign, Token};
use apex_list::{Boxed, Items};
use apex_parse_expr::expr_within;
use apex_parse_leaf::type_tree;
use apex_syntax::{Declarator, Expr, Stmt, TypeTree};
use std::alloc::Global;
use token_grammar::{Names, Stop, boxed, is_sign, name, pass_sign, span_of};

/// The value behind `=`, where that is written.
pub fn initial(
    alloc: Global,
    tokens: &[Token],
    at: usize,
    room: usize,
) -> Result<(Option<Boxed<Expr>>, usize), Stop>
    ensures { Told tokens.now (optional (next_sign signs.Assign) (grammar.initial room)) at result }
{
    if is_sign(tokens, at, Sign::Assign) {
        let behind = pass_sign(tokens, at, Sign::Assign)?;
        let (value, end) = expr_within(alloc, tokens, behind, room)?;
        Ok((Some(value), end))
    } else {
        Ok((None, at))
    }
}

fn declarator(
    alloc: Global,
    tokens: &[Token],
    at: usize,
    room: usize,
) -> Result<(Declarator, usize), Stop>
    ensures { Told tokens.now (grammar.declarator room) at result }
{
    let (name, behind) = name(alloc, tokens, at, Names::InCode)?;
    let (value, end) = initial(alloc, tokens, behind, room)?;
    Ok((Declarator { name, value }, end))
}

fn comma_declarator(
    alloc: Global,
    tokens: &[Token],
    at: usize,
    room: usize,
) -> Result<(Declarator, usize), Stop>
    ensures { Told tokens.now (grammar.comma_declarator room) at result }
{
    let behind = pass_sign(tokens, at, Sign::Comma)?;
    declarator(alloc, tokens, behind, room)
}

// The names behind a first one.
fn more_declarators(
    alloc: Global,
    tokens: &[Token],
    at: usize,
    room: usize,
    first: Declarator,
) -> Result<(Items<Declarator>, usize), Stop>
    ensures { Told tokens.now (grammar.more_declarators room first) at result }
{
    let mut names = Items::new(alloc);
    names.push(first)?;
    let mut end = at;
    'names: while is_sign(tokens, end, Sign::Comma) {
        let (next, after) = comma_declarator(alloc, tokens, end, room)?;
        names.push(next)?;
        end = after;
    }
    Ok((names, end))
}

fn declarators(
    alloc: Global,
    tokens: &[Token],
    at: usize,
    room: usize,
) -> Result<(Items<Declarator>, usize), Stop>
    ensures { Told tokens.now (grammar.declarators room) at result }
{
    let (first, behind) = declarator(alloc, tokens, at, room)?;
    more_declarators(alloc, tokens, behind, room, first)
}

/// A type, in a box.
pub fn boxed_type(
    alloc: Global,
    tokens: &[Token],
    at: usize,
    room: usize,
) -> Result<(Boxed<TypeTree>, usize), Stop>
    ensures { Told tokens.now (types.type room) at result }
{
    let (tree, end) = type_tree(alloc, tokens, at, room)?;
    Ok((Boxed::new(alloc, tree)?, end))
}

/// A declaration of one or more names.
pub fn declare(
    alloc: Global,
    tokens: &[Token],
    at: usize,
    room: usize,
) -> Result<(Boxed<Stmt>, usize), Stop>
    ensures { Told tokens.now (grammar.declare room) at result }
{
    let (kind, behind) = boxed_type(alloc, tokens, at, room)?;
    let (names, behind) = declarators(alloc, tokens, behind, room)?;
    let end = pass_sign(tokens, behind, Sign::Semicolon)?;
    let span = span_of(tokens, at, end);
    boxed(alloc, Stmt::Declare(span, kind.into_value(), names), end)
}
