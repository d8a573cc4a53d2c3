// `try`. `stmt` reads a statement in a form that is opened.

ghost use Rattle.token_grammar.specs.Readings.{Told, ReadsBy};
ghost use Rattle.token_grammar.specs.Tokens.{optional, next_word};
ghost use Rattle.apex_lexer.specs.declared.token.Keyword.TheVariants as keywords;
ghost use Rattle.apex_parse_stmt.specs.Stmts as grammar;

use crate::nest::block;
use crate::part::Caught;
use apex_lexer::{Keyword, Sign, Token};
use apex_list::{Boxed, Items};
use apex_parse_leaf::member;
use apex_syntax::{Body, Catch, Stmt};
use std::alloc::Global;
use token_grammar::{Names, Stop, boxed, is_word, name, open_sign, pass_sign, pass_word, span_of};

fn finally_block<S: Fn(usize) -> Result<(Boxed<Stmt>, usize), Stop>>(
    alloc: Global,
    tokens: &[Token],
    at: usize,
    room: usize,
    stmt: &S,
) -> Result<(Body, usize), Stop>
    requires calls { S.IsAlwaysCallable stmt.now }
    requires told { ReadsBy tokens.now (S.post stmt.now) (grammar.deeper_stmt room) }
    ensures { Told tokens.now (grammar.finally_block room (grammar.deeper_stmt room)) at result }
{
    let behind = pass_word(tokens, at, Keyword::Finally)?;
    block(alloc, tokens, behind, room, stmt)
}

// What is last in a try, behind its catches.
fn last_part<S: Fn(usize) -> Result<(Boxed<Stmt>, usize), Stop>>(
    alloc: Global,
    tokens: &[Token],
    at: usize,
    room: usize,
    catches: &Items<Catch>,
    stmt: &S,
) -> Result<(Option<Body>, usize), Stop>
    requires calls { S.IsAlwaysCallable stmt.now }
    requires told { ReadsBy tokens.now (S.post stmt.now) (grammar.deeper_stmt room) }
    ensures { Told tokens.now (grammar.last_part room (grammar.deeper_stmt room) catches.now) at result }
{
    if catches.is_empty() {
        needed(alloc, tokens, at, room, stmt)
    } else {
        welcome(alloc, tokens, at, room, stmt)
    }
}

// A `finally` that must stand here.
fn needed<S: Fn(usize) -> Result<(Boxed<Stmt>, usize), Stop>>(
    alloc: Global,
    tokens: &[Token],
    at: usize,
    room: usize,
    stmt: &S,
) -> Result<(Option<Body>, usize), Stop>
    requires calls { S.IsAlwaysCallable stmt.now }
    requires told { ReadsBy tokens.now (S.post stmt.now) (grammar.deeper_stmt room) }
    ensures { Told tokens.now (grammar.needed room (grammar.deeper_stmt room)) at result }
{
    let (body, end) = finally_block(alloc, tokens, at, room, stmt)?;
    Ok((Some(body), end))
}

// A `finally` that may stand here.
fn welcome<S: Fn(usize) -> Result<(Boxed<Stmt>, usize), Stop>>(
    alloc: Global,
    tokens: &[Token],
    at: usize,
    room: usize,
    stmt: &S,
) -> Result<(Option<Body>, usize), Stop>
    requires calls { S.IsAlwaysCallable stmt.now }
    requires told { ReadsBy tokens.now (S.post stmt.now) (grammar.deeper_stmt room) }
    ensures { Told tokens.now (optional (next_word keywords.Finally) (grammar.finally_block room (grammar.deeper_stmt room))) at result }
{
    if is_word(tokens, at, Keyword::Finally) {
        let (body, end) = finally_block(alloc, tokens, at, room, stmt)?;
        Ok((Some(body), end))
    } else {
        Ok((None, at))
    }
}

// A class and a name.
fn caught(alloc: Global, tokens: &[Token], at: usize) -> Result<(Caught, usize), Stop>
    ensures { Told tokens.now grammar.caught at result }
{
    let (class, behind) = name(alloc, tokens, at, Names::InCode)?;
    let (member, behind) = member(alloc, tokens, behind)?;
    let (name, end) = name(alloc, tokens, behind, Names::InCode)?;
    Ok((
        Caught {
            class,
            member,
            name,
        },
        end,
    ))
}

// `catch` and what stands in its parentheses.
fn catch_head(
    alloc: Global,
    tokens: &[Token],
    at: usize,
    room: usize,
) -> Result<(Caught, usize), Stop>
    ensures { Told tokens.now (grammar.catch_head room) at result }
{
    let behind = pass_word(tokens, at, Keyword::Catch)?;
    let (_, behind) = open_sign(tokens, behind, Sign::OpenParen, room)?;
    let (caught, behind) = caught(alloc, tokens, behind)?;
    let end = pass_sign(tokens, behind, Sign::CloseParen)?;
    Ok((caught, end))
}

fn catch<S: Fn(usize) -> Result<(Boxed<Stmt>, usize), Stop>>(
    alloc: Global,
    tokens: &[Token],
    at: usize,
    room: usize,
    stmt: &S,
) -> Result<(Catch, usize), Stop>
    requires calls { S.IsAlwaysCallable stmt.now }
    requires told { ReadsBy tokens.now (S.post stmt.now) (grammar.deeper_stmt room) }
    ensures { Told tokens.now (grammar.catch room (grammar.deeper_stmt room)) at result }
{
    let (head, behind) = catch_head(alloc, tokens, at, room)?;
    let (body, end) = block(alloc, tokens, behind, room, stmt)?;
    let span = span_of(tokens, at, end);
    let Caught {
        class,
        member,
        name,
    } = head;
    Ok((
        Catch {
            span,
            class,
            member,
            name,
            body,
        },
        end,
    ))
}

fn catches<S: Fn(usize) -> Result<(Boxed<Stmt>, usize), Stop>>(
    alloc: Global,
    tokens: &[Token],
    at: usize,
    room: usize,
    stmt: &S,
) -> Result<(Items<Catch>, usize), Stop>
    requires calls { S.IsAlwaysCallable stmt.now }
    requires told { ReadsBy tokens.now (S.post stmt.now) (grammar.deeper_stmt room) }
    ensures { Told tokens.now (grammar.catches room (grammar.deeper_stmt room)) at result }
{
    let mut catches = Items::new(alloc);
    let mut end = at;
    'catches: while is_word(tokens, end, Keyword::Catch) {
        let (next, after) = catch(alloc, tokens, end, room, stmt)?;
        catches.push(next)?;
        end = after;
    }
    Ok((catches, end))
}

/// A try with its catches and its finally.
pub fn try_stmt<S: Fn(usize) -> Result<(Boxed<Stmt>, usize), Stop>>(
    alloc: Global,
    tokens: &[Token],
    at: usize,
    room: usize,
    stmt: &S,
) -> Result<(Boxed<Stmt>, usize), Stop>
    requires calls { S.IsAlwaysCallable stmt.now }
    requires told { ReadsBy tokens.now (S.post stmt.now) (grammar.deeper_stmt room) }
    ensures { Told tokens.now (grammar.try_stmt room (grammar.deeper_stmt room)) at result }
{
    let behind = pass_word(tokens, at, Keyword::Try)?;
    let (body, behind) = block(alloc, tokens, behind, room, stmt)?;
    let (catches, behind) = catches(alloc, tokens, behind, room, stmt)?;
    let (last, end) = last_part(alloc, tokens, behind, room, &catches, stmt)?;
    let span = span_of(tokens, at, end);
    boxed(alloc, Stmt::Try(span, body, catches, last), end)
}
