// Statements that have no statements in them.

ghost use Rattle.std.specs.Prelude.{◌≡◌};
ghost use Rattle.token_grammar.specs.Readings.{Told};
ghost use Rattle.token_grammar.specs.Tokens.{next_sign};
ghost use Rattle.apex_lexer.specs.declared.token.Keyword.TheVariants as keywords;
ghost use Rattle.apex_syntax.specs.declared.stmt.Stmt.TheVariants as stmts;
ghost use Rattle.apex_parse_expr.specs.Exprs as exprs;
ghost use Rattle.apex_parse_stmt.specs.Stmts as grammar;

use apex_lexer::{Keyword, Sign, Token, TokenKind};
use apex_list::Boxed;
use apex_parse_expr::{args_within, expr_within};
use apex_syntax::{DmlOp, Expr, Stmt};
use std::alloc::Global;
use token_grammar::{
    ParseWord, Stop, boxed, is_sign, is_word, pass_sign, pass_word, span_of, token_at,
};

/// An expression, unless this sign stands here.
pub fn unless(
    alloc: Global,
    tokens: &[Token],
    at: usize,
    room: usize,
    sign: Sign,
) -> Result<(Option<Boxed<Expr>>, usize), Stop>
    ensures { Told tokens.now (grammar.unless (next_sign sign) room) at result }
{
    if is_sign(tokens, at, sign) {
        Ok((None, at))
    } else {
        let (tree, end) = expr_within(alloc, tokens, at, room)?;
        Ok((Some(tree), end))
    }
}

/// `;`
pub fn empty(alloc: Global, tokens: &[Token], at: usize) -> Result<(Boxed<Stmt>, usize), Stop>
    ensures { Told tokens.now grammar.empty at result }
{
    let end = pass_sign(tokens, at, Sign::Semicolon)?;
    boxed(alloc, Stmt::Empty(span_of(tokens, at, end)), end)
}

fn return_stmt(
    alloc: Global,
    tokens: &[Token],
    at: usize,
    room: usize,
) -> Result<(Boxed<Stmt>, usize), Stop>
    ensures { Told tokens.now (grammar.return_stmt room) at result }
{
    let behind = pass_word(tokens, at, Keyword::Return)?;
    let (value, behind) = unless(alloc, tokens, behind, room, Sign::Semicolon)?;
    let end = pass_sign(tokens, behind, Sign::Semicolon)?;
    let span = span_of(tokens, at, end);
    boxed(alloc, Stmt::Return(span, value), end)
}

fn break_stmt(alloc: Global, tokens: &[Token], at: usize) -> Result<(Boxed<Stmt>, usize), Stop>
    ensures { Told tokens.now (grammar.jump keywords.Break stmts.Break) at result }
{
    let behind = pass_word(tokens, at, Keyword::Break)?;
    let end = pass_sign(tokens, behind, Sign::Semicolon)?;
    let span = span_of(tokens, at, end);
    boxed(alloc, Stmt::Break(span), end)
}

fn continue_stmt(alloc: Global, tokens: &[Token], at: usize) -> Result<(Boxed<Stmt>, usize), Stop>
    ensures { Told tokens.now (grammar.jump keywords.Continue stmts.Continue) at result }
{
    let behind = pass_word(tokens, at, Keyword::Continue)?;
    let end = pass_sign(tokens, behind, Sign::Semicolon)?;
    let span = span_of(tokens, at, end);
    boxed(alloc, Stmt::Continue(span), end)
}

fn throw_stmt(
    alloc: Global,
    tokens: &[Token],
    at: usize,
    room: usize,
) -> Result<(Boxed<Stmt>, usize), Stop>
    ensures { Told tokens.now (grammar.throw_stmt room) at result }
{
    let behind = pass_word(tokens, at, Keyword::Throw)?;
    let (value, behind) = expr_within(alloc, tokens, behind, room)?;
    let end = pass_sign(tokens, behind, Sign::Semicolon)?;
    let span = span_of(tokens, at, end);
    boxed(alloc, Stmt::Throw(span, value), end)
}

/// A statement that goes on elsewhere.
pub fn jumps(
    alloc: Global,
    tokens: &[Token],
    at: usize,
    room: usize,
) -> Result<(Boxed<Stmt>, usize), Stop>
    ensures { Told tokens.now (grammar.jumps room) at result }
{
    if is_word(tokens, at, Keyword::Return) {
        return_stmt(alloc, tokens, at, room)
    } else if is_word(tokens, at, Keyword::Break) {
        break_stmt(alloc, tokens, at)
    } else if is_word(tokens, at, Keyword::Continue) {
        continue_stmt(alloc, tokens, at)
    } else {
        throw_stmt(alloc, tokens, at, room)
    }
}

fn dml_of(kind: TokenKind) -> Option<DmlOp>
    ensures { result ≡ grammar.dml_kind kind }
{
    match kind {
        TokenKind::Keyword(word) => match word {
            Keyword::Insert => Some(DmlOp::Insert),
            Keyword::Update => Some(DmlOp::Update),
            Keyword::Delete => Some(DmlOp::Delete),
            Keyword::Upsert => Some(DmlOp::Upsert),
            _ => None,
        },
        _ => None,
    }
}

fn dml_op(tokens: &[Token], at: usize) -> Result<(DmlOp, usize), Stop>
    ensures { Told tokens.now grammar.dml_op at result }
{
    if let Some(token) = token_at(tokens, at) {
        if let Some(op) = dml_of(token.kind) {
            return Ok((op, at + 1));
        }
    }
    Err(Stop::At(ParseWord::Expected, at))
}

/// A statement that changes records.
pub fn dml_stmt(
    alloc: Global,
    tokens: &[Token],
    at: usize,
    room: usize,
) -> Result<(Boxed<Stmt>, usize), Stop>
    ensures { Told tokens.now (grammar.dml_stmt room) at result }
{
    let (op, behind) = dml_op(tokens, at)?;
    let (value, behind) = expr_within(alloc, tokens, behind, room)?;
    let end = pass_sign(tokens, behind, Sign::Semicolon)?;
    let span = span_of(tokens, at, end);
    boxed(alloc, Stmt::Dml(span, op, value), end)
}

/// `this` with arguments.
pub fn this_call(
    alloc: Global,
    tokens: &[Token],
    at: usize,
    room: usize,
) -> Result<(Boxed<Stmt>, usize), Stop>
    ensures { Told tokens.now (grammar.call_stmt keywords.This stmts.This room) at result }
{
    let behind = pass_word(tokens, at, Keyword::This)?;
    let (args, behind) = args_within(alloc, tokens, behind, room)?;
    let end = pass_sign(tokens, behind, Sign::Semicolon)?;
    let span = span_of(tokens, at, end);
    boxed(alloc, Stmt::This(span, args), end)
}

/// `super` with arguments.
pub fn super_call(
    alloc: Global,
    tokens: &[Token],
    at: usize,
    room: usize,
) -> Result<(Boxed<Stmt>, usize), Stop>
    ensures { Told tokens.now (grammar.call_stmt keywords.Super stmts.Super room) at result }
{
    let behind = pass_word(tokens, at, Keyword::Super)?;
    let (args, behind) = args_within(alloc, tokens, behind, room)?;
    let end = pass_sign(tokens, behind, Sign::Semicolon)?;
    let span = span_of(tokens, at, end);
    boxed(alloc, Stmt::Super(span, args), end)
}

/// An expression.
pub fn expr_stmt(
    alloc: Global,
    tokens: &[Token],
    at: usize,
    room: usize,
) -> Result<(Boxed<Stmt>, usize), Stop>
    ensures { Told tokens.now (grammar.expr_stmt room) at result }
{
    let (tree, behind) = expr_within(alloc, tokens, at, room)?;
    let end = pass_sign(tokens, behind, Sign::Semicolon)?;
    let span = span_of(tokens, at, end);
    boxed(alloc, Stmt::Expr(span, tree), end)
}
