// Conditions.

ghost use Rattle.std.specs.Prelude.{◌≡◌, ◌-◌, ◌<◌};
ghost use Rattle.token_grammar.specs.Readings.{Told};
ghost use Rattle.soql_parse.specs.Readers.{BindsBy};
ghost use Rattle.soql_parse.specs.Queries as grammar;

use crate::binds::Binds;
use crate::path::path;
use crate::rule::BindRule;
use crate::value::{list, value};
use apex_lexer::{Keyword, Sign, Token, TokenKind};
use apex_list::{Boxed, Items};
use apex_syntax::{BindTree, CompareOp, CondTree, PathTree};
use std::alloc::Global;
use token_grammar::{
    ParseWord, Stop, add, boxed, is_sign, is_word, open_sign, open_word, pass_sign, pass_word,
    span_of, token_at,
};

// `<` and `<>`
fn less(tokens: &[Token], at: usize) -> Result<(CompareOp, usize), Stop>
    ensures { Told tokens.now grammar.less at result }
{
    let behind = pass_sign(tokens, at, Sign::Less)?;
    if is_sign(tokens, behind, Sign::More) {
        let end = pass_sign(tokens, behind, Sign::More)?;
        Ok((CompareOp::Differs, end))
    } else {
        Ok((CompareOp::Less, behind))
    }
}

fn op_of(kind: TokenKind) -> Option<CompareOp>
    ensures { result ≡ grammar.op_kind kind }
{
    match kind {
        TokenKind::Sign(sign) => match sign {
            Sign::Assign => Some(CompareOp::Equal),
            Sign::Differs => Some(CompareOp::Differs),
            Sign::AtMost => Some(CompareOp::AtMost),
            Sign::More => Some(CompareOp::More),
            Sign::AtLeast => Some(CompareOp::AtLeast),
            _ => None,
        },
        TokenKind::Keyword(Keyword::Like) => Some(CompareOp::Like),
        _ => None,
    }
}

// The other operators, each of one token.
fn other_op(tokens: &[Token], at: usize) -> Result<(CompareOp, usize), Stop>
    ensures { Told tokens.now grammar.other_op at result }
{
    if let Some(token) = token_at(tokens, at) {
        if let Some(op) = op_of(token.kind) {
            return Ok((op, at + 1));
        }
    }
    Err(Stop::At(ParseWord::Expected, at))
}

fn op(tokens: &[Token], at: usize) -> Result<(CompareOp, usize), Stop>
    ensures { Told tokens.now grammar.op at result }
{
    if is_sign(tokens, at, Sign::Less) {
        less(tokens, at)
    } else {
        other_op(tokens, at)
    }
}

// `NOT IN` and a list, behind a path that began at `start`.
fn not_within<K: BindRule, B: Fn(usize, usize) -> Result<(BindTree, usize), Stop>>(
    alloc: Global,
    tokens: &[Token],
    at: usize,
    room: usize,
    start: usize,
    path: PathTree,
    binds: &Binds<K, B>,
) -> Result<(Boxed<CondTree>, usize), Stop>
    requires calls { B.IsAlwaysCallable binds.now.read }
    requires told { BindsBy tokens.now (B.post binds.now.read) (K.rule binds.now.how) }
    ensures { Told tokens.now (grammar.not_within (K.rule binds.now.how) room start path) at result }
{
    let behind = pass_word(tokens, at, Keyword::Not)?;
    let behind = pass_word(tokens, behind, Keyword::In)?;
    let (list, end) = list(alloc, tokens, behind, room, binds)?;
    let span = span_of(tokens, start, end);
    boxed(alloc, CondTree::Within(span, path, true, list), end)
}

// `IN` and a list.
fn within<K: BindRule, B: Fn(usize, usize) -> Result<(BindTree, usize), Stop>>(
    alloc: Global,
    tokens: &[Token],
    at: usize,
    room: usize,
    start: usize,
    path: PathTree,
    binds: &Binds<K, B>,
) -> Result<(Boxed<CondTree>, usize), Stop>
    requires calls { B.IsAlwaysCallable binds.now.read }
    requires told { BindsBy tokens.now (B.post binds.now.read) (K.rule binds.now.how) }
    ensures { Told tokens.now (grammar.within (K.rule binds.now.how) room start path) at result }
{
    let behind = pass_word(tokens, at, Keyword::In)?;
    let (list, end) = list(alloc, tokens, behind, room, binds)?;
    let span = span_of(tokens, start, end);
    boxed(alloc, CondTree::Within(span, path, false, list), end)
}

// An operator and a value.
fn compared<K: BindRule, B: Fn(usize, usize) -> Result<(BindTree, usize), Stop>>(
    alloc: Global,
    tokens: &[Token],
    at: usize,
    room: usize,
    start: usize,
    path: PathTree,
    binds: &Binds<K, B>,
) -> Result<(Boxed<CondTree>, usize), Stop>
    requires calls { B.IsAlwaysCallable binds.now.read }
    requires told { BindsBy tokens.now (B.post binds.now.read) (K.rule binds.now.how) }
    ensures { Told tokens.now (grammar.compared (K.rule binds.now.how) room start path) at result }
{
    let (op, behind) = op(tokens, at)?;
    let (value, end) = value(alloc, tokens, behind, room, binds)?;
    let span = span_of(tokens, start, end);
    boxed(alloc, CondTree::Compare(span, path, op, value), end)
}

// What stands behind a path that began at `start`.
fn test_of<K: BindRule, B: Fn(usize, usize) -> Result<(BindTree, usize), Stop>>(
    alloc: Global,
    tokens: &[Token],
    at: usize,
    room: usize,
    start: usize,
    path: PathTree,
    binds: &Binds<K, B>,
) -> Result<(Boxed<CondTree>, usize), Stop>
    requires calls { B.IsAlwaysCallable binds.now.read }
    requires told { BindsBy tokens.now (B.post binds.now.read) (K.rule binds.now.how) }
    ensures { Told tokens.now (grammar.test_of (K.rule binds.now.how) room start path) at result }
{
    if is_word(tokens, at, Keyword::Not) {
        not_within(alloc, tokens, at, room, start, path, binds)
    } else if is_word(tokens, at, Keyword::In) {
        within(alloc, tokens, at, room, start, path, binds)
    } else {
        compared(alloc, tokens, at, room, start, path, binds)
    }
}

// A condition on a path.
fn simple<K: BindRule, B: Fn(usize, usize) -> Result<(BindTree, usize), Stop>>(
    alloc: Global,
    tokens: &[Token],
    at: usize,
    room: usize,
    binds: &Binds<K, B>,
) -> Result<(Boxed<CondTree>, usize), Stop>
    requires calls { B.IsAlwaysCallable binds.now.read }
    requires told { BindsBy tokens.now (B.post binds.now.read) (K.rule binds.now.how) }
    ensures { Told tokens.now (grammar.simple (K.rule binds.now.how) room) at result }
{
    let (path, behind) = path(alloc, tokens, at)?;
    test_of(alloc, tokens, behind, room, at, path, binds)
}

// One condition of a list.
#[cycle(cond)]
fn one<K: BindRule, B: Fn(usize, usize) -> Result<(BindTree, usize), Stop>>(
    alloc: Global,
    tokens: &[Token],
    at: usize,
    room: usize,
    binds: &Binds<K, B>,
) -> Result<(Boxed<CondTree>, usize), Stop>
    requires calls { B.IsAlwaysCallable binds.now.read }
    requires told { BindsBy tokens.now (B.post binds.now.read) (K.rule binds.now.how) }
    ensures { Told tokens.now (grammar.one (K.rule binds.now.how) room) at result }
{
    if is_word(tokens, at, Keyword::Not) {
        negation(alloc, tokens, at, room, binds)
    } else if is_sign(tokens, at, Sign::OpenParen) {
        enclosed(alloc, tokens, at, room, binds)
    } else {
        simple(alloc, tokens, at, room, binds)
    }
}

// `NOT` and a condition.
#[cycle(cond)]
fn negation<K: BindRule, B: Fn(usize, usize) -> Result<(BindTree, usize), Stop>>(
    alloc: Global,
    tokens: &[Token],
    at: usize,
    room: usize,
    binds: &Binds<K, B>,
) -> Result<(Boxed<CondTree>, usize), Stop>
    requires calls { B.IsAlwaysCallable binds.now.read }
    requires told { BindsBy tokens.now (B.post binds.now.read) (K.rule binds.now.how) }
    ensures { Told tokens.now (grammar.negation room (grammar.deeper_one (K.rule binds.now.how) room)) at result }
{
    let (inside, behind) = open_word(tokens, at, Keyword::Not, room)?;
    let (inner, end) = one(alloc, tokens, behind, inside, binds)?;
    let span = span_of(tokens, at, end);
    boxed(alloc, CondTree::Not(span, inner), end)
}

// A condition in parentheses.
#[cycle(cond)]
fn enclosed<K: BindRule, B: Fn(usize, usize) -> Result<(BindTree, usize), Stop>>(
    alloc: Global,
    tokens: &[Token],
    at: usize,
    room: usize,
    binds: &Binds<K, B>,
) -> Result<(Boxed<CondTree>, usize), Stop>
    requires calls { B.IsAlwaysCallable binds.now.read }
    requires told { BindsBy tokens.now (B.post binds.now.read) (K.rule binds.now.how) }
    ensures { Told tokens.now (grammar.enclosed room (grammar.deeper_one (K.rule binds.now.how) room)) at result }
{
    let (inside, behind) = open_sign(tokens, at, Sign::OpenParen, room)?;
    let (inner, behind) = cond(alloc, tokens, behind, inside, binds)?;
    let end = pass_sign(tokens, behind, Sign::CloseParen)?;
    let span = span_of(tokens, at, end);
    boxed(alloc, CondTree::Paren(span, inner), end)
}

// A link and a condition.
#[cycle(cond)]
fn linked<K: BindRule, B: Fn(usize, usize) -> Result<(BindTree, usize), Stop>>(
    alloc: Global,
    tokens: &[Token],
    at: usize,
    room: usize,
    link: Keyword,
    binds: &Binds<K, B>,
) -> Result<(Boxed<CondTree>, usize), Stop>
    requires calls { B.IsAlwaysCallable binds.now.read }
    requires told { BindsBy tokens.now (B.post binds.now.read) (K.rule binds.now.how) }
    ensures { Told tokens.now (grammar.linked link (grammar.one (K.rule binds.now.how) room)) at result }
{
    let behind = pass_word(tokens, at, link)?;
    one(alloc, tokens, behind, room, binds)
}

// A first condition and those behind it, with one link between them.
#[cycle(cond)]
fn chain<K: BindRule, B: Fn(usize, usize) -> Result<(BindTree, usize), Stop>>(
    alloc: Global,
    tokens: &[Token],
    at: usize,
    room: usize,
    link: Keyword,
    first: Boxed<CondTree>,
    binds: &Binds<K, B>,
) -> Result<(Items<CondTree>, usize), Stop>
    requires calls { B.IsAlwaysCallable binds.now.read }
    requires told { BindsBy tokens.now (B.post binds.now.read) (K.rule binds.now.how) }
    ensures { Told tokens.now (grammar.chain link first (grammar.one (K.rule binds.now.how) room)) at result }
{
    let mut conds = Items::new(alloc);
    add(&mut conds, first)?;
    let mut end = at;
    'conds: while is_word(tokens, end, link) {
        let (cond, after) = linked(alloc, tokens, end, room, link, binds)?;
        add(&mut conds, cond)?;
        end = after;
    }
    Ok((conds, end))
}

// A first condition and those behind it with `AND`; `start` is where the first one began.
#[cycle(cond)]
fn all_of<K: BindRule, B: Fn(usize, usize) -> Result<(BindTree, usize), Stop>>(
    alloc: Global,
    tokens: &[Token],
    at: usize,
    room: usize,
    start: usize,
    first: Boxed<CondTree>,
    binds: &Binds<K, B>,
) -> Result<(Boxed<CondTree>, usize), Stop>
    requires calls { B.IsAlwaysCallable binds.now.read }
    requires told { BindsBy tokens.now (B.post binds.now.read) (K.rule binds.now.how) }
    ensures { Told tokens.now (grammar.all_of start first (grammar.one (K.rule binds.now.how) room)) at result }
{
    let (conds, end) = chain(alloc, tokens, at, room, Keyword::And, first, binds)?;
    if is_word(tokens, end, Keyword::Or) {
        return Err(Stop::At(ParseWord::MixedAndOr, end));
    }
    let span = span_of(tokens, start, end);
    boxed(alloc, CondTree::All(span, conds), end)
}

// A first condition and those behind it with `OR`.
#[cycle(cond)]
fn any_of<K: BindRule, B: Fn(usize, usize) -> Result<(BindTree, usize), Stop>>(
    alloc: Global,
    tokens: &[Token],
    at: usize,
    room: usize,
    start: usize,
    first: Boxed<CondTree>,
    binds: &Binds<K, B>,
) -> Result<(Boxed<CondTree>, usize), Stop>
    requires calls { B.IsAlwaysCallable binds.now.read }
    requires told { BindsBy tokens.now (B.post binds.now.read) (K.rule binds.now.how) }
    ensures { Told tokens.now (grammar.any_of start first (grammar.one (K.rule binds.now.how) room)) at result }
{
    let (conds, end) = chain(alloc, tokens, at, room, Keyword::Or, first, binds)?;
    if is_word(tokens, end, Keyword::And) {
        return Err(Stop::At(ParseWord::MixedAndOr, end));
    }
    let span = span_of(tokens, start, end);
    boxed(alloc, CondTree::Any(span, conds), end)
}

/// A condition.
#[cycle(cond)]
pub fn cond<K: BindRule, B: Fn(usize, usize) -> Result<(BindTree, usize), Stop>>(
    alloc: Global,
    tokens: &[Token],
    at: usize,
    room: usize,
    binds: &Binds<K, B>,
) -> Result<(Boxed<CondTree>, usize), Stop>
    requires calls { B.IsAlwaysCallable binds.now.read }
    requires told { BindsBy tokens.now (B.post binds.now.read) (K.rule binds.now.how) }
    ensures { Told tokens.now (grammar.cond (K.rule binds.now.how) room) at result }
{
    let (first, behind) = one(alloc, tokens, at, room, binds)?;
    if is_word(tokens, behind, Keyword::And) {
        all_of(alloc, tokens, behind, room, at, first, binds)
    } else if is_word(tokens, behind, Keyword::Or) {
        any_of(alloc, tokens, behind, room, at, first, binds)
    } else {
        Ok((first, behind))
    }
}
