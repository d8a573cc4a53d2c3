// Queries.

ghost use Rattle.std.specs.Prelude.{◌≡◌, MatchBool, MatchResult};
ghost use Rattle.token_grammar.specs.Readings.{Told, Found, RefusedBy};
ghost use Rattle.token_grammar.specs.Tokens.{optional, next_word};
ghost use Rattle.apex_lexer.specs.declared.token.Keyword.TheVariants as keywords;
ghost use Rattle.soql_parse.specs.Readers.{BindsBy};
ghost use Rattle.token_grammar.specs.Notation.{seen};
ghost use Rattle.soql_parse.specs.Queries as grammar;

use crate::binds::Binds;
use crate::cond::cond;
use crate::order::order;
use crate::path::path;
use crate::ranges::range;
use crate::rule::BindRule;
use crate::value::count;
use apex_lexer::{Keyword, Sign, Token};
use apex_list::{Boxed, Items};
use apex_syntax::{BindTree, CondTree, CountTree, OrderTree, QueryTree, SelTree, SelectTree, Word};
use apex_text::Span;
use std::alloc::Global;
use token_grammar::{
    Names, ParseFault, ParseWord, Stop, boxed, fault_of, is_sign, is_word, name, open_sign,
    pass_sign, pass_word, span_of,
};

// What stands behind `FROM`.
#[derive(Drop)]
pub struct FromPart {
    pub object: Word,
    pub cond: Option<Boxed<CondTree>>,
    pub order: Option<OrderTree>,
    pub limit: Option<CountTree>,
    pub offset: Option<CountTree>,
}

fn where_part<K: BindRule, B: Fn(usize, usize) -> Result<(BindTree, usize), Stop>>(
    alloc: Global,
    tokens: &[Token],
    at: usize,
    room: usize,
    binds: &Binds<K, B>,
) -> Result<(Option<Boxed<CondTree>>, usize), Stop>
    requires calls { B.IsAlwaysCallable binds.now.read }
    requires told { BindsBy tokens.now (B.post binds.now.read) (K.rule binds.now.how) }
    ensures { Told tokens.now (optional (next_word keywords.Where) (grammar.where_part (K.rule binds.now.how) room)) at result }
{
    if is_word(tokens, at, Keyword::Where) {
        let behind = pass_word(tokens, at, Keyword::Where)?;
        let (cond, end) = cond(alloc, tokens, behind, room, binds)?;
        Ok((Some(cond), end))
    } else {
        Ok((None, at))
    }
}

// A count behind a keyword, where that is written.
fn count_part<K: BindRule, B: Fn(usize, usize) -> Result<(BindTree, usize), Stop>>(
    alloc: Global,
    tokens: &[Token],
    at: usize,
    room: usize,
    word: Keyword,
    binds: &Binds<K, B>,
) -> Result<(Option<CountTree>, usize), Stop>
    requires calls { B.IsAlwaysCallable binds.now.read }
    requires told { BindsBy tokens.now (B.post binds.now.read) (K.rule binds.now.how) }
    ensures { Told tokens.now (optional (next_word word) (grammar.count_part (K.rule binds.now.how) word room)) at result }
{
    if is_word(tokens, at, word) {
        let behind = pass_word(tokens, at, word)?;
        let (count, end) = count(alloc, tokens, behind, room, binds)?;
        Ok((Some(count), end))
    } else {
        Ok((None, at))
    }
}

fn source<K: BindRule, B: Fn(usize, usize) -> Result<(BindTree, usize), Stop>>(
    alloc: Global,
    tokens: &[Token],
    at: usize,
    room: usize,
    binds: &Binds<K, B>,
) -> Result<(FromPart, usize), Stop>
    requires calls { B.IsAlwaysCallable binds.now.read }
    requires told { BindsBy tokens.now (B.post binds.now.read) (K.rule binds.now.how) }
    ensures { Told tokens.now (grammar.source (K.rule binds.now.how) room) at result }
{
    let (object, behind) = name(alloc, tokens, at, Names::AllWords)?;
    let (cond, behind) = where_part(alloc, tokens, behind, room, binds)?;
    let (order, behind) = order(alloc, tokens, behind)?;
    let (limit, behind) = count_part(alloc, tokens, behind, room, Keyword::Limit, binds)?;
    let (offset, end) = count_part(alloc, tokens, behind, room, Keyword::Offset, binds)?;
    Ok((
        FromPart {
            object,
            cond,
            order,
            limit,
            offset,
        },
        end,
    ))
}

fn query_tree(span: Span, select: SelectTree, source: FromPart, locked: bool) -> QueryTree
    ensures { result ≡ grammar.query_tree span select source locked }
{
    let FromPart {
        object,
        cond,
        order,
        limit,
        offset,
    } = source;
    QueryTree {
        span,
        select,
        object,
        cond,
        order,
        limit,
        offset,
        locked,
    }
}

fn path_item(alloc: Global, tokens: &[Token], at: usize) -> Result<(SelTree, usize), Stop>
    ensures { Told tokens.now grammar.path_item at result }
{
    let (path, end) = path(alloc, tokens, at)?;
    Ok((SelTree::Path(path), end))
}

// The parenthesis of a subquery in a subquery.
fn second_level(tokens: &[Token], at: usize, room: usize) -> Result<(SelTree, usize), Stop>
    ensures { Told tokens.now (grammar.second_level room) at result }
{
    let _ = open_sign(tokens, at, Sign::OpenParen, room)?;
    Err(Stop::At(ParseWord::TooManyLevels, at))
}

fn sub_item(
    alloc: Global,
    tokens: &[Token],
    at: usize,
    room: usize,
) -> Result<(SelTree, usize), Stop>
    ensures { Told tokens.now (grammar.sub_item room) at result }
{
    if is_sign(tokens, at, Sign::OpenParen) {
        second_level(tokens, at, room)
    } else {
        path_item(alloc, tokens, at)
    }
}

fn comma_sub_item(
    alloc: Global,
    tokens: &[Token],
    at: usize,
    room: usize,
) -> Result<(SelTree, usize), Stop>
    ensures { Told tokens.now (grammar.comma_sub_item room) at result }
{
    let behind = pass_sign(tokens, at, Sign::Comma)?;
    sub_item(alloc, tokens, behind, room)
}

// A first item of a subquery and those behind it.
fn more_sub_items(
    alloc: Global,
    tokens: &[Token],
    at: usize,
    room: usize,
    first: SelTree,
) -> Result<(Items<SelTree>, usize), Stop>
    ensures { Told tokens.now (grammar.more_sub_items room first) at result }
{
    let mut items = Items::new(alloc);
    items.push(first)?;
    let mut end = at;
    'items: while is_sign(tokens, end, Sign::Comma) {
        let (item, after) = comma_sub_item(alloc, tokens, end, room)?;
        items.push(item)?;
        end = after;
    }
    Ok((items, end))
}

fn sub_items(
    alloc: Global,
    tokens: &[Token],
    at: usize,
    room: usize,
) -> Result<(SelectTree, usize), Stop>
    ensures { Told tokens.now (grammar.sub_items room) at result }
{
    let (first, behind) = sub_item(alloc, tokens, at, room)?;
    let (items, end) = more_sub_items(alloc, tokens, behind, room, first)?;
    Ok((SelectTree::Items(items), end))
}

fn sub_query<K: BindRule, B: Fn(usize, usize) -> Result<(BindTree, usize), Stop>>(
    alloc: Global,
    tokens: &[Token],
    at: usize,
    room: usize,
    binds: &Binds<K, B>,
) -> Result<(Boxed<QueryTree>, usize), Stop>
    requires calls { B.IsAlwaysCallable binds.now.read }
    requires told { BindsBy tokens.now (B.post binds.now.read) (K.rule binds.now.how) }
    ensures { Told tokens.now (grammar.sub_query (K.rule binds.now.how) room) at result }
{
    let behind = pass_word(tokens, at, Keyword::Select)?;
    let (select, behind) = sub_items(alloc, tokens, behind, room)?;
    let behind = pass_word(tokens, behind, Keyword::From)?;
    let (source, end) = source(alloc, tokens, behind, room, binds)?;
    let span = span_of(tokens, at, end);
    boxed(alloc, query_tree(span, select, source, false), end)
}

// A subquery in its parentheses.
fn sub_paren<K: BindRule, B: Fn(usize, usize) -> Result<(BindTree, usize), Stop>>(
    alloc: Global,
    tokens: &[Token],
    at: usize,
    room: usize,
    binds: &Binds<K, B>,
) -> Result<(SelTree, usize), Stop>
    requires calls { B.IsAlwaysCallable binds.now.read }
    requires told { BindsBy tokens.now (B.post binds.now.read) (K.rule binds.now.how) }
    ensures { Told tokens.now (grammar.sub_paren (K.rule binds.now.how) room) at result }
{
    let (inside, behind) = open_sign(tokens, at, Sign::OpenParen, room)?;
    let (query, behind) = sub_query(alloc, tokens, behind, inside, binds)?;
    let end = pass_sign(tokens, behind, Sign::CloseParen)?;
    let span = span_of(tokens, at, end);
    Ok((SelTree::Query(span, query), end))
}

fn item<K: BindRule, B: Fn(usize, usize) -> Result<(BindTree, usize), Stop>>(
    alloc: Global,
    tokens: &[Token],
    at: usize,
    room: usize,
    binds: &Binds<K, B>,
) -> Result<(SelTree, usize), Stop>
    requires calls { B.IsAlwaysCallable binds.now.read }
    requires told { BindsBy tokens.now (B.post binds.now.read) (K.rule binds.now.how) }
    ensures { Told tokens.now (grammar.item (K.rule binds.now.how) room) at result }
{
    if is_sign(tokens, at, Sign::OpenParen) {
        sub_paren(alloc, tokens, at, room, binds)
    } else {
        path_item(alloc, tokens, at)
    }
}

fn comma_item<K: BindRule, B: Fn(usize, usize) -> Result<(BindTree, usize), Stop>>(
    alloc: Global,
    tokens: &[Token],
    at: usize,
    room: usize,
    binds: &Binds<K, B>,
) -> Result<(SelTree, usize), Stop>
    requires calls { B.IsAlwaysCallable binds.now.read }
    requires told { BindsBy tokens.now (B.post binds.now.read) (K.rule binds.now.how) }
    ensures { Told tokens.now (grammar.comma_item (K.rule binds.now.how) room) at result }
{
    let behind = pass_sign(tokens, at, Sign::Comma)?;
    item(alloc, tokens, behind, room, binds)
}

// A first item and those behind it.
fn more_items<K: BindRule, B: Fn(usize, usize) -> Result<(BindTree, usize), Stop>>(
    alloc: Global,
    tokens: &[Token],
    at: usize,
    room: usize,
    first: SelTree,
    binds: &Binds<K, B>,
) -> Result<(Items<SelTree>, usize), Stop>
    requires calls { B.IsAlwaysCallable binds.now.read }
    requires told { BindsBy tokens.now (B.post binds.now.read) (K.rule binds.now.how) }
    ensures { Told tokens.now (grammar.more_items (K.rule binds.now.how) room first) at result }
{
    let mut items = Items::new(alloc);
    items.push(first)?;
    let mut end = at;
    'items: while is_sign(tokens, end, Sign::Comma) {
        let (item, after) = comma_item(alloc, tokens, end, room, binds)?;
        items.push(item)?;
        end = after;
    }
    Ok((items, end))
}

fn items<K: BindRule, B: Fn(usize, usize) -> Result<(BindTree, usize), Stop>>(
    alloc: Global,
    tokens: &[Token],
    at: usize,
    room: usize,
    binds: &Binds<K, B>,
) -> Result<(SelectTree, usize), Stop>
    requires calls { B.IsAlwaysCallable binds.now.read }
    requires told { BindsBy tokens.now (B.post binds.now.read) (K.rule binds.now.how) }
    ensures { Told tokens.now (grammar.items (K.rule binds.now.how) room) at result }
{
    let (first, behind) = item(alloc, tokens, at, room, binds)?;
    let (items, end) = more_items(alloc, tokens, behind, room, first, binds)?;
    Ok((SelectTree::Items(items), end))
}

// Whether `COUNT` and a parenthesis stand here.
fn is_count(tokens: &[Token], at: usize) -> bool
    ensures { MatchBool result (grammar.next_count (seen tokens.now) at) (grammar.next_count (seen tokens.now) at → ⊥) }
{
    is_word(tokens, at, Keyword::Count) && is_sign(tokens, at + 1, Sign::OpenParen)
}

// `COUNT()`
fn counting(tokens: &[Token], at: usize, room: usize) -> Result<(SelectTree, usize), Stop>
    ensures { Told tokens.now (grammar.counting room) at result }
{
    let behind = pass_word(tokens, at, Keyword::Count)?;
    let (_, behind) = open_sign(tokens, behind, Sign::OpenParen, room)?;
    let end = pass_sign(tokens, behind, Sign::CloseParen)?;
    Ok((SelectTree::Count(span_of(tokens, at, end)), end))
}

fn selection<K: BindRule, B: Fn(usize, usize) -> Result<(BindTree, usize), Stop>>(
    alloc: Global,
    tokens: &[Token],
    at: usize,
    room: usize,
    binds: &Binds<K, B>,
) -> Result<(SelectTree, usize), Stop>
    requires calls { B.IsAlwaysCallable binds.now.read }
    requires told { BindsBy tokens.now (B.post binds.now.read) (K.rule binds.now.how) }
    ensures { Told tokens.now (grammar.selection (K.rule binds.now.how) room) at result }
{
    if is_count(tokens, at) {
        counting(tokens, at, room)
    } else {
        items(alloc, tokens, at, room, binds)
    }
}

// `FOR UPDATE`, which no order may stand before.
fn locking(tokens: &[Token], at: usize, ordered: bool) -> Result<(bool, usize), Stop>
    ensures { Told tokens.now (grammar.locking ordered) at result }
{
    let behind = pass_word(tokens, at, Keyword::For)?;
    let end = pass_word(tokens, behind, Keyword::Update)?;
    if ordered {
        return Err(Stop::At(ParseWord::LockedOrder, at));
    }
    Ok((true, end))
}

fn lock(tokens: &[Token], at: usize, ordered: bool) -> Result<(bool, usize), Stop>
    ensures { Told tokens.now (grammar.lock ordered) at result }
{
    if is_word(tokens, at, Keyword::For) {
        locking(tokens, at, ordered)
    } else {
        Ok((false, at))
    }
}

fn has_order(source: &FromPart) -> bool
    ensures { result ≡ grammar.has_order source.now.order }
{
    source.order.is_some()
}

/// A query that begins at a token, where `room` more forms may be open: its tree and the place behind it. `binds` reads
/// its binds.
pub fn query_within<K: BindRule, B: Fn(usize, usize) -> Result<(BindTree, usize), Stop>>(
    alloc: Global,
    tokens: &[Token],
    at: usize,
    room: usize,
    binds: &Binds<K, B>,
) -> Result<(Boxed<QueryTree>, usize), Stop>
    requires calls { B.IsAlwaysCallable binds.now.read }
    requires told { BindsBy tokens.now (B.post binds.now.read) (K.rule binds.now.how) }
    ensures { Told tokens.now (grammar.query (K.rule binds.now.how) room) at result }
{
    let behind = pass_word(tokens, at, Keyword::Select)?;
    let (select, behind) = selection(alloc, tokens, behind, room, binds)?;
    let behind = pass_word(tokens, behind, Keyword::From)?;
    let (source, behind) = source(alloc, tokens, behind, room, binds)?;
    let (locked, end) = lock(tokens, behind, has_order(&source))?;
    let span = span_of(tokens, at, end);
    boxed(alloc, query_tree(span, select, source, locked), end)
}

// Binds are kept as their tokens.
#[derive(Drop)]
struct Ranges;

impl BindRule for Ranges {
    ghost rule = { λ _ room. grammar.range room };
}

/// The query that begins at a token, and the place behind it. At most 64 forms are open at once. Its binds are kept as
/// their tokens.
pub fn query(
    alloc: Global,
    tokens: &[Token],
    at: usize,
) -> Result<(Boxed<QueryTree>, usize), ParseFault>
    ensures { MatchResult result (λ r. Found tokens.now (grammar.query grammar.range 64) at r.0 r.1) (λ e. RefusedBy tokens.now (grammar.query grammar.range 64) at e) }
{
    let read = |place: usize, room: usize| -> Result<(BindTree, usize), Stop>
        ensures { Told tokens.entry.now (grammar.range room) place result }
    { range(alloc, tokens, place, room) };
    match query_within(alloc, tokens, at, 64, &Binds { how: Ranges, read }) {
        Ok(read) => Ok(read),
        Err(stop) => Err(fault_of(tokens, stop)),
    }
}
