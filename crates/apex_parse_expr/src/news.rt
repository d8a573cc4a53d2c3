// What stands behind `new`. `expr` reads an expression in a form that is opened.

ghost use Rattle.token_grammar.specs.Readings.{Told, ReadsBy};
ghost use Rattle.token_grammar.specs.Tokens.{optional, next_sign};
ghost use Rattle.apex_lexer.specs.declared.token.Sign.TheVariants as signs;
ghost use Rattle.apex_parse_leaf.specs.Types as types;
ghost use Rattle.apex_parse_expr.specs.Exprs as grammar;

use crate::args::{args, inner};
use apex_lexer::{Keyword, Sign, Token};
use apex_list::{Boxed, Items};
use apex_parse_leaf::{is_fields, type_tree};
use apex_syntax::{Expr, FieldValue, NewItem, NewPart};
use std::alloc::Global;
use token_grammar::{Names, Stop, boxed, is_sign, name, open_sign, pass_sign, pass_word, span_of};

// A name, `=` and a value.
fn field<E: Fn(usize) -> Result<(Boxed<Expr>, usize), Stop>>(
    alloc: Global,
    tokens: &[Token],
    at: usize,
    room: usize,
    expr: &E,
) -> Result<(FieldValue, usize), Stop>
    requires calls { E.IsAlwaysCallable expr.now }
    requires told { ReadsBy tokens.now (E.post expr.now) (grammar.deeper_expr room) }
    ensures { Told tokens.now (grammar.field (grammar.deeper_expr room)) at result }
{
    let (field, behind) = name(alloc, tokens, at, Names::InCode)?;
    let behind = pass_sign(tokens, behind, Sign::Assign)?;
    let (value, end) = inner(tokens, behind, room, expr)?;
    Ok((FieldValue { field, value }, end))
}

fn comma_field<E: Fn(usize) -> Result<(Boxed<Expr>, usize), Stop>>(
    alloc: Global,
    tokens: &[Token],
    at: usize,
    room: usize,
    expr: &E,
) -> Result<(FieldValue, usize), Stop>
    requires calls { E.IsAlwaysCallable expr.now }
    requires told { ReadsBy tokens.now (E.post expr.now) (grammar.deeper_expr room) }
    ensures { Told tokens.now (grammar.comma_field (grammar.deeper_expr room)) at result }
{
    let behind = pass_sign(tokens, at, Sign::Comma)?;
    field(alloc, tokens, behind, room, expr)
}

// The fields behind a first one.
fn more_fields<E: Fn(usize) -> Result<(Boxed<Expr>, usize), Stop>>(
    alloc: Global,
    tokens: &[Token],
    at: usize,
    room: usize,
    first: FieldValue,
    expr: &E,
) -> Result<(Items<FieldValue>, usize), Stop>
    requires calls { E.IsAlwaysCallable expr.now }
    requires told { ReadsBy tokens.now (E.post expr.now) (grammar.deeper_expr room) }
    ensures { Told tokens.now (grammar.more_fields (grammar.deeper_expr room) first) at result }
{
    let mut fields = Items::new(alloc);
    fields.push(first)?;
    let mut end = at;
    'fields: while is_sign(tokens, end, Sign::Comma) {
        let (next, after) = comma_field(alloc, tokens, end, room, expr)?;
        fields.push(next)?;
        end = after;
    }
    Ok((fields, end))
}

// Fields with their values, in their parentheses.
fn fields<E: Fn(usize) -> Result<(Boxed<Expr>, usize), Stop>>(
    alloc: Global,
    tokens: &[Token],
    at: usize,
    room: usize,
    expr: &E,
) -> Result<(NewPart, usize), Stop>
    requires calls { E.IsAlwaysCallable expr.now }
    requires told { ReadsBy tokens.now (E.post expr.now) (grammar.deeper_expr room) }
    ensures { Told tokens.now (grammar.fields room (grammar.deeper_expr room)) at result }
{
    let (_, behind) = open_sign(tokens, at, Sign::OpenParen, room)?;
    let (first, behind) = field(alloc, tokens, behind, room, expr)?;
    let (fields, behind) = more_fields(alloc, tokens, behind, room, first, expr)?;
    let end = pass_sign(tokens, behind, Sign::CloseParen)?;
    let span = span_of(tokens, at, end);
    Ok((NewPart::Fields(span, fields), end))
}

// The value behind `=>`, where that is written.
fn arrow<E: Fn(usize) -> Result<(Boxed<Expr>, usize), Stop>>(
    tokens: &[Token],
    at: usize,
    room: usize,
    expr: &E,
) -> Result<(Option<Boxed<Expr>>, usize), Stop>
    requires calls { E.IsAlwaysCallable expr.now }
    requires told { ReadsBy tokens.now (E.post expr.now) (grammar.deeper_expr room) }
    ensures { Told tokens.now (optional (next_sign signs.Arrow) (grammar.arrow_expr (grammar.deeper_expr room))) at result }
{
    if is_sign(tokens, at, Sign::Arrow) {
        let behind = pass_sign(tokens, at, Sign::Arrow)?;
        let (value, end) = inner(tokens, behind, room, expr)?;
        Ok((Some(value), end))
    } else {
        Ok((None, at))
    }
}

// An item of a collection.
fn item<E: Fn(usize) -> Result<(Boxed<Expr>, usize), Stop>>(
    tokens: &[Token],
    at: usize,
    room: usize,
    expr: &E,
) -> Result<(NewItem, usize), Stop>
    requires calls { E.IsAlwaysCallable expr.now }
    requires told { ReadsBy tokens.now (E.post expr.now) (grammar.deeper_expr room) }
    ensures { Told tokens.now (grammar.item (grammar.deeper_expr room)) at result }
{
    let (item, behind) = inner(tokens, at, room, expr)?;
    let (value, end) = arrow(tokens, behind, room, expr)?;
    Ok((NewItem { item, value }, end))
}

fn comma_item<E: Fn(usize) -> Result<(Boxed<Expr>, usize), Stop>>(
    tokens: &[Token],
    at: usize,
    room: usize,
    expr: &E,
) -> Result<(NewItem, usize), Stop>
    requires calls { E.IsAlwaysCallable expr.now }
    requires told { ReadsBy tokens.now (E.post expr.now) (grammar.deeper_expr room) }
    ensures { Told tokens.now (grammar.comma_item (grammar.deeper_expr room)) at result }
{
    let behind = pass_sign(tokens, at, Sign::Comma)?;
    item(tokens, behind, room, expr)
}

// The items behind a first one.
fn more_items<E: Fn(usize) -> Result<(Boxed<Expr>, usize), Stop>>(
    alloc: Global,
    tokens: &[Token],
    at: usize,
    room: usize,
    first: NewItem,
    expr: &E,
) -> Result<(Items<NewItem>, usize), Stop>
    requires calls { E.IsAlwaysCallable expr.now }
    requires told { ReadsBy tokens.now (E.post expr.now) (grammar.deeper_expr room) }
    ensures { Told tokens.now (grammar.more_items (grammar.deeper_expr room) first) at result }
{
    let mut items = Items::new(alloc);
    items.push(first)?;
    let mut end = at;
    'items: while is_sign(tokens, end, Sign::Comma) {
        let (next, after) = comma_item(tokens, end, room, expr)?;
        items.push(next)?;
        end = after;
    }
    Ok((items, end))
}

fn some_items<E: Fn(usize) -> Result<(Boxed<Expr>, usize), Stop>>(
    alloc: Global,
    tokens: &[Token],
    at: usize,
    room: usize,
    expr: &E,
) -> Result<(Items<NewItem>, usize), Stop>
    requires calls { E.IsAlwaysCallable expr.now }
    requires told { ReadsBy tokens.now (E.post expr.now) (grammar.deeper_expr room) }
    ensures { Told tokens.now (grammar.some_items (grammar.deeper_expr room)) at result }
{
    let (first, behind) = item(tokens, at, room, expr)?;
    more_items(alloc, tokens, behind, room, first, expr)
}

// What stands between the braces.
fn inner_items<E: Fn(usize) -> Result<(Boxed<Expr>, usize), Stop>>(
    alloc: Global,
    tokens: &[Token],
    at: usize,
    room: usize,
    expr: &E,
) -> Result<(Items<NewItem>, usize), Stop>
    requires calls { E.IsAlwaysCallable expr.now }
    requires told { ReadsBy tokens.now (E.post expr.now) (grammar.deeper_expr room) }
    ensures { Told tokens.now (grammar.inner_items (grammar.deeper_expr room)) at result }
{
    if is_sign(tokens, at, Sign::CloseBrace) {
        Ok((Items::new(alloc), at))
    } else {
        some_items(alloc, tokens, at, room, expr)
    }
}

// Items in their braces.
fn items<E: Fn(usize) -> Result<(Boxed<Expr>, usize), Stop>>(
    alloc: Global,
    tokens: &[Token],
    at: usize,
    room: usize,
    expr: &E,
) -> Result<(NewPart, usize), Stop>
    requires calls { E.IsAlwaysCallable expr.now }
    requires told { ReadsBy tokens.now (E.post expr.now) (grammar.deeper_expr room) }
    ensures { Told tokens.now (grammar.items room (grammar.deeper_expr room)) at result }
{
    let (_, behind) = open_sign(tokens, at, Sign::OpenBrace, room)?;
    let (items, behind) = inner_items(alloc, tokens, behind, room, expr)?;
    let end = pass_sign(tokens, behind, Sign::CloseBrace)?;
    let span = span_of(tokens, at, end);
    Ok((NewPart::Items(span, items), end))
}

fn new_args<E: Fn(usize) -> Result<(Boxed<Expr>, usize), Stop>>(
    alloc: Global,
    tokens: &[Token],
    at: usize,
    room: usize,
    expr: &E,
) -> Result<(NewPart, usize), Stop>
    requires calls { E.IsAlwaysCallable expr.now }
    requires told { ReadsBy tokens.now (E.post expr.now) (grammar.deeper_expr room) }
    ensures { Told tokens.now (grammar.new_args room (grammar.deeper_expr room)) at result }
{
    let (args, end) = args(alloc, tokens, at, room, expr)?;
    Ok((NewPart::Args(span_of(tokens, at, end), args), end))
}

// What stands behind the type.
fn new_part<E: Fn(usize) -> Result<(Boxed<Expr>, usize), Stop>>(
    alloc: Global,
    tokens: &[Token],
    at: usize,
    room: usize,
    expr: &E,
) -> Result<(NewPart, usize), Stop>
    requires calls { E.IsAlwaysCallable expr.now }
    requires told { ReadsBy tokens.now (E.post expr.now) (grammar.deeper_expr room) }
    ensures { Told tokens.now (grammar.new_part room (grammar.deeper_expr room)) at result }
{
    if is_fields(tokens, at) {
        fields(alloc, tokens, at, room, expr)
    } else if is_sign(tokens, at, Sign::OpenBrace) {
        items(alloc, tokens, at, room, expr)
    } else {
        new_args(alloc, tokens, at, room, expr)
    }
}

/// `new`, a type, and what stands behind it.
pub fn new_expr<E: Fn(usize) -> Result<(Boxed<Expr>, usize), Stop>>(
    alloc: Global,
    tokens: &[Token],
    at: usize,
    room: usize,
    expr: &E,
) -> Result<(Boxed<Expr>, usize), Stop>
    requires calls { E.IsAlwaysCallable expr.now }
    requires told { ReadsBy tokens.now (E.post expr.now) (grammar.deeper_expr room) }
    ensures { Told tokens.now (grammar.new_expr room (grammar.deeper_expr room) (types.type room)) at result }
{
    let behind = pass_word(tokens, at, Keyword::New)?;
    let (kind, behind) = type_tree(alloc, tokens, behind, room)?;
    let (part, end) = new_part(alloc, tokens, behind, room, expr)?;
    let span = span_of(tokens, at, end);
    boxed(alloc, Expr::New(span, kind, part), end)
}
