// Members of classes.

ghost use Rattle.std.specs.Prelude.{◌≡◌, List, MatchBool};
ghost use Rattle.apex_lexer.specs.declared.token.Token.{Token};
ghost use Rattle.token_grammar.specs.Notation.{Give, seen};
ghost use Rattle.token_grammar.specs.Readings.{Told};
ghost use Rattle.apex_syntax.specs.declared.unit.ResultTree.TheVariants as results;
ghost use Rattle.apex_parse_unit.specs.Members as grammar;

use crate::modifiers::{member_kind, modifiers};
use crate::params::{params, void_result};
use crate::part::MemberBody;
use apex_lexer::{Keyword, Sign, Token, TokenKind};
use apex_list::{Boxed, Items};
use apex_parse_stmt::{body_within, boxed_type, initial, is_named};
use apex_syntax::{Body, MemberModifier, MemberTree, ResultTree, TypeTree, Word};
use apex_text::Span;
use std::alloc::Global;
use token_grammar::{
    Names, Stop, boxed, is_name, is_sign, is_word, kind_at, name, open_sign, pass_sign, pass_word,
    span_of,
};

// A body, where `{` stands here, and `;` otherwise.
fn method_end(
    alloc: Global,
    tokens: &[Token],
    at: usize,
    room: usize,
) -> Result<(Option<Body>, usize), Stop>
    ensures { Told tokens.now (grammar.method_end room) at result }
{
    if is_sign(tokens, at, Sign::OpenBrace) {
        let (body, end) = body_within(alloc, tokens, at, room)?;
        Ok((Some(body), end))
    } else {
        let end = pass_sign(tokens, at, Sign::Semicolon)?;
        Ok((None, end))
    }
}

// A method behind its name.
fn method_rest(
    alloc: Global,
    tokens: &[Token],
    at: usize,
    room: usize,
    answer: Boxed<ResultTree>,
    name: Word,
) -> Result<(Boxed<MemberBody>, usize), Stop>
    ensures { Told tokens.now (grammar.method_rest room answer name) at result }
{
    let (params, behind) = params(alloc, tokens, at, room)?;
    let (body, end) = method_end(alloc, tokens, behind, room)?;
    boxed(alloc, MemberBody::Method(answer, name, params, body), end)
}

// `{ get; set; }`
fn accessors(tokens: &[Token], at: usize, room: usize) -> Result<((), usize), Stop>
    ensures { Told tokens.now (grammar.accessors room) at result }
{
    let (_, behind) = open_sign(tokens, at, Sign::OpenBrace, room)?;
    let behind = pass_word(tokens, behind, Keyword::Get)?;
    let behind = pass_sign(tokens, behind, Sign::Semicolon)?;
    let behind = pass_word(tokens, behind, Keyword::Set)?;
    let behind = pass_sign(tokens, behind, Sign::Semicolon)?;
    let end = pass_sign(tokens, behind, Sign::CloseBrace)?;
    Ok(((), end))
}

fn property_rest(
    alloc: Global,
    tokens: &[Token],
    at: usize,
    room: usize,
    kind: Boxed<TypeTree>,
    name: Word,
) -> Result<(Boxed<MemberBody>, usize), Stop>
    ensures { Told tokens.now (grammar.property_rest room kind name) at result }
{
    let (_, end) = accessors(tokens, at, room)?;
    boxed(alloc, MemberBody::Property(kind, name), end)
}

fn field_rest(
    alloc: Global,
    tokens: &[Token],
    at: usize,
    room: usize,
    kind: Boxed<TypeTree>,
    name: Word,
) -> Result<(Boxed<MemberBody>, usize), Stop>
    ensures { Told tokens.now (grammar.field_rest room kind name) at result }
{
    let (value, behind) = initial(alloc, tokens, at, room)?;
    let end = pass_sign(tokens, behind, Sign::Semicolon)?;
    boxed(alloc, MemberBody::Field(kind, name, value), end)
}

// A method behind a type and a name.
fn typed_method(
    alloc: Global,
    tokens: &[Token],
    at: usize,
    room: usize,
    kind: Boxed<TypeTree>,
    name: Word,
) -> Result<(Boxed<MemberBody>, usize), Stop>
    ensures { Told tokens.now (grammar.method_rest room (results.«Type» kind) name) at result }
{
    let answer = Boxed::new(alloc, ResultTree::Type(kind.into_value()))?;
    method_rest(alloc, tokens, at, room, answer, name)
}

// What stands behind a type and a name.
fn typed_rest(
    alloc: Global,
    tokens: &[Token],
    at: usize,
    room: usize,
    kind: Boxed<TypeTree>,
    name: Word,
) -> Result<(Boxed<MemberBody>, usize), Stop>
    ensures { Told tokens.now (grammar.typed_rest room kind name) at result }
{
    if is_sign(tokens, at, Sign::OpenParen) {
        typed_method(alloc, tokens, at, room, kind, name)
    } else if is_sign(tokens, at, Sign::OpenBrace) {
        property_rest(alloc, tokens, at, room, kind, name)
    } else {
        field_rest(alloc, tokens, at, room, kind, name)
    }
}

// What begins with a type.
fn typed(
    alloc: Global,
    tokens: &[Token],
    at: usize,
    room: usize,
) -> Result<(Boxed<MemberBody>, usize), Stop>
    ensures { Told tokens.now (grammar.typed room) at result }
{
    let (kind, behind) = boxed_type(alloc, tokens, at, room)?;
    let (name, behind) = name(alloc, tokens, behind, Names::InCode)?;
    typed_rest(alloc, tokens, behind, room, kind, name)
}

fn void_method(
    alloc: Global,
    tokens: &[Token],
    at: usize,
    room: usize,
) -> Result<(Boxed<MemberBody>, usize), Stop>
    ensures { Told tokens.now (grammar.void_method room) at result }
{
    let (answer, behind) = void_result(alloc, tokens, at)?;
    let (name, behind) = name(alloc, tokens, behind, Names::InCode)?;
    method_rest(alloc, tokens, behind, room, answer, name)
}

fn constructor(
    alloc: Global,
    tokens: &[Token],
    at: usize,
    room: usize,
) -> Result<(Boxed<MemberBody>, usize), Stop>
    ensures { Told tokens.now (grammar.constructor room) at result }
{
    let (name, behind) = name(alloc, tokens, at, Names::InCode)?;
    let (params, behind) = params(alloc, tokens, behind, room)?;
    let (body, end) = body_within(alloc, tokens, behind, room)?;
    boxed(alloc, MemberBody::Constructor(name, params, body), end)
}

// Whether a name and `(` stand here.
fn is_constructor(tokens: &[Token], at: usize) -> bool
    ensures { MatchBool result (grammar.next_constructor (seen tokens.now) at) (grammar.next_constructor (seen tokens.now) at → ⊥) }
{
    is_named(tokens, at) && is_sign(tokens, at + 1, Sign::OpenParen)
}

// A member without its modifiers.
fn member_body(
    alloc: Global,
    tokens: &[Token],
    at: usize,
    room: usize,
) -> Result<(Boxed<MemberBody>, usize), Stop>
    ensures { Told tokens.now (grammar.member_body room) at result }
{
    if is_word(tokens, at, Keyword::Void) {
        void_method(alloc, tokens, at, room)
    } else if is_constructor(tokens, at) {
        constructor(alloc, tokens, at, room)
    } else {
        typed(alloc, tokens, at, room)
    }
}

// A member that ends here, in a box.
fn made(
    alloc: Global,
    span: Span,
    modifiers: Items<MemberModifier>,
    body: Boxed<MemberBody>,
    end: usize,
) -> Result<(Boxed<MemberTree>, usize), Stop>
    ensures { (tokens : List Token) → Told tokens (Give (grammar.member_tree span modifiers body)) end result }
{
    match body.into_value() {
        MemberBody::Field(kind, name, value) => {
            let kind = kind.into_value();
            let tree = MemberTree::Field(span, modifiers, kind, name, value);
            boxed(alloc, tree, end)
        }
        MemberBody::Property(kind, name) => {
            let written = kind.into_value();
            let tree = MemberTree::Property(span, modifiers, written, name);
            boxed(alloc, tree, end)
        }
        MemberBody::Method(answer, name, params, body) => {
            let answer = answer.into_value();
            let tree = MemberTree::Method(span, modifiers, answer, name, params, body);
            boxed(alloc, tree, end)
        }
        MemberBody::Constructor(name, params, body) => {
            let tree = MemberTree::Constructor(span, modifiers, name, params, body);
            boxed(alloc, tree, end)
        }
    }
}

fn member(
    alloc: Global,
    tokens: &[Token],
    at: usize,
    room: usize,
) -> Result<(Boxed<MemberTree>, usize), Stop>
    ensures { Told tokens.now (grammar.member room) at result }
{
    let (modifiers, behind) = modifiers(alloc, tokens, at)?;
    let (body, end) = member_body(alloc, tokens, behind, room)?;
    let span = span_of(tokens, at, end);
    made(alloc, span, modifiers, body, end)
}

/// Whether `void` or a type may begin here.
pub fn is_result(tokens: &[Token], at: usize) -> bool
    ensures { MatchBool result (grammar.next_if grammar.begins_result (seen tokens.now) at) (grammar.next_if grammar.begins_result (seen tokens.now) at → ⊥) }
{
    begins_result(kind_at(tokens, at))
}

fn is_void(kind: TokenKind) -> bool
    ensures { result ≡ grammar.is_void kind }
{
    match kind {
        TokenKind::Keyword(Keyword::Void) => true,
        _ => false,
    }
}

fn begins_result(kind: TokenKind) -> bool
    ensures { result ≡ grammar.begins_result kind }
{
    is_void(kind) || is_name(Names::InCode, kind)
}

fn begins_member(kind: TokenKind) -> bool
    ensures { result ≡ grammar.begins_member kind }
{
    match member_kind(kind) {
        Some(_) => true,
        None => begins_result(kind),
    }
}

fn is_member(tokens: &[Token], at: usize) -> bool
    ensures { MatchBool result (grammar.next_if grammar.begins_member (seen tokens.now) at) (grammar.next_if grammar.begins_member (seen tokens.now) at → ⊥) }
{
    begins_member(kind_at(tokens, at))
}

/// The members of a class.
pub fn members(
    alloc: Global,
    tokens: &[Token],
    at: usize,
    room: usize,
) -> Result<(Items<MemberTree>, usize), Stop>
    ensures { Told tokens.now (grammar.members room) at result }
{
    let mut all = Items::new(alloc);
    let mut end = at;
    'all: while is_member(tokens, end) {
        let (next, after) = member(alloc, tokens, end, room)?;
        all.push(next.into_value())?;
        end = after;
    }
    Ok((all, end))
}
