// What makes a parenthesis a cast.

ghost use Rattle.std.specs.Prelude.{◌≡◌, ◌+◌, slice_get, IfOk, MatchBool};
ghost use Rattle.token_grammar.specs.Notation.{seen};
ghost use Rattle.apex_parse_leaf.specs.Casts as grammar;

use crate::ends::type_end;
use apex_lexer::{Keyword, Sign, Token, TokenKind};
use std::alloc::{AllocError, Global};
use token_grammar::{Names, is_name, is_sign, kind_at, token_at};

fn begins_operand_word(word: Keyword) -> bool
    ensures { result ≡ grammar.begins_operand_word word }
{
    match word {
        Keyword::True
        | Keyword::False
        | Keyword::Null
        | Keyword::This
        | Keyword::Super
        | Keyword::New => true,
        _ => is_name(Names::InCode, TokenKind::Keyword(word)),
    }
}

// Whether what may be cast begins with a token.
fn begins_operand(kind: TokenKind) -> bool
    ensures { result ≡ grammar.begins_operand kind }
{
    match kind {
        TokenKind::Name
        | TokenKind::Integer(_)
        | TokenKind::Long(_)
        | TokenKind::Decimal(_)
        | TokenKind::Quoted => true,
        TokenKind::Keyword(word) => begins_operand_word(word),
        _ => false,
    }
}

fn is_word(written: &[u8], word: &[u8]) -> bool
    ensures { result ≡ grammar.is_folded written.now word.now }
{
    written.eq_ignore_ascii_case(word)
}

fn is_primitive(written: &[u8]) -> bool
    ensures { result ≡ grammar.is_primitive written.now }
{
    is_word(written, b"boolean")
        || is_word(written, b"integer")
        || is_word(written, b"long")
        || is_word(written, b"decimal")
        || is_word(written, b"string")
        || is_word(written, b"id")
        || is_word(written, b"date")
        || is_word(written, b"datetime")
}

// Whether a primitive type is written at a place.
fn is_primitive_at(tokens: &[Token], at: usize) -> bool
    ensures { result ≡ grammar.named_so grammar.is_primitive (slice_get (seen tokens.now) at) }
{
    match token_at(tokens, at) {
        Some(token) => is_primitive(token.text),
        None => false,
    }
}

fn is_system_at(tokens: &[Token], at: usize) -> bool
    ensures { result ≡ grammar.named_so grammar.is_system (slice_get (seen tokens.now) at) }
{
    match token_at(tokens, at) {
        Some(token) => is_word(token.text, b"system"),
        None => false,
    }
}

// Whether a primitive type alone and a closing parenthesis stand here.
fn is_primitive_cast(tokens: &[Token], at: usize) -> bool
    ensures { MatchBool result (grammar.Primitive (seen tokens.now) at) (grammar.Primitive (seen tokens.now) at → ⊥) }
{
    is_primitive_at(tokens, at) && is_sign(tokens, at + 1, Sign::CloseParen)
}

// Whether `System`, a dot, a primitive type and a closing parenthesis stand here.
fn is_system_cast(tokens: &[Token], at: usize) -> bool
    ensures { MatchBool result (grammar.SystemPrimitive (seen tokens.now) at) (grammar.SystemPrimitive (seen tokens.now) at → ⊥) }
{
    is_system_at(tokens, at)
        && is_sign(tokens, at + 1, Sign::Dot)
        && is_primitive_at(tokens, at + 2)
        && is_sign(tokens, at + 3, Sign::CloseParen)
}

// Whether a closing parenthesis and what may be cast stand here.
fn is_cast_end(tokens: &[Token], at: usize) -> bool
    ensures { MatchBool result (grammar.CastEnd (seen tokens.now) at) (grammar.CastEnd (seen tokens.now) at → ⊥) }
{
    is_sign(tokens, at, Sign::CloseParen) && begins_operand(kind_at(tokens, at + 1))
}

// Whether another type stands here, of any depth, with what makes a cast of it.
fn is_other_cast(alloc: Global, tokens: &[Token], at: usize) -> Result<bool, AllocError>
    ensures { IfOk result (λ b. MatchBool b (grammar.TypeCast (seen tokens.now) at) (grammar.TypeCast (seen tokens.now) at → ⊥)) }
{
    match type_end(alloc, tokens, at)? {
        Some(end) => Ok(is_cast_end(tokens, end)),
        None => Ok(false),
    }
}

// Whether what stands in a parenthesis makes a cast of it.
fn is_cast_type(alloc: Global, tokens: &[Token], at: usize) -> Result<bool, AllocError>
    ensures { IfOk result (λ b. MatchBool b (grammar.IsCastType (seen tokens.now) at) (grammar.IsCastType (seen tokens.now) at → ⊥)) }
{
    if is_primitive_cast(tokens, at) {
        return Ok(true);
    }
    if is_system_cast(tokens, at) {
        return Ok(true);
    }
    is_other_cast(alloc, tokens, at)
}

/// Whether a cast begins here.
pub fn is_cast(alloc: Global, tokens: &[Token], at: usize) -> Result<bool, AllocError>
    ensures { IfOk result (λ b. MatchBool b (grammar.next_cast (seen tokens.now) at) (grammar.next_cast (seen tokens.now) at → ⊥)) }
{
    if is_sign(tokens, at, Sign::OpenParen) {
        is_cast_type(alloc, tokens, at + 1)
    } else {
        Ok(false)
    }
}
