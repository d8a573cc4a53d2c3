// Readings of one token.

ghost use Rattle.std.specs.Prelude.{◌≡◌, ◌↔◌, ◌<◌, length, slice_get, option_map, suc, OnSome, IfOk, IfErr, IsTrue, MatchBool};
ghost use Rattle.std.specs.Option.{option_copied};
ghost use Rattle.apex_lexer.specs.declared.token.TokenKind.TheVariants.{Sign as IsSign, Keyword as IsWord};
ghost use Rattle.apex_lexer.specs.Reading.{shown};
ghost use Rattle.token_grammar.specs.Notation as notation;
ghost use Rattle.token_grammar.specs.Readings.{Told, Passed, IsNoMemory, fault_of};
ghost use Rattle.token_grammar.specs.Tokens as grammar;

use crate::fault::{ParseFault, ParseWord, Stop};
use apex_lexer::{Keyword, Reserved, Sign, Token, TokenKind};
use apex_syntax::Word;
use apex_text::{Name, Span};
use std::alloc::Global;

/// Where a name stands.
#[derive(Clone, Copy, Debug, PartialEq, Eq, Drop)]
pub enum Names {
    /// In a query: the words of queries are no names.
    InQuery,
    /// In an expression or a statement.
    InCode,
    /// Behind a dot or `FROM`: each word is a name.
    AllWords,
}

/// The token at a place, and none behind the last one.
pub fn token_at<'a, 'b>(tokens: &'a [Token<'b>], at: usize) -> Option<&'a Token<'b>>
    ensures token { option_map shown (option_copied result) ≡ slice_get (notation.seen tokens.now) at }
    ensures within { OnSome result (at < length tokens.now) }
{
    tokens.get(at)
}

/// What the token at a place says; behind the last one is the end.
pub fn kind_at(tokens: &[Token], at: usize) -> TokenKind
    ensures { result ≡ notation.kind_at (notation.seen tokens.now) at }
{
    match token_at(tokens, at) {
        Some(token) => token.kind,
        None => TokenKind::End,
    }
}

/// The bytes from the token at one place up to the token before another.
pub fn span_of(tokens: &[Token], from: usize, to: usize) -> Span
    ensures { result ≡ notation.span_of (notation.seen tokens.now) from to }
{
    let begin = match token_at(tokens, from) {
        Some(token) => token.span.from,
        None => 0,
    };
    let end = match token_at(tokens, to.saturating_sub(1)) {
        Some(token) => token.span.to,
        None => 0,
    };
    Span {
        from: begin,
        to: end,
    }
}

// The bytes of one token.
fn span_at(tokens: &[Token], at: usize) -> Span
    ensures { result ≡ notation.span_at (notation.seen tokens.now) at }
{
    match token_at(tokens, at) {
        Some(token) => token.span,
        None => Span { from: 0, to: 0 },
    }
}

// Whether two signs are the same.
fn same_sign(a: Sign, b: Sign) -> bool
    ensures { IsTrue result ↔ (a ≡ b) }
{
    a == b
}

// Whether two keywords are the same.
fn same_word(a: Keyword, b: Keyword) -> bool
    ensures { IsTrue result ↔ (a ≡ b) }
{
    a == b
}

/// Whether the token at a place is this sign.
pub fn is_sign(tokens: &[Token], at: usize, sign: Sign) -> bool
    ensures { MatchBool result (grammar.next_sign sign (notation.seen tokens.now) at) (grammar.next_sign sign (notation.seen tokens.now) at → ⊥) }
{
    match kind_at(tokens, at) {
        TokenKind::Sign(other) => same_sign(other, sign),
        _ => false,
    }
}

/// Whether the token at a place is this keyword.
pub fn is_word(tokens: &[Token], at: usize, word: Keyword) -> bool
    ensures { MatchBool result (grammar.next_word word (notation.seen tokens.now) at) (grammar.next_word word (notation.seen tokens.now) at → ⊥) }
{
    match kind_at(tokens, at) {
        TokenKind::Keyword(other) => same_word(other, word),
        _ => false,
    }
}

/// The place behind this sign.
pub fn pass_sign(tokens: &[Token], at: usize, sign: Sign) -> Result<usize, Stop>
    ensures { Passed tokens.now (IsSign sign) at result }
{
    if is_sign(tokens, at, sign) {
        Ok(at + 1)
    } else {
        Err(Stop::At(ParseWord::Expected, at))
    }
}

/// The place behind this keyword.
pub fn pass_word(tokens: &[Token], at: usize, word: Keyword) -> Result<usize, Stop>
    ensures { Passed tokens.now (IsWord word) at result }
{
    if is_word(tokens, at, word) {
        Ok(at + 1)
    } else {
        Err(Stop::At(ParseWord::Expected, at))
    }
}

/// A form that this sign opens, where `room` more may be open: how many may be open inside, and the place behind it.
pub fn open_sign(
    tokens: &[Token],
    at: usize,
    sign: Sign,
    room: usize,
) -> Result<(usize, usize), Stop>
    ensures told { Told tokens.now (grammar.open_sign sign room) at result }
    ensures inside { IfOk result (λ r. room ≡ suc r.0) }
    ensures memory { IfErr result (λ stop. IsNoMemory stop → ⊥) }
{
    let behind = pass_sign(tokens, at, sign)?;
    if room == 0 {
        return Err(Stop::At(ParseWord::TooDeep, at));
    }
    Ok((room - 1, behind))
}

/// A form that this keyword opens.
pub fn open_word(
    tokens: &[Token],
    at: usize,
    word: Keyword,
    room: usize,
) -> Result<(usize, usize), Stop>
    ensures told { Told tokens.now (grammar.open_word word room) at result }
    ensures inside { IfOk result (λ r. room ≡ suc r.0) }
    ensures memory { IfErr result (λ stop. IsNoMemory stop → ⊥) }
{
    let behind = pass_word(tokens, at, word)?;
    if room == 0 {
        return Err(Stop::At(ParseWord::TooDeep, at));
    }
    Ok((room - 1, behind))
}

/// Whether a token is a name.
pub fn is_name(names: Names, kind: TokenKind) -> bool
    ensures { result ≡ grammar.is_name names kind }
{
    match kind {
        TokenKind::Name => true,
        TokenKind::Keyword(word) => match names {
            Names::InQuery => word.reserved() == Reserved::Nowhere,
            Names::InCode => word.reserved() != Reserved::Everywhere,
            Names::AllWords => true,
        },
        _ => false,
    }
}

/// A name and the place behind it.
pub fn name(alloc: Global, tokens: &[Token], at: usize, names: Names) -> Result<(Word, usize), Stop>
    ensures { Told tokens.now (grammar.name names) at result }
{
    match token_at(tokens, at) {
        Some(token) if is_name(names, token.kind) => {
            let name = Name::of(alloc, token.text)?;
            Ok((
                Word {
                    span: token.span,
                    name,
                },
                at + 1,
            ))
        }
        _ => Err(Stop::At(ParseWord::Expected, at)),
    }
}

/// The fault of a reading that stopped, with the bytes of its token.
pub fn fault_of(tokens: &[Token], stop: Stop) -> ParseFault
    ensures { result ≡ fault_of tokens.now stop }
{
    match stop {
        Stop::At(word, at) => ParseFault::Wrong(word, span_at(tokens, at)),
        Stop::NoMemory => ParseFault::NoMemory,
    }
}
