// From bytes to tokens.

ghost use Rattle.std.specs.Prelude.{◌≡◌, ◌≤◌, ◌<◌, ◌+◌, List, true, length, take, drop, map, MatchBool, MatchOption, MatchResult, IfOk, IfErr};
ghost use Rattle.std.specs.Str.{IsUtf8};
ghost use Rattle.civil_dates.specs.Texts.{BeginsDate};
ghost use Rattle.apex_lexer.specs.Words.{sign_shown, sign_words, keyword_shown, keyword_words};
ghost use Rattle.apex_lexer.specs.Brackets.{inside};
ghost use Rattle.apex_lexer.specs.Unclosed.{IsCursor};
ghost use Rattle.apex_lexer.specs.Scans.{Fits};
ghost use Rattle.apex_lexer.specs.Reading.{IsFirst, Shown, shown, end_at, HasTokens, HasFault, Refuses, Refused, Slices, Rise, EndsLast};
ghost use Rattle.apex_lexer.specs.Passes.{Gives, SoFar, Breaks, HasAll};

use crate::brackets::Brackets;
use crate::dated::dated;
use crate::lexeme::{LexWord, Lexeme};
use crate::scan::{Found, first_piece};
use crate::table::{KeywordRow, SignRow, keyword_rows, sign_rows};
use crate::token::{Token, TokenKind};
use crate::words::{keyword_table, sign_table};
use apex_text::Span;
use case_tables::Cases;
use civil_dates::begins_date;
use std::alloc::{AllocError, Global};
use thiserror::Error;

/// Why a text has no tokens, or that there was no memory for them.
#[derive(Clone, Copy, Debug, PartialEq, Eq, Drop, Error)]
pub enum LexFault {
    /// The first fault of the text, and where it stands.
    #[error("{0}")]
    Wrong(LexWord, Span),
    /// Memory was refused.
    #[error("no memory")]
    NoMemory,
}

// A fault and where it stands.
#[derive(Clone, Copy, Debug, PartialEq, Eq, Drop)]
pub struct Fault {
    pub word: LexWord,
    pub span: Span,
}

// Whether a date is read at the front of what stands at a place of a text.
fn reads_date(
    alloc: Global,
    brackets: &mut Brackets,
    text: &[u8],
    at: usize,
) -> Result<bool, AllocError>
    requires cursor { IsCursor text.now brackets.old }
    requires from { brackets.old.at ≤ at }
    requires to { at < length text.now }
    ensures answer { IfOk result (λ answer. MatchBool answer ((inside text.now at ≡ true) × BeginsDate (drop at text.now)) (inside text.now at ≡ true → BeginsDate (drop at text.now) → ⊥)) }
    ensures cursor { IfOk result (λ _. IsCursor text.now brackets.new) }
    ensures at { IfOk result (λ _. brackets.new.at ≤ at) }
{
    if begins_date(text.split_at(at).1) {
        brackets.is_inside(alloc, text, at)
    } else {
        Ok(false)
    }
}

// The piece at a place of a text.
fn piece_at(
    alloc: Global,
    signs: &Cases<SignRow, 35>,
    words: &Cases<KeywordRow, 65>,
    brackets: &mut Brackets,
    text: &[u8],
    at: usize,
) -> Result<Found, AllocError>
    requires signs { map sign_shown signs.now.rows.now ≡ sign_words }
    requires words { map keyword_shown words.now.rows.now ≡ keyword_words }
    requires cursor { IsCursor text.now brackets.old }
    requires from { brackets.old.at ≤ at }
    requires to { at < length text.now }
    ensures first { IfOk result (λ found. IsFirst (inside text.now at) (drop at text.now) found.size found.lexeme) }
    ensures fits { IfOk result (λ found. Fits found.size found.lexeme) }
    ensures cursor { IfOk result (λ _. IsCursor text.now brackets.new) }
    ensures at { IfOk result (λ _. brackets.new.at ≤ at) }
{
    if reads_date(alloc, brackets, text, at)? {
        Ok(dated(text.split_at(at).1))
    } else {
        Ok(first_piece(signs, words, text.split_at(at).1))
    }
}

// What a piece at a place of a text gives.
#[derive(Clone, Copy, Debug, PartialEq, Eq, Drop)]
pub enum Step<'a> {
    Apart,
    Says(Token<'a>),
    Wrong(Fault),
}

// What a piece at a place of a text gives.
fn step_of(text: &[u8], at: usize, found: Found) -> Step
    requires within { at + found.size ≤ length text.now }
    requires fits { Fits found.size found.lexeme }
    ensures { Gives found.lexeme at found.size (take found.size (drop at text.now)) result }
{
    let size = found.size;
    match found.lexeme {
        Lexeme::Apart => Step::Apart,
        Lexeme::Says(kind) => {
            let from_here = text.split_at(at).1;
            let bytes = from_here.split_at(size).0;
            let span = Span {
                from: at,
                to: at + size,
            };
            Step::Says(Token {
                kind,
                text: bytes,
                span,
            })
        }
        Lexeme::Wrong(word, low, high) => {
            let span = Span {
                from: at + low,
                to: at + high,
            };
            Step::Wrong(Fault { word, span })
        }
    }
}

// The tokens of a text without its end, or its first fault, UTF-8 apart.
fn pass<'a>(
    alloc: Global,
    signs: &Cases<SignRow, 35>,
    words: &Cases<KeywordRow, 65>,
    text: &'a [u8],
) -> Result<Result<Vec<Token<'a>>, Fault>, AllocError>
    requires signs { map sign_shown signs.now.rows.now ≡ sign_words }
    requires words { map keyword_shown words.now.rows.now ≡ keyword_words }
    ensures { IfOk result (λ answer. MatchResult answer (λ tokens. SoFar text.now (length text.now) (map shown tokens.items)) (λ fault. HasFault text.now fault.word fault.span.from fault.span.to)) }
{
    let mut tokens = Vec::new(alloc);
    let mut brackets = Brackets::new(alloc);
    let mut at = 0;
    while at < text.len() {
        let found = piece_at(alloc, signs, words, &mut brackets, text, at)?;
        let size = found.size;
        let step = step_of(text, at, found);
        at += size;
        match step {
            Step::Apart => {}
            Step::Says(token) => tokens.push(token)?,
            Step::Wrong(fault) => return Ok(Err(fault)),
        }
    }
    Ok(Ok(tokens))
}

// The first byte that begins no character.
fn invalid_at(text: &[u8]) -> Option<Fault>
    ensures { MatchOption result (IsUtf8 text.now) (λ fault. Breaks text.now fault) }
{
    match str::from_utf8(text) {
        Ok(_) => None,
        Err(e) => {
            let from = e.valid_up_to();
            let span = Span { from, to: from + 1 };
            Some(Fault {
                word: LexWord::NotUtf8,
                span,
            })
        }
    }
}

// Whether a byte that begins no character comes before another fault.
fn is_before(invalid: &Fault, fault: &Fault) -> bool
    ensures { MatchBool result (invalid.now.span.from ≤ fault.now.span.from) (fault.now.span.from < invalid.now.span.from) }
{
    invalid.span.from <= fault.span.from
}

// The end of a text as a token.
fn end_of(text: &[u8]) -> Token
    ensures { shown result ≡ end_at (length text.now) }
{
    let end = text.len();
    Token {
        kind: TokenKind::End,
        text: text.split_at(end).1,
        span: Span { from: end, to: end },
    }
}

// The tokens of a text with its end, if it is UTF-8.
fn finish<'a>(
    text: &'a [u8],
    tokens: Vec<Token<'a>>,
) -> Result<Result<Vec<Token<'a>>, Fault>, AllocError>
    requires { SoFar text.now (length text.now) (map shown tokens.items) }
    ensures { IfOk result (λ answer. MatchResult answer (λ all. HasAll text.now (map shown all.items)) (λ fault. Refused text.now fault.word fault.span)) }
{
    if let Some(invalid) = invalid_at(text) {
        return Ok(Err(invalid));
    }
    let mut tokens = tokens;
    tokens.push(end_of(text))?;
    Ok(Ok(tokens))
}

// The first fault of a text, of which this is the first, UTF-8 apart.
fn earlier(text: &[u8], fault: Fault) -> Fault
    requires { HasFault text.now fault.word fault.span.from fault.span.to }
    ensures { Refused text.now result.word result.span }
{
    match invalid_at(text) {
        None => fault,
        Some(invalid) => {
            if is_before(&invalid, &fault) {
                invalid
            } else {
                fault
            }
        }
    }
}

// The tokens of a text, or its first fault, by the tables.
fn lex_with<'a>(
    alloc: Global,
    signs: &Cases<SignRow, 35>,
    words: &Cases<KeywordRow, 65>,
    text: &'a [u8],
) -> Result<Result<Vec<Token<'a>>, Fault>, AllocError>
    requires signs { map sign_shown signs.now.rows.now ≡ sign_words }
    requires words { map keyword_shown words.now.rows.now ≡ keyword_words }
    ensures { IfOk result (λ answer. MatchResult answer (λ tokens. HasAll text.now (map shown tokens.items)) (λ fault. Refused text.now fault.word fault.span)) }
{
    match pass(alloc, signs, words, text)? {
        Ok(tokens) => finish(text, tokens),
        Err(fault) => Ok(Err(earlier(text, fault))),
    }
}

/// The tokens of a text, with the end of input as the last one; or the first fault of the text, with its span. At one
/// place a byte that begins no character comes before another fault. The text is cut in one pass over its bytes, and
/// a second one asks whether it is UTF-8.
///
/// A date or moment is one token only between a `[` and the `]` that closes it. To know that, the first such form
/// that stands behind an open `[` makes the lexer look once at the brackets of the whole text; only then it takes
/// memory beside the tokens, for the places of the brackets that no bracket closes.
pub fn lex(alloc: Global, text: &[u8]) -> Result<Vec<Token>, LexFault>
    ensures found { IfOk result (λ tokens. HasTokens text.now (map shown tokens.items)) }
    ensures only { IfOk result (λ tokens. (other : List Shown) → HasTokens text.now other → other ≡ map shown tokens.items) }
    ensures slices { IfOk result (λ tokens. Slices text.now (map shown tokens.items)) }
    ensures rise { IfOk result (λ tokens. Rise 0 (map shown tokens.items)) }
    ensures ends { IfOk result (λ tokens. EndsLast (map shown tokens.items)) }
    ensures fault { IfErr result (Refuses text.now) }
{
    let sign_rows = sign_rows();
    let keyword_rows = keyword_rows();
    let signs = sign_table(&sign_rows);
    let words = keyword_table(&keyword_rows);
    match lex_with(alloc, &signs, &words, text) {
        Ok(Ok(tokens)) => Ok(tokens),
        Ok(Err(fault)) => Err(LexFault::Wrong(fault.word, fault.span)),
        Err(_) => Err(LexFault::NoMemory),
    }
}
