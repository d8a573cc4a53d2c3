// The tokens of a formula's text.

ghost use Rattle.std.specs.Prelude.{◌≡◌, ◌≤◌, ◌<◌, take, drop, length, true, Some, IsTrue, IfOk, IfSome};
ghost use Rattle.std.specs.Str.{IsAscii};
ghost use Rattle.schema_names.specs.Names as names;
ghost use Rattle.formula_rules.specs.declared.token.Token.TheVariants.{Op};
ghost use Rattle.formula_rules.specs.Tokens as tokens;
ghost use Rattle.formula_rules.specs.Readings.{test_of, Tells, Cuts, Shows, IsWithin, NextIs, AreTokens};

use crate::fault::RuleFault;
use crate::token::Token;
use apex_list::Items;
use apex_num::{Dec, Text};
use apex_schema::RuleOp;
use apex_text::Name;
use number_methods::read_decimal;
use std::alloc::Global;
use std::str;

/// A kind of bytes.
#[derive(Clone, Copy, PartialEq, Eq, Drop)]
pub enum Run {
    Blanks,
    Words,
    Numbers,
    Quoted,
}

/// A token at the front of a text, and how many bytes it has.
#[derive(Drop)]
pub struct Cut {
    pub token: Token,
    pub size: usize,
}

fn is_letter(b: u8) -> bool
    ensures { result ≡ names.is_letter b }
{
    (64 < b && b < 91) || (96 < b && b < 123)
}

fn is_digit(b: u8) -> bool
    ensures { result ≡ names.is_digit b }
{
    47 < b && b < 58
}

fn is_in(run: Run, b: u8) -> bool
    ensures { result ≡ test_of run b }
{
    match run {
        Run::Blanks => b == b' ' || b == b'\t' || b == b'\n' || b == b'\r',
        Run::Words => is_letter(b) || is_digit(b) || b == b'_',
        Run::Numbers => is_digit(b) || b == b'.',
        Run::Quoted => b != b'"',
    }
}

// How many bytes at the front are of a kind.
fn count(run: Run, text: &[u8]) -> usize
    ensures { result ≡ length (tokens.run (test_of run) text.now) }
{
    for (i, b) in text.iter().enumerate() {
        if !is_in(run, *b) {
            return i;
        }
    }
    text.len()
}

// The place behind the bytes of a kind at the front.
fn run_length(run: Run, text: &[u8]) -> usize
    ensures front { take result text.now ≡ tokens.run (test_of run) text.now }
    ensures rest { drop result text.now ≡ tokens.behind (test_of run) text.now }
    ensures within { result ≤ length text.now }
{
    count(run, text)
}

// The text from a place on.
fn behind(text: &[u8], at: usize) -> &[u8]
    requires { at ≤ length text.now }
    ensures { result.now ≡ drop at text.now }
{
    &text[at..]
}

// Whether the byte at a place is this one.
fn is_at(text: &[u8], at: usize, byte: u8) -> bool
    ensures value { result ≡ tokens.is_at text.now at byte }
    ensures within { IsTrue result → at < length text.now }
{
    match text.get(at) {
        Some(b) => *b == byte,
        None => false,
    }
}

fn begins_word(text: &[u8]) -> bool
    ensures { result ≡ tokens.begins names.is_letter text.now }
{
    match text.first() {
        Some(b) => is_letter(*b),
        None => false,
    }
}

fn begins_number(text: &[u8]) -> bool
    ensures { result ≡ tokens.begins names.is_digit text.now }
{
    match text.first() {
        Some(b) => is_digit(*b),
        None => false,
    }
}

// A word, which begins with a letter.
fn word(alloc: Global, text: &[u8]) -> Result<Cut, RuleFault>
    requires { tokens.begins names.is_letter text.now ≡ true }
    ensures cuts { Cuts (tokens.word_at text.now) text.now result }
    ensures within { IfOk result (λ cut. IsWithin cut text.now) }
{
    let size = run_length(Run::Words, text);
    let name = Name::of(alloc, &text[..size])?;
    Ok(Cut {
        token: Token::Word(name),
        size,
    })
}

// The number that digits and dots are.
fn number_of(text: &[u8]) -> Option<Dec>
    requires { IsAscii text.now }
    ensures { result ≡ tokens.number_of text.now }
{
    match str::from_utf8(text) {
        Ok(text) => read_decimal(text),
        Err(_) => unreachable!(),
    }
}

// A number, which begins with a digit.
fn number(text: &[u8]) -> Result<Cut, RuleFault>
    requires { tokens.begins names.is_digit text.now ≡ true }
    ensures cuts { Cuts (tokens.number_at text.now) text.now result }
    ensures within { IfOk result (λ cut. IsWithin cut text.now) }
{
    let size = run_length(Run::Numbers, text);
    match number_of(&text[..size]) {
        Some(number) => Ok(Cut {
            token: Token::Number(number),
            size,
        }),
        None => Err(RuleFault::BadRule),
    }
}

// The text of these bytes, where they are one.
fn text_of(alloc: Global, bytes: &[u8]) -> Result<Text, RuleFault>
    ensures { Tells (tokens.text_of bytes.now) result }
{
    match Text::of(alloc, Vec::from_slice(alloc, bytes)?)? {
        Some(text) => Ok(text),
        None => Err(RuleFault::BadRule),
    }
}

// A text, which begins with a quote.
fn quoted(alloc: Global, text: &[u8]) -> Result<Cut, RuleFault>
    requires { 0 < length text.now }
    ensures cuts { Cuts (tokens.text_at (drop 1 text.now)) text.now result }
    ensures within { IfOk result (λ cut. IsWithin cut text.now) }
{
    let inside = behind(text, 1);
    let size = run_length(Run::Quoted, inside);
    if size == inside.len() {
        return Err(RuleFault::BadRule);
    }
    let token = Token::Text(text_of(alloc, &inside[..size])?);
    Ok(Cut {
        token,
        size: size + 2,
    })
}

fn op(op: RuleOp, size: usize) -> Option<Cut>
    ensures { result ≡ Some (record { token = Op op; size = size }) }
{
    Some(Cut {
        token: Token::Op(op),
        size,
    })
}

fn mark(token: Token) -> Option<Cut>
    ensures { result ≡ Some (record { token = token; size = 1 }) }
{
    Some(Cut { token, size: 1 })
}

// A parenthesis or a comma.
fn mark_of(text: &[u8]) -> Option<Cut>
    ensures shows { Shows (tokens.mark_at text.now) text.now result }
    ensures within { IfSome result (λ cut. IsWithin cut text.now) }
{
    if is_at(text, 0, b'(') {
        mark(Token::Open)
    } else if is_at(text, 0, b')') {
        mark(Token::Close)
    } else if is_at(text, 0, b',') {
        mark(Token::Comma)
    } else {
        None
    }
}

// A sign.
fn sign_of(text: &[u8]) -> Option<Cut>
    ensures shows { Shows (tokens.sign_at text.now) text.now result }
    ensures within { IfSome result (λ cut. IsWithin cut text.now) }
{
    if is_at(text, 0, b'<') {
        if is_at(text, 1, b'>') {
            op(RuleOp::Differs, 2)
        } else if is_at(text, 1, b'=') {
            op(RuleOp::AtMost, 2)
        } else {
            op(RuleOp::Less, 1)
        }
    } else if is_at(text, 0, b'>') {
        if is_at(text, 1, b'=') {
            op(RuleOp::AtLeast, 2)
        } else {
            op(RuleOp::More, 1)
        }
    } else if is_at(text, 0, b'=') {
        op(RuleOp::Equal, 1)
    } else {
        mark_of(text)
    }
}

// The token at the front of a text that begins with no blank.
fn token(alloc: Global, text: &[u8]) -> Result<Cut, RuleFault>
    ensures cuts { Cuts (tokens.token_at text.now) text.now result }
    ensures within { IfOk result (λ cut. IsWithin cut text.now) }
{
    if begins_word(text) {
        word(alloc, text)
    } else if begins_number(text) {
        number(text)
    } else if is_at(text, 0, b'"') {
        quoted(alloc, text)
    } else {
        match sign_of(text) {
            Some(cut) => Ok(cut),
            None => Err(RuleFault::BadRule),
        }
    }
}

// The next token behind blanks and the place behind it; none at the end.
fn next(alloc: Global, text: &[u8], at: usize) -> Result<Option<(Token, usize)>, RuleFault>
    requires { at ≤ length text.now }
    ensures next { NextIs text.now at result }
    ensures on { IfOk result (λ next. IfSome next (λ r. (at < r.1) × (r.1 ≤ length text.now))) }
{
    let begin = at + run_length(Run::Blanks, behind(text, at));
    if begin == text.len() {
        return Ok(None);
    }
    let cut = token(alloc, behind(text, begin))?;
    Ok(Some((cut.token, begin + cut.size)))
}

/// The tokens of a text. BadRule exactly where it has none.
pub fn tokens_of(alloc: Global, text: &[u8]) -> Result<Items<Token>, RuleFault>
    ensures { AreTokens text.now result }
{
    let mut tokens = Items::new(alloc);
    let mut at = 0;
    loop {
        match next(alloc, text, at)? {
            None => return Ok(tokens),
            Some((token, end)) => {
                tokens.push(token)?;
                at = end;
            }
        }
    }
}
