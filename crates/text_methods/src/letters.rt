// Letters, blanks, and texts that are made longer.

ghost use Rattle.std.specs.Prelude.{◌≡◌, ◌-◌, ◌++◌, ◌∷◌, MatchOption, length, reverse, chars, encode_utf8_all, IfOk, string_bytes};
ghost use Rattle.std.specs.Char.{encode_utf8, is_ascii_digit, to_ascii_uppercase, to_ascii_lowercase};
ghost use Rattle.std.specs.List.{list_all};
ghost use Rattle.text_methods.specs.Texts as spec;

use crate::places::{length, place};
use std::alloc::{AllocError, Global};

// A scalar and a text behind it.
fn with_first(alloc: Global, first: char, rest: &str) -> Result<String, AllocError>
    ensures { IfOk result (λ t. string_bytes t ≡ encode_utf8 first ++ rest.now) }
{
    let mut out = String::new(alloc);
    out.push(first)?;
    out.push_str(rest)?;
    Ok(out)
}

// The first scalar and what comes behind it; none where the text is empty.
fn split_front(text: &str) -> Option<(char, &str)>
    ensures { MatchOption result (length text.now ≡ 0) (λ x. (text.now ≡ encode_utf8 x.0 ++ x.1.now) × (chars text.now ≡ x.0 ∷ chars x.1.now)) }
{
    let mut chars = text.chars();
    match chars.next() {
        None => None,
        Some(c) => Some((c, chars.as_str())),
    }
}

// What comes before the last scalar, and that; none where the text is empty.
fn split_back(text: &str) -> Option<(&str, char)>
    ensures { MatchOption result (length text.now ≡ 0) (λ x. (text.now ≡ x.0.now ++ encode_utf8 x.1) × (reverse (chars text.now) ≡ x.1 ∷ reverse (chars x.0.now))) }
{
    let mut chars = text.chars();
    match chars.next_back() {
        None => None,
        Some(c) => Some((chars.as_str(), c)),
    }
}

/// `capitalize`: the text with its first letter made large, if it is one of ASCII.
pub fn capitalize(alloc: Global, text: &str) -> Result<String, AllocError>
    ensures { IfOk result (λ t. string_bytes t ≡ encode_utf8_all (spec.first_by to_ascii_uppercase (chars text.now))) }
{
    match split_front(text) {
        None => Ok(String::new(alloc)),
        Some((first, rest)) => with_first(alloc, first.to_ascii_uppercase(), rest),
    }
}

/// `uncapitalize`: the text with its first letter made small, if it is one of ASCII.
pub fn uncapitalize(alloc: Global, text: &str) -> Result<String, AllocError>
    ensures { IfOk result (λ t. string_bytes t ≡ encode_utf8_all (spec.first_by to_ascii_lowercase (chars text.now))) }
{
    match split_front(text) {
        None => Ok(String::new(alloc)),
        Some((first, rest)) => with_first(alloc, first.to_ascii_lowercase(), rest),
    }
}

// The text without the scalars up to U+0020 at its start.
fn trim_low_start(text: &str) -> &str
    ensures bytes { result.now ≡ encode_utf8_all (spec.without_low (chars text.now)) }
    ensures scalars { chars result.now ≡ spec.without_low (chars text.now) }
{
    let mut rest = text;
    while let Some((c, behind)) = split_front(rest) {
        if c > ' ' {
            return rest;
        }
        rest = behind;
    }
    rest
}

// The text without the scalars up to U+0020 at its end.
fn trim_low_end(text: &str) -> &str
    ensures { result.now ≡ encode_utf8_all (reverse (spec.without_low (reverse (chars text.now)))) }
{
    let mut rest = text;
    while let Some((before, c)) = split_back(rest) {
        if c > ' ' {
            return rest;
        }
        rest = before;
    }
    rest
}

/// `trim`: the text without the blanks and controls up to U+0020 at both its ends.
pub fn trim(text: &str) -> &str
    ensures { result.now ≡ encode_utf8_all (spec.trimmed (chars text.now)) }
{
    trim_low_end(trim_low_start(text))
}

/// `reverse`: the scalars from the last to the first.
pub fn reverse(alloc: Global, text: &str) -> Result<String, AllocError>
    ensures { IfOk result (λ t. string_bytes t ≡ encode_utf8_all (reverse (chars text.now))) }
{
    let mut out = String::new(alloc);
    let mut rest = text;
    while let Some((before, c)) = split_back(rest) {
        out.push(c)?;
        rest = before;
    }
    Ok(out)
}

/// `repeat`: the text so many times; empty where `n` is 0 or below.
pub fn repeated(alloc: Global, text: &str, n: i64) -> Result<String, AllocError>
    ensures { IfOk result (λ t. string_bytes t ≡ spec.repeated n text.now) }
{
    text.repeat(alloc, place(n))
}

/// How many bytes `repeated` answers, or 2^64 - 1 where there are more.
pub fn repeated_size(text: &str, n: i64) -> u64
    ensures { result ≡ spec.capped (length (spec.repeated n text.now)) }
{
    (text.len() as u64).saturating_mul(place(n) as u64)
}

// How many scalars a text lacks to have `n`.
fn missing(text: &str, n: i64) -> usize
    ensures { result ≡ spec.place n - length (chars text.now) }
{
    place(n).saturating_sub(length(text))
}

/// `leftPad`: the text with as many blanks before it as it lacks to have `n` scalars.
pub fn left_pad(alloc: Global, text: &str, n: i64) -> Result<String, AllocError>
    ensures { IfOk result (λ t. string_bytes t ≡ spec.left_pad n text.now) }
{
    let mut out = " ".repeat(alloc, missing(text, n))?;
    out.push_str(text)?;
    Ok(out)
}

/// `rightPad`: the text with as many blanks behind it as it lacks to have `n` scalars.
pub fn right_pad(alloc: Global, text: &str, n: i64) -> Result<String, AllocError>
    ensures { IfOk result (λ t. string_bytes t ≡ spec.right_pad n text.now) }
{
    let blanks = " ".repeat(alloc, missing(text, n))?;
    let mut out = String::from_str(alloc, text)?;
    out.push_str(blanks.as_str())?;
    Ok(out)
}

/// How many bytes `left_pad` and `right_pad` answer, or 2^64 - 1 where there are more.
pub fn padded_size(text: &str, n: i64) -> u64
    ensures left { result ≡ spec.capped (length (spec.left_pad n text.now)) }
    ensures right { result ≡ spec.capped (length (spec.right_pad n text.now)) }
{
    (text.len() as u64).saturating_add(missing(text, n) as u64)
}

// Whether a text has only digits of ASCII.
fn all_digits(text: &str) -> bool
    ensures { result ≡ list_all is_ascii_digit (chars text.now) }
{
    text.chars().all(|c| c.is_ascii_digit())
}

/// `isNumeric`: whether the text isn't empty and has only digits of ASCII.
pub fn is_numeric(text: &str) -> bool
    ensures { result ≡ spec.is_numeric (chars text.now) }
{
    length(text) != 0 && all_digits(text)
}

/// `isBlank`: whether the text has only white space, as the Unicode standard defines it.
pub fn is_blank(text: &str) -> bool
    ensures { result ≡ spec.is_blank (chars text.now) }
{
    text.chars().all(|c| c.is_whitespace())
}
