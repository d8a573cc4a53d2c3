// Occurrences that don't overlap, from the left.

ghost use Rattle.std.specs.Prelude.{◌≡◌, ◌<◌, ◌^◌, length, chars, encode_utf8_all, IfOk, string_bytes};
ghost use Rattle.text_methods.specs.Texts as spec;

use crate::finds::split_first;
use std::alloc::{AllocError, Global};

/// `countMatches`: how many occurrences of a text that don't overlap another has; 0 for the empty text.
pub fn count_matches(text: &str, of: &str) -> usize
    ensures value { result ≡ spec.matches (chars of.now) (chars text.now) }
    ensures small { result < 2 ^ 63 }
{
    if of.is_empty() {
        return 0;
    }
    let mut rest = text;
    let mut count = 0;
    while let Some((_, back)) = split_first(rest, of) {
        count += 1;
        rest = back;
    }
    count
}

/// `replace`: the text with another in place of each occurrence of `of`, from the left; those that overlap one before
/// and those of the empty text stay.
pub fn replace(alloc: Global, text: &str, of: &str, with: &str) -> Result<String, AllocError>
    ensures { IfOk result (λ t. string_bytes t ≡ encode_utf8_all (spec.replace (chars of.now) (chars with.now) (chars text.now))) }
{
    if of.is_empty() {
        return String::from_str(alloc, text);
    }
    let mut out = String::new(alloc);
    let mut rest = text;
    while let Some((front, back)) = split_first(rest, of) {
        out.push_str(front)?;
        out.push_str(with)?;
        rest = back;
    }
    out.push_str(rest)?;
    Ok(out)
}

/// How many bytes `replace` answers, or 2^64 - 1 where there are more.
pub fn replaced_size(text: &str, of: &str, with: &str) -> u64
    ensures { result ≡ spec.capped (length (encode_utf8_all (spec.replace (chars of.now) (chars with.now) (chars text.now)))) }
{
    let count = count_matches(text, of) as u128;
    let more = text.len() as u128 + count * with.len() as u128;
    let size = more - count * of.len() as u128;
    u64::try_from(size).unwrap_or(u64::MAX)
}
