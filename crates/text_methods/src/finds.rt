// Where a text occurs in another.

ghost use Rattle.std.specs.Prelude.{◌≡◌, ◌++◌, length, take, drop, chars, encode_utf8_all, MatchOption, is_some, IfSome, ◌<◌, ◌^◌, true, false};
ghost use Rattle.std.specs.Prelude.{◌-◌};
ghost use Rattle.text_methods.specs.Texts as spec;

use crate::places::{behind, length, place};
use apex_num::Text;

/// What comes before the first occurrence of a text and what comes behind it. `None` exactly where it doesn't occur.
pub fn split_first<'a>(text: &'a str, of: &str) -> Option<(&'a str, &'a str)>
    ensures { MatchOption result (spec.first_of (chars of.now) (chars text.now) ≡ None)
        (λ x. (spec.first_of (chars of.now) (chars text.now) ≡ Some (length (chars x.0.now))) × (chars text.now ≡ chars x.0.now ++ (chars of.now ++ chars x.1.now))) }
{
    match text.split_once(of) {
        None => None,
        Some((front, back)) => Some((front, back)),
    }
}

/// What comes before the last occurrence of a text and what comes behind it. `None` exactly where it doesn't occur.
pub fn split_last<'a>(text: &'a str, of: &str) -> Option<(&'a str, &'a str)>
    ensures { MatchOption result (spec.last_of (chars of.now) (chars text.now) ≡ None)
        (λ x. (spec.last_of (chars of.now) (chars text.now) ≡ Some (length (chars x.0.now))) × (chars text.now ≡ chars x.0.now ++ (chars of.now ++ chars x.1.now))) }
{
    match text.rsplit_once(of) {
        None => None,
        Some((front, back)) => Some((front, back)),
    }
}

/// `contains`: whether a text occurs in another.
pub fn contains(text: &str, of: &str) -> bool
    ensures { result ≡ is_some (spec.first_of (chars of.now) (chars text.now)) }
{
    split_first(text, of).is_some()
}

/// `indexOf`: the first place where a text occurs in another.
pub fn first_index(text: &str, of: &str) -> Option<usize>
    ensures value { result ≡ spec.first_of (chars of.now) (chars text.now) }
    ensures small { IfSome result (λ n. n < 2 ^ 63) }
{
    match split_first(text, of) {
        None => None,
        Some((front, _)) => Some(length(front)),
    }
}

/// `indexOf` with a place: the first place from place `n` on where a text occurs in another; a negative `n` is 0. The empty text
/// occurs at each place up to the length.
pub fn index_from(text: &Text, of: &str, n: i64) -> Option<usize>
    ensures value { result ≡ spec.first_from (spec.place n) (chars of.now) (chars text.now) }
    ensures small { IfSome result (λ n. n < 2 ^ 63) }
{
    let n = place(n);
    if n > text.length() {
        return None;
    }
    match split_first(behind(text, n), of) {
        None => None,
        Some((front, _)) => Some(n + length(front)),
    }
}

/// `lastIndexOf`: the last place where a text occurs in another.
pub fn last_index(text: &str, of: &str) -> Option<usize>
    ensures value { result ≡ spec.last_of (chars of.now) (chars text.now) }
    ensures small { IfSome result (λ n. n < 2 ^ 63) }
{
    match split_last(text, of) {
        None => None,
        Some((front, _)) => Some(length(front)),
    }
}

/// The text without another at its start, or `None` exactly where it doesn't begin with that.
pub fn strip_start<'a>(text: &'a str, of: &str) -> Option<&'a str>
    ensures { MatchOption result (spec.begins (chars of.now) (chars text.now) ≡ false)
        (λ x. (spec.begins (chars of.now) (chars text.now) ≡ true) × (x.now ≡ encode_utf8_all (drop (length (chars of.now)) (chars text.now)))) }
{
    match text.strip_prefix(of) {
        None => None,
        Some(rest) => Some(rest),
    }
}

/// The text without another at its end, or `None` exactly where it doesn't end with that.
pub fn strip_end<'a>(text: &'a str, of: &str) -> Option<&'a str>
    ensures { MatchOption result (spec.ends (chars of.now) (chars text.now) ≡ false)
        (λ x. (spec.ends (chars of.now) (chars text.now) ≡ true) × (x.now ≡ encode_utf8_all (take (length (chars text.now) - length (chars of.now)) (chars text.now)))) }
{
    match text.strip_suffix(of) {
        None => None,
        Some(rest) => Some(rest),
    }
}

/// `removeStart`: the text without another at its start, or all of it where it doesn't begin with that.
pub fn without_start<'a>(text: &'a str, of: &str) -> &'a str
    ensures { result.now ≡ encode_utf8_all (spec.without_start (chars of.now) (chars text.now)) }
{
    match strip_start(text, of) {
        Some(rest) => rest,
        None => text,
    }
}

/// `removeEnd`: the text without another at its end, or all of it where it doesn't end with that.
pub fn without_end<'a>(text: &'a str, of: &str) -> &'a str
    ensures { result.now ≡ encode_utf8_all (spec.without_end (chars of.now) (chars text.now)) }
{
    match strip_end(text, of) {
        Some(rest) => rest,
        None => text,
    }
}

/// `substringBefore`: what comes before the first occurrence of a text, or all where it doesn't occur.
pub fn before<'a>(text: &'a str, of: &str) -> &'a str
    ensures { result.now ≡ encode_utf8_all (spec.before (chars of.now) (chars text.now)) }
{
    match split_first(text, of) {
        Some((front, _)) => front,
        None => text,
    }
}

/// `substringAfter`: what comes behind the first occurrence of a text, or nothing where it doesn't occur.
pub fn after<'a>(text: &'a str, of: &str) -> &'a str
    ensures { result.now ≡ encode_utf8_all (spec.after (chars of.now) (chars text.now)) }
{
    match split_first(text, of) {
        Some((_, back)) => back,
        None => "",
    }
}
