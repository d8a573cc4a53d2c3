// The first piece of a text, dates apart.

ghost use Rattle.std.specs.Prelude.{◌≡◌, ◌≤◌, ◌<◌, ◌+◌, ◌-◌, ◌*◌, ◌^◌, ℕ, ◌&&◌, not, eqb, true, pos, length, take, drop, slice_index, map, false, None, IfSome, MatchOption};
ghost use Rattle.std.specs.List.{list_all};
ghost use Rattle.std.specs.Char.{is_ascii_digit, is_ascii_alphabetic};
ghost use Rattle.std.specs.Str.Parse.{AllDigits, digits_value};
ghost use Rattle.apex_lexer.specs.declared.token.TokenKind.TheVariants.{Integer, Long, Sign as IsSign};
ghost use Rattle.apex_lexer.specs.Words.{sign_shown, sign_words, keyword_shown, keyword_words};
ghost use Rattle.apex_lexer.specs.Lexemes.{front, is_blank, is_escape, word as word_lexeme, sign as sign_lexeme, within, decimal as decimal_lexeme, number as number_lexeme, closed_text, quoted as quoted_lexeme, slashed, plain};
ghost use Rattle.apex_lexer.specs.declared.lexeme.Lexeme.TheVariants.{Says, Wrong};
ghost use Rattle.apex_lexer.specs.declared.lexeme.LexWord.TheVariants.{OpenText};
ghost use Rattle.apex_lexer.specs.Scans.{test_of, begins, is_long_letter, has_part, noted_escape, is_second, sign_if, Goes, IsLongest, behind_first};

use crate::lexeme::{LexWord, Lexeme};
use crate::table::{KeywordRow, SignRow};
use crate::token::{Sign, TokenKind};
use crate::words::{sign_of, word_kind};
use case_tables::Cases;

/// A piece at the front of a text: how many bytes it has, and what it is.
#[derive(Clone, Copy, Debug, PartialEq, Eq, Drop)]
pub struct Found {
    pub size: usize,
    pub lexeme: Lexeme,
}

/// Bytes of one kind.
#[derive(Clone, Copy, Debug, PartialEq, Eq, Drop)]
pub enum Run {
    Words,
    Letters,
    Digits,
    Blanks,
    OnLine,
    GoesOn,
}

fn is_in(run: Run, b: u8) -> bool
    ensures { result ≡ test_of run b }
{
    match run {
        Run::Words => b.is_ascii_alphabetic() || b.is_ascii_digit() || b == b'_',
        Run::Letters => b.is_ascii_alphabetic(),
        Run::Digits => b.is_ascii_digit(),
        Run::Blanks => b == b' ' || b == b'\t' || b == b'\n' || b == b'\r',
        Run::OnLine => b != b'\n',
        Run::GoesOn => b >= 128 && b < 192,
    }
}

// How many bytes at the front are of a kind.
fn run_length(run: Run, text: &[u8]) -> usize
    ensures length { result ≡ front (test_of run) text.now }
    ensures within { result ≤ length text.now }
{
    for (i, b) in text.iter().enumerate() {
        if !is_in(run, *b) {
            return i;
        }
    }
    text.len()
}

// A word.
fn word(words: &Cases<KeywordRow, 65>, text: &[u8]) -> Found
    requires table { map keyword_shown words.now.rows.now ≡ keyword_words }
    requires begins { begins is_ascii_alphabetic text.now ≡ true }
    ensures { IsLongest word_lexeme text.now result }
{
    let size = run_length(Run::Words, text);
    Found {
        size,
        lexeme: Lexeme::Says(word_kind(words, &text[..size])),
    }
}

// The sign that so many bytes at the front are.
fn sign_at(signs: &Cases<SignRow, 35>, text: &[u8], size: usize) -> Option<Sign>
    requires { map sign_shown signs.now.rows.now ≡ sign_words }
    ensures { result ≡ sign_if size text.now }
{
    if size <= text.len() {
        sign_of(signs, &text[..size])
    } else {
        None
    }
}

fn found_sign(sign: Sign, size: usize) -> Found
    ensures { result ≡ record { size = size; lexeme = Says (IsSign sign) } }
{
    Found {
        size,
        lexeme: Lexeme::Says(TokenKind::Sign(sign)),
    }
}

// Whether the second byte of a text may stand in a sign behind the first one.
fn may_go_on(text: &[u8]) -> bool
    ensures { result ≡ begins is_second (drop 1 text.now) }
{
    match text.get(1) {
        Some(b) => matches!(*b, b'=' | b'&' | b'|' | b'+' | b'-' | b'>'),
        None => false,
    }
}

// A sign of three or two characters.
fn long_sign(signs: &Cases<SignRow, 35>, text: &[u8]) -> Option<Found>
    requires { map sign_shown signs.now.rows.now ≡ sign_words }
    ensures { MatchOption result ((sign_if 3 text.now ≡ None) × (sign_if 2 text.now ≡ None)) (IsLongest sign_lexeme text.now) }
{
    if !may_go_on(text) {
        return None;
    }
    if let Some(sign) = sign_at(signs, text, 3) {
        return Some(found_sign(sign, 3));
    }
    match sign_at(signs, text, 2) {
        Some(sign) => Some(found_sign(sign, 2)),
        None => None,
    }
}

// A sign, or a character that begins nothing.
fn sign(signs: &Cases<SignRow, 35>, text: &[u8]) -> Found
    requires table { map sign_shown signs.now.rows.now ≡ sign_words }
    requires some { 0 < length text.now }
    ensures { IsLongest sign_lexeme text.now result }
{
    if let Some(found) = long_sign(signs, text) {
        return found;
    }
    if let Some(sign) = sign_at(signs, text, 1) {
        return found_sign(sign, 1);
    }
    Found {
        size: 1,
        lexeme: Lexeme::Wrong(LexWord::BadChar, 0, 1),
    }
}

// What digits come to, where that is below a bound.
fn digits_below(digits: &[u8], most: u64) -> Option<u64>
    requires digits { list_all is_ascii_digit digits.now ≡ true }
    requires most { 0 < most }
    ensures { MatchOption result (most ≤ digits_value 10 digits.now) (λ n. (n < most) × (n ≡ digits_value 10 digits.now)) }
{
    let mut value: u64 = 0;
    for digit in digits {
        let wide = value as u128 * 10 + (*digit - b'0') as u128;
        if wide >= most as u128 {
            return None;
        }
        value = wide as u64;
    }
    Some(value)
}

// An Integer literal.
fn integer(whole: &[u8]) -> Lexeme
    requires { list_all is_ascii_digit whole.now ≡ true }
    ensures { result ≡ within (digits_value 10 whole.now) (2 ^ 31) (Integer (pos (digits_value 10 whole.now))) (length whole.now) }
{
    match digits_below(whole, 1 << 31) {
        Some(n) => Lexeme::Says(TokenKind::Integer(n as i32)),
        None => Lexeme::Wrong(LexWord::WideLiteral, 0, whole.len()),
    }
}

// A Long literal, of its digits; its letter follows them.
fn long(whole: &[u8]) -> Lexeme
    requires { list_all is_ascii_digit whole.now ≡ true }
    ensures { result ≡ within (digits_value 10 whole.now) (2 ^ 63) (Long (pos (digits_value 10 whole.now))) (length whole.now + 1) }
{
    match digits_below(whole, 1 << 63) {
        Some(n) => Lexeme::Says(TokenKind::Long(n as i64)),
        None => Lexeme::Wrong(LexWord::WideLiteral, 0, whole.len() + 1),
    }
}

// What a part of at most six digits comes to, in millionths.
fn part_millionths(part: &[u8]) -> u64
    requires digits { list_all is_ascii_digit part.now ≡ true }
    requires short { length part.now ≤ 6 }
    ensures { result ≡ digits_value 10 part.now * 10 ^ (6 - length part.now) }
{
    match digits_below(part, 1_000_000) {
        Some(value) => value * 10_u64.pow((6 - part.len()) as u32),
        None => 0,
    }
}

// Decimals have fewer millionths.
const DECIMALS: u128 = 10_000_000_000_000_000_000;

// A Decimal literal, of its digits before the dot and behind it; `size` is that of the literal.
fn decimal(whole: &[u8], part: &[u8], size: usize) -> Lexeme
    requires whole { list_all is_ascii_digit whole.now ≡ true }
    requires part { list_all is_ascii_digit part.now ≡ true }
    requires size { size ≡ length whole.now + (length part.now + 1) }
    ensures { result ≡ decimal_lexeme whole.now part.now }
{
    if part.len() > 6 {
        return Lexeme::Wrong(LexWord::WideLiteral, 0, size);
    }
    let Some(n) = digits_below(whole, 10_000_000_000_000) else {
        return Lexeme::Wrong(LexWord::WideLiteral, 0, size);
    };
    let millionths = n as u128 * 1_000_000 + part_millionths(part) as u128;
    if millionths < DECIMALS {
        Lexeme::Says(TokenKind::Decimal(millionths as u64))
    } else {
        Lexeme::Wrong(LexWord::WideLiteral, 0, size)
    }
}

// Whether a text begins with an L.
fn begins_long(text: &[u8]) -> bool
    ensures { result ≡ begins is_long_letter text.now }
{
    match text.first() {
        Some(b) => *b == b'L' || *b == b'l',
        None => false,
    }
}

// Whether a text begins with a dot and a digit.
fn begins_part(text: &[u8]) -> bool
    ensures { result ≡ has_part text.now }
{
    text.len() > 1 && text[0] == b'.' && text[1].is_ascii_digit()
}

// The digits at the front of a text.
fn digits_of(text: &[u8]) -> &[u8]
    ensures { result.now ≡ take (front is_ascii_digit text.now) text.now }
{
    text.split_at(run_length(Run::Digits, text)).0
}

// What follows the digits of a number and belongs to it, and what the number is.
fn behind_digits(whole: &[u8], rest: &[u8]) -> Found
    requires digits { list_all is_ascii_digit whole.now ≡ true }
    requires some { 0 < length whole.now }
    ensures { Goes whole.now rest.now result.size result.lexeme }
{
    if begins_long(rest) {
        return Found {
            size: 1,
            lexeme: long(whole),
        };
    }
    if begins_part(rest) {
        let part = digits_of(rest.split_at(1).1);
        return Found {
            size: part.len() + 1,
            lexeme: decimal(whole, part, whole.len() + (part.len() + 1)),
        };
    }
    Found {
        size: 0,
        lexeme: integer(whole),
    }
}

// A number.
fn number(text: &[u8]) -> Found
    requires { begins is_ascii_digit text.now ≡ true }
    ensures { IsLongest number_lexeme text.now result }
{
    let (whole, rest) = text.split_at(run_length(Run::Digits, text));
    let found = behind_digits(whole, rest);
    Found {
        size: whole.len() + found.size,
        lexeme: found.lexeme,
    }
}

// A text literal that isn't closed on its line.
fn open_text(size: usize) -> Found
    ensures { result ≡ record { size = size; lexeme = Wrong OpenText 0 size } }
{
    Found {
        size,
        lexeme: Lexeme::Wrong(LexWord::OpenText, 0, size),
    }
}

// A text literal that is closed; `bad` is the place of its first backslash that begins no escape.
fn close_text(bad: Option<usize>, size: usize) -> Found
    requires { IfSome bad (λ at. at < size) }
    ensures { result ≡ record { size = size; lexeme = closed_text bad } }
{
    let lexeme = match bad {
        None => Lexeme::Says(TokenKind::Quoted),
        Some(at) => Lexeme::Wrong(LexWord::BadChar, at, at + 1),
    };
    Found { size, lexeme }
}

// Whether a backslash may take this byte.
fn takes(b: u8) -> bool
    ensures { result ≡ is_escape b }
{
    matches!(b, b'\'' | b'"' | b'\\' | b'n' | b'r' | b't' | b'b' | b'f')
}

// The place of the first backslash that begins no escape, behind one more byte at a place.
fn note_escape(escaped: bool, bad: Option<usize>, b: u8, at: usize) -> Option<usize>
    ensures { result ≡ noted_escape escaped bad b at }
{
    match bad {
        Some(before) => Some(before),
        None => {
            if escaped && !takes(b) {
                Some(at.saturating_sub(1))
            } else {
                None
            }
        }
    }
}

// Whether a byte ends a text literal.
fn closes(escaped: bool, b: u8) -> bool
    ensures { result ≡ (not escaped && eqb b 39) }
{
    !escaped && b == b'\''
}

// Whether a byte is a backslash that takes the next one.
fn escapes(escaped: bool, b: u8) -> bool
    ensures { result ≡ (not escaped && eqb b 92) }
{
    !escaped && b == b'\\'
}

// A text literal.
fn quoted(text: &[u8]) -> Found
    requires { 0 < length text.now }
    ensures { IsLongest (behind_first quoted_lexeme) text.now result }
{
    let mut escaped = false;
    let mut bad: Option<usize> = None;
    for i in 1..text.len() {
        let b = text[i];
        if b == b'\n' {
            return open_text(i);
        }
        if closes(escaped, b) {
            return close_text(bad, i + 1);
        }
        bad = note_escape(escaped, bad, b, i);
        escaped = escapes(escaped, b);
    }
    open_text(text.len())
}

// A comment to the end of its line.
fn line_comment(text: &[u8]) -> Found
    requires { begins (λ b. eqb b 47) (drop 1 text.now) ≡ true }
    ensures { IsLongest (behind_first slashed) text.now result }
{
    Found {
        size: 2 + run_length(Run::OnLine, text.split_at(2).1),
        lexeme: Lexeme::Apart,
    }
}

// Whether a byte ends a comment.
fn ends_comment(star: bool, b: u8) -> bool
    ensures { result ≡ (star && eqb b 47) }
{
    star && b == b'/'
}

// A comment up to an asterisk and a slash.
fn block_comment(text: &[u8]) -> Found
    requires { begins (λ b. eqb b 42) (drop 1 text.now) ≡ true }
    ensures { IsLongest (behind_first slashed) text.now result }
{
    let mut star = false;
    for i in 2..text.len() {
        if ends_comment(star, text[i]) {
            return Found {
                size: i + 1,
                lexeme: Lexeme::Apart,
            };
        }
        star = text[i] == b'*';
    }
    Found {
        size: text.len(),
        lexeme: Lexeme::Wrong(LexWord::OpenComment, 0, text.len()),
    }
}

// Whether the second byte of a text is this one.
fn second_is(text: &[u8], b: u8) -> bool
    ensures { result ≡ begins (λ c. eqb c b) (drop 1 text.now) }
{
    match text.get(1) {
        Some(c) => *c == b,
        None => false,
    }
}

// A comment, or a sign that begins with a slash.
fn slash(signs: &Cases<SignRow, 35>, text: &[u8]) -> Found
    requires table { map sign_shown signs.now.rows.now ≡ sign_words }
    requires some { 0 < length text.now }
    requires first { slice_index text.now 0 ≡ 47 }
    ensures { IsLongest (behind_first slashed) text.now result }
{
    if second_is(text, b'/') {
        line_comment(text)
    } else if second_is(text, b'*') {
        block_comment(text)
    } else {
        sign(signs, text)
    }
}

// Blanks.
fn blanks(text: &[u8]) -> Found
    requires { begins is_blank text.now ≡ true }
    ensures { IsLongest plain text.now result }
{
    Found {
        size: run_length(Run::Blanks, text),
        lexeme: Lexeme::Apart,
    }
}

// A character of several bytes, which begins nothing.
fn stray(text: &[u8]) -> Found
    requires some { 0 < length text.now }
    requires first { 128 ≤ slice_index text.now 0 }
    ensures { IsLongest plain text.now result }
{
    let size = 1 + run_length(Run::GoesOn, text.split_at(1).1);
    Found {
        size,
        lexeme: Lexeme::Wrong(LexWord::BadChar, 0, size),
    }
}

// Whether a text begins with a byte of a kind.
fn begins_with(run: Run, text: &[u8]) -> bool
    ensures { result ≡ begins (test_of run) text.now }
{
    match text.first() {
        Some(b) => is_in(run, *b),
        None => false,
    }
}

// A piece that begins with a byte of ASCII that is neither letter, digit nor blank, or with another byte.
fn other(signs: &Cases<SignRow, 35>, text: &[u8]) -> Found
    requires table { map sign_shown signs.now.rows.now ≡ sign_words }
    requires some { 0 < length text.now }
    requires letter { begins is_ascii_alphabetic text.now ≡ false }
    requires digit { begins is_ascii_digit text.now ≡ false }
    requires blank { begins is_blank text.now ≡ false }
    ensures { IsLongest plain text.now result }
{
    let b = text[0];
    if b == b'\'' {
        quoted(text)
    } else if b == b'/' {
        slash(signs, text)
    } else if b < 128 {
        sign(signs, text)
    } else {
        stray(text)
    }
}

/// The first piece of a text, dates apart.
pub fn first_piece(signs: &Cases<SignRow, 35>, words: &Cases<KeywordRow, 65>, text: &[u8]) -> Found
    requires signs { map sign_shown signs.now.rows.now ≡ sign_words }
    requires words { map keyword_shown words.now.rows.now ≡ keyword_words }
    requires some { 0 < length text.now }
    ensures { IsLongest plain text.now result }
{
    if begins_with(Run::Letters, text) {
        word(words, text)
    } else if begins_with(Run::Digits, text) {
        number(text)
    } else if begins_with(Run::Blanks, text) {
        blanks(text)
    } else {
        other(signs, text)
    }
}
