// Decimals as texts.

ghost use Rattle.std.specs.Prelude.{◌≡◌, ◌≢◌, ◌+◌, ◌-◌, ◌*◌, ◌^◌, ◌<◌, ◌≤◌, ◌++◌, ℕ, ℤ, List, length, take, drop, min, slice_index, decimal, MatchBool, MatchOption};
ghost use Rattle.std.specs.Char.{digit_value};
ghost use Rattle.std.specs.Str.Parse.{AllDigits, digits_value};
ghost use Rattle.apex_num.specs.Decimals.{IsDecimal, Answers, Reads, Spells, after_dot, signed, dec_text, size_text, part_digits, IsPart, IsSize};
ghost use Rattle.apex_num.specs.declared.dec.NumFault.TheVariants.{NotADecimal};

use crate::dec::{Dec, NumFault, within};
use itoa::Buffer;

// No whole part of a Decimal is as great.
const MOST: u64 = 10_000_000_000_000;

const MILLION: u64 = 1_000_000;

// How many bytes at the start of a text are digits, and what they come to, MOST at the most.
fn read_digits(text: &[u8]) -> (usize, u64)
    ensures within { result.0 ≤ length text.now }
    ensures digits { AllDigits 10 (take result.0 text.now) }
    ensures end { result.0 < length text.now → 10 ≤ digit_value (slice_index text.now result.0) }
    ensures value { result.1 ≡ min (digits_value 10 (take result.0 text.now)) 10000000000000 }
{
    let mut value: u64 = 0;
    for (i, byte) in text.iter().enumerate() {
        if !byte.is_ascii_digit() {
            return (i, value);
        }
        value = (value * 10 + (*byte - b'0') as u64).min(MOST);
    }
    (text.len(), value)
}

// The millionths that a dot and one to six digits come to, or nothing.
fn read_part(text: &[u8]) -> Option<u64>
    ensures { MatchOption result ((c : ℕ) → IsPart text.now c → ⊥) (λ c. IsPart text.now c × (c < 1000000)) }
{
    if text.is_empty() {
        return Some(0);
    }
    if text[0] != b'.' {
        return None;
    }
    let part = text.split_at(1).1;
    if part.is_empty() || part.len() > 6 {
        return None;
    }
    let (length, value) = read_digits(part);
    if length < part.len() {
        return None;
    }
    Some(value * 10_u64.pow((6 - length) as u32))
}

// The millionths of a text without a sign, 10^19 at the least where they are no Decimal.
fn read_size(text: &[u8]) -> Option<u64>
    ensures { MatchOption result ((c : ℕ) → IsSize text.now c → ⊥) (λ n. (c : ℕ) × IsSize text.now c × (c < 10 ^ 19 → n ≡ c) × (10 ^ 19 ≤ c → 10 ^ 19 ≤ n)) }
{
    let (length, whole) = read_digits(text);
    if length == 0 {
        return None;
    }
    match read_part(text.split_at(length).1) {
        Some(part) => Some(whole * MILLION + part),
        None => None,
    }
}

// Whether a text begins with `-`.
fn begins_with_minus(text: &[u8]) -> bool
    ensures { MatchBool result ((0 < length text.now) × (slice_index text.now 0 ≡ 45)) (slice_index text.now 0 ≡ 45 → ⊥) }
{
    !text.is_empty() && text[0] == b'-'
}

// The Decimal of this sign and size.
fn with_sign(minus: bool, size: Option<u64>) -> Result<Dec, NumFault>
    ensures { MatchOption size (result ≡ Err NotADecimal) (λ n. Answers (signed minus n) result) }
{
    match size {
        Some(n) => within(if minus { -(n as i128) } else { n as i128 }),
        None => Err(NumFault::NotADecimal),
    }
}

/// The Decimal that a text spells: an optional `-`, digits, and optionally a dot with one to six digits.
/// NotADecimal exactly where the text has another form, and OutOfRange where the number is no Decimal.
pub fn read_dec(text: &[u8]) -> Result<Dec, NumFault>
    ensures reads { Reads text.now result }
    ensures only { (c : ℤ) → Spells text.now c → Answers c result }
{
    if begins_with_minus(text) {
        return with_sign(true, read_size(text.split_at(1).1));
    }
    with_sign(false, read_size(text))
}

// Writes a dot and the digits of so many millionths, where there are any; answers where they end.
fn print_part(rest: u64, into: &mut [u8], at: usize) -> usize
    requires below { rest < 1000000 }
    requires room { at + 7 ≤ length into.old }
    ensures length { length into.new ≡ length into.old }
    ensures written { take result into.new ≡ take at into.old ++ after_dot (part_digits 6 rest) }
    ensures after { drop result into.new ≡ drop result into.old }
    ensures from { at ≤ result }
    ensures within { result ≤ at + 7 }
{
    if rest == 0 {
        return at;
    }
    into[at] = b'.';
    let mut end = at + 1;
    let mut rest = rest;
    let mut k = 6;
    while rest != 0 {
        k -= 1;
        let unit = 10_u64.pow(k);
        into[end] = b'0' + (rest / unit) as u8;
        rest %= unit;
        end += 1;
    }
    end
}

// Writes a whole number; answers where it ends.
#[tactic(auto, using(crate::proofs::Printing::short_decimal))]
fn print_whole(n: u64, into: &mut [u8], at: usize) -> usize
    requires small { n < 10 ^ 13 }
    requires room { at + 13 ≤ length into.old }
    ensures length { length into.new ≡ length into.old }
    ensures written { take result into.new ≡ take at into.old ++ decimal n }
    ensures after { drop result into.new ≡ drop result into.old }
    ensures within { result ≤ at + 13 }
{
    let mut buffer = Buffer::new();
    let digits = buffer.format(n).as_bytes();
    let end = at + digits.len();
    into[at..end].copy_from_slice(digits);
    end
}

// Writes so many millionths; answers where they end.
#[tactic(auto, using(crate::proofs::Printing::drop_further))]
fn print_size(size: u64, into: &mut [u8], at: usize) -> usize
    requires small { size < 10 ^ 19 }
    requires room { at + 20 ≤ length into.old }
    ensures length { length into.new ≡ length into.old }
    ensures written { take result into.new ≡ take at into.old ++ size_text size }
    ensures after { drop result into.new ≡ drop result into.old }
    ensures within { result ≤ at + 20 }
{
    let dot = print_whole(size / MILLION, into, at);
    print_part(size % MILLION, into, dot)
}

// Writes so many millionths to the start of the bytes; answers where they end.
fn print_millionths(c: i128, into: &mut [u8; 24]) -> usize
    requires { IsDecimal c }
    ensures within { result ≤ 24 }
    ensures text { take result into.new ≡ dec_text c }
    ensures after { drop result into.new ≡ drop result into.old }
{
    let size = c.unsigned_abs() as u64;
    if c < 0 {
        into[0] = b'-';
        print_size(size, into, 1)
    } else {
        print_size(size, into, 0)
    }
}

/// Writes the shortest text that spells the Decimal to the start of the bytes, and answers its length. The
/// bytes behind it stay as they were.
pub fn print_dec(d: Dec, into: &mut [u8; 24]) -> usize
    ensures within { result ≤ 24 }
    ensures text { take result into.new ≡ dec_text d }
    ensures spells { Spells (dec_text d) d }
    ensures shortest { (text : List ℕ) → Spells text d → result ≤ length text }
    ensures after { drop result into.new ≡ drop result into.old }
{
    print_millionths(d.millionths(), into)
}
