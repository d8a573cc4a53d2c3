// Ids and their check characters.

ghost use Rattle.std.specs.Prelude.{◌≡◌, ◌<◌, ◌≤◌, ℕ, List, length, MatchBool, MatchOption, All};
ghost use Rattle.apex_num.specs.Ids.{IsId, IsAlphanumeric, Names, capital, check, checks, id_value, long_id};

use std::marker::Model;

/// The Id of a record: 15 letters or digits. Contracts see the list of them. Ids are ordered by their bytes.
#[derive(Clone, Copy, Debug, PartialEq, Eq, PartialOrd, Ord, Hash, Drop)]
pub struct Id {
    bytes: [u8; 15],
}

impl Model for Id {
    ghost use Rattle.std.specs.Prelude.{ℕ, List};
    ghost use Rattle.apex_num.specs.Ids.{IsId};

    ghost Value = { List ℕ };

    ghost view = { λ id. id.bytes };

    ghost inverse = { λ bytes. record { bytes = bytes } };

    ghost invariant = { λ id. IsId id.bytes };
}

impl Id {
    /// The 15 characters.
    pub fn bytes(&self) -> [u8; 15]
        ensures value { result ≡ self.now }
        ensures form { IsId self.now }
    {
        self.bytes
    }
}

const CHECKS: [u8; 32] = *b"ABCDEFGHIJKLMNOPQRSTUVWXYZ012345";

// 1 at a capital letter, and else 0.
fn capital(byte: u8) -> usize
    ensures value { result ≡ capital byte }
    ensures bit { result ≤ 1 }
{
    if byte.is_ascii_uppercase() { 1 } else { 0 }
}

// The check character of five characters.
fn check_of(five: &[u8]) -> u8
    requires { length five.now ≡ 5 }
    ensures { result ≡ check five.now }
{
    let mut number = 0;
    for i in (0..five.len()).rev() {
        number = 2 * number + capital(five[i]);
    }
    CHECKS[number]
}

// Whether each byte is a letter or a digit.
fn is_alphanumeric(text: &[u8]) -> bool
    ensures { MatchBool result (All IsAlphanumeric text.now) (All IsAlphanumeric text.now → ⊥) }
{
    text.iter().all(|byte| byte.is_ascii_alphanumeric())
}

// The three check characters.
fn checks_of(id: &Id) -> [u8; 3]
    ensures { result ≡ checks id.now }
{
    let bytes = id.bytes();
    [
        check_of(&bytes[0..5]),
        check_of(&bytes[5..10]),
        check_of(&bytes[10..15]),
    ]
}

// Whether these are the check characters of an Id.
fn has_checks(id: &Id, rest: &[u8]) -> bool
    ensures { MatchBool result (rest.now ≡ checks id.now) (rest.now ≡ checks id.now → ⊥) }
{
    rest == checks_of(id).as_slice()
}

// The Id of these 15 bytes.
fn short_id(text: &[u8]) -> Option<Id>
    requires { length text.now ≡ 15 }
    ensures { MatchOption result (IsId text.now → ⊥) (λ id. (id ≡ text.now) × IsId text.now) }
{
    if !is_alphanumeric(text) {
        return None;
    }
    let mut bytes = [0; 15];
    bytes.copy_from_slice(text);
    Some(Id { bytes })
}

// The Id of these 18 bytes.
fn checked_id(text: &[u8]) -> Option<Id>
    requires { length text.now ≡ 18 }
    ensures { MatchOption result ((id : List ℕ) → IsId id → text.now ≡ long_id id → ⊥) (λ id. IsId id × (text.now ≡ long_id id)) }
{
    let (front, rest) = text.split_at(15);
    match short_id(front) {
        Some(id) => {
            if has_checks(&id, rest) {
                Some(id)
            } else {
                None
            }
        }
        None => None,
    }
}

/// The Id that a text names: 15 letters or digits, or 18 of which the last three are the right check characters.
/// `None` exactly where it is neither.
pub fn read_id(text: &[u8]) -> Option<Id>
    ensures named { MatchOption result ((id : List ℕ) → Names text.now id → ⊥) (λ id. Names text.now id) }
    ensures value { result ≡ id_value text.now }
{
    match text.len() {
        15 => short_id(text),
        18 => checked_id(text),
        _ => None,
    }
}

/// The Id with its three check characters, each of which belongs to five characters.
pub fn id_18(id: &Id) -> [u8; 18]
    ensures { result ≡ long_id id.now }
{
    let mut long = [0; 18];
    long[..15].copy_from_slice(&id.bytes());
    long[15..].copy_from_slice(&checks_of(id));
    long
}
