// The reading of a list of turns, byte by byte.

ghost use Rattle.std.specs.Prelude.{◌≡◌, ◌++◌, ◌∷◌, [], map, string_bytes, IfOk, MatchBool, MatchResult, OnOk};
ghost use Rattle.turn_lists.specs.Lists.{IsCommand, IsNone, Lists, ListsTurns};
ghost use Rattle.turn_lists.specs.Reading as spec;

use crate::fault::TurnsFault;
use crate::turn::Turn;
use apex_num::NoMemory;
use std::alloc::Global;

// Where the reading of a list stands.
#[derive(Clone, Copy, Debug, PartialEq, Eq, Drop)]
enum At {
    // Before a tenant's number.
    Tenant,
    // Behind a tenant's number, or a front of it.
    TenantNumber(u32),
    // Before the number of a session of this tenant.
    Session(u32),
    // Behind a session's number, or a front of it.
    SessionNumber(u32, u32),
    // Behind what begins no list.
    Nowhere,
}

// A number of one digit.
fn first_digit(b: u8) -> Option<u32>
    ensures { result ≡ spec.first_digit b }
{
    if b.is_ascii_digit() {
        Some((b - b'0') as u32)
    } else {
        None
    }
}

// A number with one digit more, where it isn't 0 and the other is at most 999,999,999.
fn more_digits(n: u32, b: u8) -> Option<u32>
    ensures { result ≡ spec.more_digits n b }
{
    if 0 < n && n < 100_000_000 && b.is_ascii_digit() {
        Some(n * 10 + (b - b'0') as u32)
    } else {
        None
    }
}

fn behind_tenant(n: u32, b: u8) -> At
    ensures { result ≡ spec.behind_tenant n b }
{
    match more_digits(n, b) {
        Some(m) => At::TenantNumber(m),
        None => {
            if b == b'.' {
                At::Session(n)
            } else {
                At::Nowhere
            }
        }
    }
}

fn behind_session(tenant: u32, n: u32, b: u8) -> At
    ensures { result ≡ spec.behind_session tenant n b }
{
    match more_digits(n, b) {
        Some(m) => At::SessionNumber(tenant, m),
        None => { if b == b',' { At::Tenant } else { At::Nowhere } }
    }
}

fn next(at: At, b: u8) -> At
    ensures { result ≡ spec.next at b }
{
    match at {
        At::Tenant => match first_digit(b) {
            Some(n) => At::TenantNumber(n),
            None => At::Nowhere,
        },
        At::TenantNumber(n) => behind_tenant(n, b),
        At::Session(tenant) => match first_digit(b) {
            Some(n) => At::SessionNumber(tenant, n),
            None => At::Nowhere,
        },
        At::SessionNumber(tenant, n) => behind_session(tenant, n, b),
        At::Nowhere => At::Nowhere,
    }
}

fn add(turns: &mut Vec<Turn>, turn: Turn) -> Result<(), NoMemory>
    ensures { OnOk result (turns.new.items ≡ turns.old.items ++ turn ∷ []) }
{
    turns.push(turn)?;
    Ok(())
}

// The turn that a byte ends, if any, is read.
fn end_turn(turns: &mut Vec<Turn>, at: At, b: u8) -> Result<(), NoMemory>
    ensures { OnOk result (turns.new.items ≡ turns.old.items ++ spec.ended at b) }
{
    if b == b',' {
        if let At::SessionNumber(tenant, session) = at {
            add(turns, Turn { tenant, session })?;
        }
    }
    Ok(())
}

// Reads a list that isn't `-`.
fn read_pairs(alloc: Global, list: &[u8]) -> Result<Vec<Turn>, TurnsFault>
    ensures { MatchResult result (λ turns. spec.IsRead list.now turns.items) (λ fault. spec.IsRefused list.now fault) }
{
    let mut turns = Vec::new(alloc);
    let mut at = At::Tenant;
    for b in list {
        end_turn(&mut turns, at, *b)?;
        at = next(at, *b);
    }
    match at {
        At::SessionNumber(tenant, session) => {
            add(&mut turns, Turn { tenant, session })?;
            Ok(turns)
        }
        _ => Err(TurnsFault::NotTurns),
    }
}

// Whether a word is a list that isn't `-`.
fn are_pairs(list: &[u8]) -> bool
    ensures { MatchBool result (spec.IsList list.now) (spec.AreNone list.now) }
{
    let mut at = At::Tenant;
    for b in list {
        at = next(at, *b);
    }
    match at {
        At::SessionNumber(..) => true,
        _ => false,
    }
}

fn is_list(list: &[u8]) -> bool
    ensures { MatchBool result (spec.IsList list.now) (spec.IsNoList list.now) }
{
    list == b"-".as_slice() || are_pairs(list)
}

/// Whether words are a command that runs turns: `turns` and a list, which is `-` or pairs `T.S` with commas between. It takes no
/// memory.
pub fn lists_turns(words: &[String]) -> bool
    ensures { MatchBool result (ListsTurns (map string_bytes words.now)) (ListsTurns (map string_bytes words.now) → ⊥) }
{
    match words {
        [word, list] => word.as_str() == "turns" && is_list(list.as_bytes()),
        _ => false,
    }
}

fn read_list(alloc: Global, list: &[u8]) -> Result<Vec<Turn>, TurnsFault>
    ensures { MatchResult result (λ turns. Lists list.now turns.items) (IsNone (Lists list.now)) }
{
    if list == b"-".as_slice() {
        return Ok(Vec::new(alloc));
    }
    read_pairs(alloc, list)
}

/// Reads the words of a command that runs turns: `turns` and a list, which is `-` or pairs `T.S` with commas between. It answers
/// `NotTurns` exactly where they are no such command, want of memory apart.
pub fn read_turns(alloc: Global, words: &[String]) -> Result<Vec<Turn>, TurnsFault>
    ensures { MatchResult result (λ turns. IsCommand (map string_bytes words.now) turns.items) (IsNone (IsCommand (map string_bytes words.now))) }
{
    match words {
        [word, list] => {
            if word.as_str() == "turns" {
                read_list(alloc, list.as_bytes())
            } else {
                Err(TurnsFault::NotTurns)
            }
        }
        _ => Err(TurnsFault::NotTurns),
    }
}
