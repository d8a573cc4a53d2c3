//! What a request used up: eight counters, each with its limit.
//!
//! The limits of queries, rows, DML statements, DML rows and trigger depth are those of the chapter Execution
//! Governors and Limits of the Apex Developer Guide; the others are this project's own (docs/platform.md).
#![tactic(auto)]

ghost use Rattle.std.specs.Prelude.{◌≡◌, ◌+◌, ◌-◌, ◌<◌, ◌≤◌, ◌∷◌, ◌⊎◌, [], List, MatchResult, OnOk, OnErr, IfErr};
ghost use Rattle.apex_num.specs.declared.kind.LimitKind.TheVariants.{Depth, Calls};
ghost use Rattle.limit_meter.specs.Charges.{limit_of, place_of, count_of, with_count, no_counts, counter, Entry, Charged, Left, Counts};

use apex_num::LimitKind;
use std::marker::Model;

/// A limit that a charge would have passed: its kind, and the limit plus one.
#[derive(Clone, Copy, Debug, PartialEq, Eq, Drop)]
pub struct Limit {
    pub kind: LimitKind,
    pub number: u32,
}

/// The counters of one request. A meter takes no memory.
#[derive(Debug, Drop)]
pub struct Meter {
    counts: [u32; 8],
}

impl Model for Meter {
    ghost use Rattle.std.specs.Prelude.{◌≡◌, ◌≤◌, ℕ, List, length};
    ghost use Rattle.apex_num.specs.declared.kind.LimitKind.{LimitKind};
    ghost use Rattle.limit_meter.specs.Charges.{limit_of, count_of};

    ghost Value = { List ℕ };

    ghost view = { λ m. m.counts };

    ghost invariant = { λ m. (length m.counts ≡ 8) × ((k : LimitKind) → count_of m.counts k ≤ limit_of k) };
}

/// The most that one request may have of a kind.
pub fn most_of(kind: LimitKind) -> u32
    ensures { result ≡ limit_of kind }
{
    match kind {
        LimitKind::Queries => 100,
        LimitKind::Rows => 50_000,
        LimitKind::Dml => 150,
        LimitKind::Saved => 10_000,
        LimitKind::Depth => 16,
        LimitKind::Steps => 1_000_000,
        LimitKind::Alloc => 64_000_000,
        LimitKind::Calls => 1_000,
    }
}

// Where the counter of a kind stands.
fn place(kind: LimitKind) -> usize
    ensures place { result ≡ place_of kind }
    ensures within { result < 8 }
{
    kind as usize
}

impl Meter {
    /// The meter of a request that begins: every counter is 0.
    pub fn new() -> Meter
        ensures zero { result ≡ no_counts }
        ensures listed { Counts [] result }
    {
        Meter { counts: [0; 8] }
    }

    /// Charges n of a kind. Where the counter would pass its limit, the error names it and nothing changes.
    pub fn charge(&mut self, kind: LimitKind, n: u64) -> Result<(), Limit>
        ensures answer { MatchResult result
            (λ _. (count_of self.old kind + n ≤ limit_of kind) × (self.new ≡ with_count self.old kind (count_of self.old kind + n)))
            (λ limit. (limit_of kind < count_of self.old kind + n) × (limit.kind ≡ kind) × (limit.number ≡ limit_of kind + 1)) }
        ensures err { OnErr result (self.new ≡ self.old) }
        ensures listed { OnOk result ((es : List Entry) → Counts es self.old → Counts (Charged kind n ∷ es) self.new) }
    {
        let most = most_of(kind);
        let count = self.counts[place(kind)];
        if n > (most - count) as u64 {
            return Err(Limit {
                kind,
                number: most + 1,
            });
        }
        self.counts[place(kind)] = count + n as u32;
        Ok(())
    }

    /// Ends a firing or a call.
    pub fn leave(&mut self, kind: LimitKind)
        requires falls { (kind ≡ Depth) ⊎ (kind ≡ Calls) }
        requires above { 0 < count_of self.old kind }
        ensures count { self.new ≡ with_count self.old kind (count_of self.old kind - 1) }
        ensures listed { (es : List Entry) → Counts es self.old → Counts (Left kind ∷ es) self.new }
    {
        self.counts[place(kind)] -= 1;
    }

    /// The counter of a kind.
    pub fn count(&self, kind: LimitKind) -> u32
        ensures count { result ≡ count_of self.now kind }
        ensures listed { (es : List Entry) → Counts es self.now → result ≡ counter kind es }
    {
        self.counts[place(kind)]
    }
}
