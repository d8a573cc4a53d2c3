// What both locks keep.

ghost use Rattle.std.specs.Prelude.{◌≡◌, ◌⊎◌, ◌^◌, ◌≤◌, [], ◌∷◌, ◌++◌, length};

use std::alloc::Global;
use turn_lock::Kept;

/// An entry: the worker and its turn.
#[derive(Clone, Copy, Debug, Drop)]
pub struct Mark {
    pub worker: u64,
    pub turn: u64,
}

/// A list of entries, at most 2^40.
#[derive(Debug, Drop)]
pub struct Log {
    pub entries: Vec<Mark>,
    ghost short: { length entries.items ≤ 2 ^ 40 },
}

const MOST: usize = 1 << 40;

impl Log {
    pub fn new(alloc: Global) -> Log
        ensures { result.entries.items ≡ [] }
    {
        Log {
            entries: Vec::new(alloc),
        }
    }

    /// Adds an entry, where there is memory.
    pub fn add(&mut self, mark: Mark)
        ensures { (self.new.entries.items ≡ self.old.entries.items) ⊎ (self.new.entries.items ≡ self.old.entries.items ++ mark ∷ []) }
    {
        if self.entries.len() < MOST {
            let _ = self.entries.push(mark);
        }
    }
}

impl Kept for Log {
    type Entry = Mark;

    ghost entries = { λ l. l.entries.items };

    ghost has_same_basis = { λ a b. Unit {0} };

    ghost number_of = { λ e. e.worker };

    fn count(&self) -> u64 {
        self.entries.len() as u64
    }

    ghost same = { λ _. tt };
}
