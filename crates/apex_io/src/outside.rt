// What the program asks of the outside.

ghost use Rattle.std.specs.Prelude.{◌≡◌, ℕ, ◌+◌, ◌≤◌, List, Option};

/// What a source answers.
#[derive(Clone, Copy, Debug, PartialEq, Eq, Drop)]
pub enum Pulled {
    /// So many bytes stand at the front of the room.
    Bytes(usize),
    /// No byte is left.
    End,
    /// Nothing was taken, and the count of faults rose.
    Failed,
}

/// Where bytes come from.
pub trait Source {
    ghost use Rattle.apex_io.specs.Outside.{Pulls};

    /// The bytes that are left, where the source tells them.
    ghost left: { Self → Option (List ℕ) };

    /// How often it failed. The count has 64 bits and stays at its last value.
    ghost faults: { Self → ℕ };

    /// How often it was asked, or less.
    ghost calls: { Self → ℕ };

    /// Takes the next bytes that are left, as many as it likes and the room has place for. `Bytes(0)` on room
    /// that isn't empty says the same as `End`.
    fn pull(&mut self, into: &mut [u8]) -> Pulled
        ensures answer { Pulls result into.new (left self.old) (left self.new) (faults self.old) (faults self.new) }
        ensures counted { faults self.old ≤ faults self.new }
        ensures asked { calls self.new ≤ calls self.old + 1 };
}

/// What a sink answers.
#[derive(Clone, Copy, Debug, PartialEq, Eq, Drop)]
pub enum Pushed {
    /// So many bytes of the piece were added, at least one where the piece isn't empty.
    Took(usize),
    /// Nothing was added, and the count of faults rose.
    Failed,
}

/// Where bytes go.
pub trait Sink {
    ghost use Rattle.apex_io.specs.Outside.{Pushes};

    /// The bytes that it holds, where the sink tells them.
    ghost held: { Self → Option (List ℕ) };

    /// How often it failed. The count has 64 bits and stays at its last value.
    ghost faults: { Self → ℕ };

    /// Adds the first bytes of a piece to what it holds.
    fn push(&mut self, piece: &[u8]) -> Pushed
        ensures answer { Pushes result piece.now (held self.old) (held self.new) (faults self.old) (faults self.new) }
        ensures counted { faults self.old ≤ faults self.new };
}

/// The turn that a gate is told of: `turn` is the number of the session's earlier turns.
#[derive(Clone, Copy, Debug, PartialEq, Eq, Drop)]
pub struct Who {
    /// The tenant's number in the bundle, from 0.
    pub tenant: usize,
    /// The session's number within the tenant, from 0.
    pub session: u32,
    /// The request that the turn serves, from 0.
    pub index: u32,
    /// The session's earlier turns, or 2^64 - 1 where there are more.
    pub turn: u64,
}

/// Who is told of each turn before it begins. A gate answers nothing, so it changes no reply.
pub trait Gate {
    fn before(&self, who: Who);
}

/// The gate that lets every turn begin.
#[derive(Clone, Copy, Debug, PartialEq, Eq, Drop)]
pub struct OpenGate;

impl Gate for OpenGate {
    fn before(&self, _who: Who) {}
}
