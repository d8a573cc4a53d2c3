// What a lock can keep.

ghost use Rattle.std.specs.Prelude.{◌≡◌, ◌^◌, ◌<◌, ℕ, List, length};

/// A value that stands for a list of entries. Each entry has a number, which is that of the pass whose turn added
/// it. What no turn changes is the value's basis.
pub trait Kept {
    /// An entry of the list.
    type Entry;

    ghost entries: { Self → List Self.Entry };

    ghost has_same_basis: { Self → Self → Type 0 };

    ghost number_of: { Self.Entry → ℕ };

    /// The number of entries.
    fn count(&self) -> u64
        ensures count { result ≡ length (entries self.now) }
        ensures short { result < 2 ^ 62 };

    ghost same: { (x : Self) → has_same_basis x x };
}
