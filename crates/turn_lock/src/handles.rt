// The lock, its passes, and a turn.

ghost use Rattle.std.specs.Prelude.{◌≡◌};

use crate::kept::Kept;
use crate::rule::{Start, Turns};
use crate::view::View;
use atomic_table::{Seat, Table};
use std::alloc::Global;

/// A lock round a value that stands for a list of entries.
#[derive(Drop)]
pub struct TurnLock<T: Kept> {
    pub(crate) table: Table<Option<T>, View<T, T::Entry>, Start<T>, Turns, Global>,
    ghost words: { table.shared.table_id.words ≡ 2 },
    ghost slots: { table.shared.table_id.slots ≡ 1 },
}

/// The right to take turns, with numbers of its own. It knows which entries it has seen.
#[derive(Drop)]
pub struct Pass<T: Kept> {
    pub(crate) seat: Seat<Option<T>, View<T, T::Entry>>,
}

/// A turn: nobody else has the value.
pub struct Held<T: Kept> {
    /// The value. What it gets while the turn lasts are entries of the pass's own numbers, behind the others.
    pub value: T,
    pub(crate) seat: Seat<Option<T>, View<T, T::Entry>>,
}
