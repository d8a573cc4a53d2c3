// The rule as the table of atomic words takes it, and what each kind of step tells.

use crate::kept::Kept;
use crate::view::View;
use atomic_table::{Join, Play, Split, TableRule};
use std::snapshot::Snapshot;

/// What the rule is told once: the number of passes and the opening value.
#[derive(Drop)]
pub struct Start<T> {
    pub passes: u64,
    pub opened: Snapshot<T>,
}

pub struct Turns;

impl<T: Kept> TableRule<Option<T>, View<T, T::Entry>, Start<T>> for Turns {
    ghost use Rattle.turn_lock.specs.Turns.{Stands, first_view};

    ghost holds = { λ k. Stands T.entries T.has_same_basis T.number_of k.passes k.opened.value };

    ghost first = { λ k. first_view k.passes k.opened.value };
}

/// A load of the gate.
pub struct Look;

impl<T: Kept> Play<Option<T>, View<T, T::Entry>> for Look {
    ghost use Rattle.turn_lock.specs.Turns.{Looks};

    ghost then = { Looks T.entries T.has_same_basis T.number_of };
}

/// A load of the gate after a pass was taken in.
pub struct Compare;

impl<T: Kept> Play<Option<T>, View<T, T::Entry>> for Compare {
    ghost use Rattle.turn_lock.specs.Turns.{Compares};

    ghost then = { Compares T.entries T.has_same_basis T.number_of };
}

/// The comparison and exchange that takes the turn.
pub struct Claim;

impl<T: Kept> Play<Option<T>, View<T, T::Entry>> for Claim {
    ghost use Rattle.turn_lock.specs.Turns.{Claims};

    ghost then = { Claims T.entries T.has_same_basis T.number_of };
}

/// The swap that gives the turn back.
pub struct Release;

impl<T: Kept> Play<Option<T>, View<T, T::Entry>> for Release {
    ghost use Rattle.turn_lock.specs.Turns.{Releases};

    ghost then = { Releases T.entries T.has_same_basis T.number_of };
}

/// The comparison and exchange that gives a pass its number.
pub struct Number;

impl<T: Kept> Play<Option<T>, View<T, T::Entry>> for Number {
    ghost use Rattle.turn_lock.specs.Turns.{Numbers};

    ghost then = { Numbers T.entries T.has_same_basis T.number_of };
}

/// A pass is split off, or taken in.
pub struct Part;

impl<T, E> Split<View<T, E>> for Part {
    ghost use Rattle.turn_lock.specs.Turns.{split_off};

    ghost left = { λ v. v };

    ghost right = { split_off };
}

impl<T, E> Join<View<T, E>> for Part {
    ghost use Rattle.turn_lock.specs.Turns.{joined, spent};

    ghost both = { joined };

    ghost spent = { spent };
}
