//! A lock whose value stands for a list of entries that only grows, with passes that know which entries they have
//! seen.
//!
//! A thread that takes the turn finds what it has seen at the beginning of the list, and none of its own entries
//! behind that: nobody else can have changed or added what is its own. A plain lock can't say so, since its value is
//! known by its type alone. The rule that all passes keep stands in docs/architecture.md.
//!
//! Not promised: that a turn ever comes, in which order turns come, or how long a call waits.
#![tactic(auto)]

mod handles;
mod kept;
mod lock;
mod rule;
#[cfg(test)]
mod tests;
mod view;

pub use handles::{Held, Pass, TurnLock};
pub use kept::Kept;
