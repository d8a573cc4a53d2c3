//! Lists of turns: whose turn it is, one behind the other, as the words of the command line say it (docs/formats.md,
//! "Commands").
#![tactic(auto)]

mod fault;
mod laws;
mod list;
mod turn;

pub use fault::TurnsFault;
pub use laws::laws_of_lists;
pub use list::{lists_turns, read_turns};
pub use turn::Turn;
