//! What a roll-up comes to over the rows under its row (docs/platform.md, "Roll-ups").
#![tactic(auto)]

mod extremes;
mod numbers;
mod rolls;
mod sums;

pub use rolls::{OutOfRange, roll};
