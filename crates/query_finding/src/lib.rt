//! What a query finds, on the answers that it had so far: its rows, with their parents, sharing and the rows under them, and the
//! question that it wants answered next; and the rows that it holds (docs/platform.md, "Queries").
#![tactic(auto)]

mod cuts;
mod gathered;
mod holds;
mod keeps;
mod parents;
mod sharing;
mod under;

pub use cuts::finding;
pub use holds::hold;
