//! Attempts turn by turn: the sessions of the tenants of a shard make their turns, as a list of turns and then the order of the
//! bundle says (docs/platform.md, "Turns").
#![tactic(auto)]

mod picks;
mod plan;
mod turns;

pub use plan::Plan;
pub use turns::run_turns;
