//! A session of a tenant turn by turn on a shard: one of its requests begins, or the attempt of the open one goes on to its next
//! pause, which is served (docs/platform.md, "Turns").
#![tactic(auto)]

mod attempt;
mod calls;
mod goes;
mod one_turn;
mod pause;
mod told;

pub use attempt::{Attempt, Paused, Standing};
pub use one_turn::turn;
