//! What an activation of code has, and how code is left early.
#![tactic(auto)]

mod abrupt;
mod here;

pub use abrupt::{Abrupt, Raised};
pub use here::Here;
