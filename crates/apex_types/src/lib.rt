//! The checker: from the trees of a tenant's units and blocks to a typed program, or the first fault.
#![tactic(auto)]

mod body;
mod checker;
mod class;
mod code;
mod constructor;
mod fault;
mod home;
mod interface;
mod member;
mod open;
mod units;
mod written;

pub use checker::check;
pub use fault::{CheckFault, TypeFault};
pub use typed_program::Program;
