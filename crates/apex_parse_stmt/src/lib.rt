//! The parser of statements and anonymous blocks.
//!
//! A function that reads a statement with statements in it takes a call that reads one in a form that is opened; the
//! functions of `read` hand it in.
#![tactic(auto)]

mod declare;
mod laws;
mod leaf;
mod look;
mod loops;
mod nest;
mod part;
mod read;
mod tries;

pub use declare::{boxed_type, initial};
pub use laws::laws_of_beginnings;
pub use look::is_named;
pub use part::{ForHead, Ways};
pub use read::{anonymous_unit, body_within, pass_end, stmt_within};
