//! The validation of deletes, on the answers that it had so far: what goes with the records, and what may not go
//! (docs/platform.md, "Saves").
#![tactic(auto)]

mod asks;
mod delete;
mod heads;

pub use delete::{play_delete, validate_delete};
