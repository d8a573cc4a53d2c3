//! The phases of inserts and updates that look references up: one asks for the rows that the records name, and the other for
//! those that triggers made them name since, before it looks at the whole records (docs/platform.md, "Saves").
#![tactic(auto)]

mod find;
mod ids;
mod judge;
mod phases;

pub use phases::{refer, validate_rows};
