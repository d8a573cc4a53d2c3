//! How many moves a statement that saves may still make, and that the rows which it writes are paid for: laws about the moves of
//! `save_statements`, whatever code makes them (docs/platform.md, "Saves").
#![tactic(auto)]

mod laws;

pub use laws::laws_of_measures;
