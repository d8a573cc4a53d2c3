//! What goes with the records of a delete, and which of them may not go (docs/platform.md, "Saves"): the rows under them are given,
//! level by level, and the rows that name what goes.
//!
//! Rows of a level are looked up by the Ids that they name, so the time grows about with the rows.
#![tactic(auto)]

mod fields;
mod held;
mod level;
mod records;

pub use fields::{lookups, masters};
pub use records::settle;
