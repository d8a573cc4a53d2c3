//! Master rows with what their roll-ups come to over detail rows (docs/platform.md, "Roll-ups").
//!
//! Detail rows are looked up by the rows that they name, so the time grows about with the rows.
#![tactic(auto)]

mod fields;
mod groups;
mod laws;
mod rolled;

pub use groups::Details;
pub use laws::laws_of_rolled_rows;
pub use rolled::{Rolled, roll_up, rolled_row};
