//! Cells from the values that are written for them.
#![tactic(auto)]

mod cells;
mod rows;

pub use cells::cell_of;
pub use rows::{RowFault, row_of};
