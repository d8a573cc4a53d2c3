//! How the records of a chunk are loaded, as it runs: new rows, or the rows that are there, which the user may change and which are
//! held (docs/platform.md, "Saves").
#![tactic(auto)]

mod access;
mod by_id;
mod loading;
mod new_cells;
mod new_rows;
mod next_rows;
mod old_rows;

pub use loading::load;
