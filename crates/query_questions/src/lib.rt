//! What queries ask a store, and what they charge: conditions with the values of their binds in their places, the parents that
//! paths follow, what is shared of rows, and the numbers of the rows that were found (docs/platform.md, "Queries").
#![tactic(auto)]

mod charges;
mod conds;
mod numbers;
mod parents;
mod shares;
mod ways;

pub use charges::{rows_of, units_of};
pub use conds::{asked, reading};
pub use numbers::all_numbers;
pub use parents::{object_over, parents_of};
pub use shares::{rising, shares_on};
