//! Blocks that run by an image on the rows of a tenant, as definitions, and one that runs where there are no rows
//! (docs/platform.md, "Trails").
#![tactic(auto)]

mod alone;
mod laws;

pub use alone::run_alone;
pub use laws::laws_of_blocks;
