//! The rows of a tenant's seed, from what is written for them.
#![tactic(auto)]

mod cells;
mod fault;
mod keys;
mod laws;
mod made;
mod places;
mod rolled;
mod row;
mod seed;
mod written;

pub use fault::SeedFault;
pub use laws::laws_of_seeds;
pub use seed::seed_rows;
