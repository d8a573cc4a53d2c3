//! The trees of a tenant's units and blocks, from their texts.
#![tactic(auto)]

mod fault;
mod place;
mod trees;

pub use fault::UnitFault;
pub use place::fault_at;
pub use trees::{block_tree, unit_trees};
