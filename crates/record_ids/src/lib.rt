//! Ids from their parts, and the parts of Ids.
#![tactic(auto)]

mod digits;
mod ids;

pub use ids::{is_minted_by, is_seed_id, minted_id, user_id, user_number};

#[cfg(test)]
mod tests;
