//! What a query of a transaction means, as definitions that no program runs: what it asks its tenant's store, one question after
//! the other, what it charges and what it answers; and that this is what it means on the whole store (docs/platform.md,
//! "Queries").
#![tactic(auto)]

mod laws;

pub use laws::laws_of_queries;
