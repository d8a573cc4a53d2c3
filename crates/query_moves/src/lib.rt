//! A query of a transaction, move by move, as definitions that no program runs (docs/platform.md, "Queries").
#![tactic(auto)]

mod run;

pub use run::{QueryRun, QueryStage};
