//! The states of requests, the values in them, the records that they make and save, and what a refused one comes to
//! (docs/language.md, "What code does").
#![tactic(auto)]

mod refusals;

pub use refusals::{no_writes, not_yet, refusal};
