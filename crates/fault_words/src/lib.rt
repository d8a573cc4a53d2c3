//! What may be wrong with a text, a bundle, a schema, a seed or a request: its word and its place.
#![tactic(auto)]

mod fault;

pub use fault::{Fault, FaultWord};
