//! Validation rules: which formula a text is, and whether a formula holds of a record.
#![tactic(auto)]

mod fault;
mod grammar;
mod holds;
mod read;
mod scan;
mod token;
mod types;
mod value;
mod words;

pub use fault::RuleFault;
pub use holds::rule_holds;
pub use read::{field_places, read_rule, read_rule_by};
