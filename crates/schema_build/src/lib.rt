//! From a planned schema to a schema, or to its first fault.
#![tactic(auto)]

mod before;
mod chains;
mod faults;
mod fields;
mod formulas;
mod heights;
mod lookup;
mod numbers;
mod objects;
mod planned;
mod roles;
mod schema;
mod sets;

pub use formulas::with_rules;
pub use schema::build;
