//! The schema of a tenant, with the formulas of its validation rules.
#![tactic(auto)]

mod deploy;
mod formulas;

pub use deploy::deploy_schema;
