//! The allocation units of calls on collections.
#![tactic(auto)]

mod content;
mod growth;
mod units;

pub use content::thing_units;
pub use units::plan_units;
