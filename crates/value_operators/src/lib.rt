//! What conversions and operators give at values. The evaluator's definitions and the machine's code share them.
#![tactic(auto)]

mod calculated;
mod compared;
mod convert;
mod decimals;
mod joining;
mod laws;
mod operate;
mod wholes;

pub use calculated::{Calculated, truth};
pub use convert::converted;
pub use joining::{joined, joined_size};
pub use laws::{laws_of_comparisons, laws_of_null, laws_of_numbers};
pub use operate::{applied, negated, stepped};
