//! The types that operators take and give.
//! Expressions made of expressions: operators, conditions, casts and assignments, each with its type and its first fault.
#![tactic(auto)]

mod assign;
mod cast;
mod chain;
mod choice;
mod judgement;
mod laws;
mod place;
mod prefix;
mod sort;

pub use assign::{assigned, assigned_with};
pub use cast::cast_to;
pub use chain::{OpenChain, begun, closed, with_operand};
pub use choice::chosen;
pub use judgement::{Fit, Judged, judge};
pub use laws::laws_of_null;
pub use place::{Target, writable};
pub use prefix::{negated, opposite, stepped};
pub use sort::{Sort, number_of, sort_of, type_of_number, wider};
