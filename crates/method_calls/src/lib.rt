//! Which method a call means: one of a class, or a built-in one.
#![tactic(auto)]

mod builtin;
mod callee;
mod found;
mod named;

pub use builtin::laws_of_numbers;
pub use callee::{Callee, called_alone, called_on};
pub use named::MethodNames;
