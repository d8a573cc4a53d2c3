//! Expressions whose types are known, and how a value becomes one of the type that its place needs.
#![tactic(auto)]

mod fit;
mod typed;

pub use fit::{between, condition, conversion, converted, fitted, lists_records, stored};
pub use typed::{Kind, Role, Space, Typed};
