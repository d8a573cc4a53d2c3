//! The walk over expressions: each with its type and its typed tree, or the first fault.
#![tactic(auto)]

mod calls;
mod conditions;
mod leaf;
mod makings;
mod operators;
mod queries;
mod view;
mod walk;

pub use leaf::is_value;
pub use view::View;
pub use walk::{arguments, expression};
