//! The walk over statements: each with its typed tree, or the first fault; and whether statements end surely.
#![tactic(auto)]

mod construct;
mod endings;
mod flow;
mod made;
mod save;
mod simple;
mod view;
mod walk;

pub use endings::ends_surely;
pub use simple::{called_own, called_parent, initial};
pub use view::BodyView;
pub use walk::{body_statements, statements};
