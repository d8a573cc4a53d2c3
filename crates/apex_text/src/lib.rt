//! Places in source text, and names whose letter case doesn't count.
//!
//! Identifiers ignore case, as the Apex Developer Guide says; that only ASCII letters fold is this project's own
//! rule (docs/formats.md).
#![tactic(auto)]

mod name;
mod place;

pub use name::{Name, fold_eq};
pub use place::{Span, line_of};
