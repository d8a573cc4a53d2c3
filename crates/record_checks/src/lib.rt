//! What is looked at in one record of a save: which of its cells are new, and the first thing that is wrong with it
//! (docs/platform.md, "Saves").
#![tactic(auto)]

mod changes;
mod fields;
mod named;
mod references;
mod validity;

pub use changes::{is_looked_up, is_new};
pub use named::Named;
pub use references::bad_reference;
pub use validity::invalid;
