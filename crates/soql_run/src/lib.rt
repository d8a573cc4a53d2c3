//! The moves of a query, as they run: from where it stands to its next question or its end (docs/platform.md, "Queries").
#![tactic(auto)]

mod back;
mod begin;
mod charges;
mod moved;
mod run;
mod stages;

pub use back::given;
pub use begin::first_run;
pub use run::{Stopped, advance};
