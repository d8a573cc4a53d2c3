//! The moves of every statement that saves, as they run: from where it stands to its next question, its next firing of a trigger or
//! its end (docs/platform.md, "Saves").
#![tactic(auto)]

mod asks;
mod back;
mod begin;
mod run;

pub use back::{came_back, given};
pub use begin::first_run;
pub use run::{Stopped, advance};
