//! The moves of every statement that saves, as they run, one function a stage: how a statement, its chunks and their attempts
//! begin, how records enter a phase, fire triggers and are written, and how an attempt ends (docs/platform.md, "Saves"). The
//! stages that ask stand in a crate above.
#![tactic(auto)]

mod charges;
mod entering;
mod firings;
mod marks;
mod moved;
mod retries;
mod settling;
mod starts;
mod writing;
mod written;

pub use entering::enter;
pub use firings::fire;
pub use moved::Moved;
pub use settling::settle;
pub use starts::{begin, charge, count, next, without_object};
pub use writing::write;
