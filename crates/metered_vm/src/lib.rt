//! The machine of whole programs as it runs: a request from its start, or from an answer, to its next question or its end
//! (docs/language.md, "The machine of whole programs").
#![tactic(auto)]

mod calls;
mod classes;
mod fetch;
mod frames;
mod jumps;
mod leaving;
mod opens;
mod quick;
mod run;
mod step;

pub use run::{Pause, Vm, resume, start};
