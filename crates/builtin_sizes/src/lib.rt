//! The sizes of the texts that built-in methods answer, before the texts are made.
#![tactic(auto)]

mod size;

pub use size::text_size;
