//! Who may see and change a row (docs/platform.md, "Sharing").
#![tactic(auto)]

mod levels;
mod ranks;
mod roles;
mod viewer;

pub use viewer::Viewer;
