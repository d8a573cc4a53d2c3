//! The overlay of a transaction: what it changed and hasn't committed, over what the store answers (docs/platform.md,
//! "Overlays").
#![tactic(auto)]

mod journal;
mod merge;
mod overlay;

pub use journal::Journal;
pub use overlay::{Change, Overlay};
