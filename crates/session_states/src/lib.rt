//! The sessions of a tenant: how many requests each has closed, and the one that it has open (docs/platform.md, "Shards").
#![tactic(auto)]

mod sessions;
mod state;

pub use sessions::Sessions;
pub use state::{OpenRequest, SessionState};
