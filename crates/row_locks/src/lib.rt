//! Which sessions hold rows alone: the rows of all tenants of a shard, each with the session that holds it
//! (docs/platform.md, "Locks").
#![tactic(auto)]

mod locks;
mod place;

pub use locks::Locks;
pub use place::Place;
