//! The tenants of a bundle as they run, turn by turn on one shard: their programs compiled, their seeds stored, the requests of
//! their sessions made.
#![tactic(auto)]

mod laws;
mod planned;
mod runs;

pub use laws::laws_of_parts;
pub use runs::{Ran, run_tenants};
