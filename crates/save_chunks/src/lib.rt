//! The records of a save as lists (docs/platform.md, "Saves"): its chunks, records that stand twice, what came of the records of a
//! chunk, and what came of all so far.
//!
//! Each function takes time that grows about with its records.
#![tactic(auto)]

mod cuts;
mod doubles;
mod outcomes;
mod results;

pub use cuts::cut_up;
pub use doubles::{first_double_id, has_double};
pub use outcomes::{give_up, has_failed, or_failed, set_aside, tell};
pub use results::{known, none_yet, note};
