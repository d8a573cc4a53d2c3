//! What every statement that saves means: inserts, updates, deletes with their cascade and upserts, all or none or in part, as
//! definitions that take the firing of a trigger and the roll-ups as given, and the moves by which a machine makes it
//! (docs/platform.md, "Saves").
#![tactic(auto)]

mod firing;
mod laws;
mod pending;
mod run;
mod statement;

pub use firing::{Entry, Fired, Left, Trigger};
pub use laws::{laws_of_moves, laws_of_saves};
pub use pending::{Act, Manner, Naming, Pending, Record};
pub use run::{Phase, Replayed, SaveRun, Stage};
pub use statement::{Chunk, Placed, RecordOutcome, Told};
