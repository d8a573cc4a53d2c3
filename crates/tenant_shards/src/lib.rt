//! Shards: tenants with their sessions, their rows and the rows that are held, and the one list of what happened to them
//! (docs/platform.md, "Shards"). No thread is in it.
#![tactic(auto)]

mod change;
mod finish;
mod kept;
mod log;
mod opens;
mod same;
mod shard;
mod stale;

pub use finish::Finished;
pub use kept::{Entry, Kept};
pub use log::Log;
pub use same::same_answer;
pub use shard::{Ended, Grabbed, Shard};
pub use tenant_parts::{Session, TenantPart};
