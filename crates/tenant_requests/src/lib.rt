//! The requests of a tenant's sessions, from what is written for them: first the trees of their blocks, and then, with
//! the faults that the checker found in these, the requests.
#![tactic(auto)]

mod closed;
mod open;

pub use closed::closed_sessions;
pub use open::{OpenRequest, OpenSession, OpenSessions, OpenWork, open_sessions};
