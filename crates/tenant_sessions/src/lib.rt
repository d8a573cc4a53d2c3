//! The users of a tenant's sessions.
#![tactic(auto)]

mod laws;
mod users;

pub use laws::laws_of_sessions;
pub use users::{SessionFault, session_users};
