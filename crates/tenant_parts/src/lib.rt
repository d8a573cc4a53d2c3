//! What a run has of a tenant: its schema, its typed program, the rows of its seed and its sessions.
#![tactic(auto)]

mod part;
mod session;

pub use part::TenantPart;
pub use session::Session;
pub use typed_program::Program;
