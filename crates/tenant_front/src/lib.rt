//! What a tenant of a bundle is, from what is written for it: schema, program, seed and sessions, or its first fault.
#![tactic(auto)]

mod deploy;
mod fault;
mod laws;

pub use deploy::front;
pub use fault::FrontFault;
pub use laws::laws_of_fronts;
