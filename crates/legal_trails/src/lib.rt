//! Which trails of events are legal for a tenant with many sessions, and the trails that turns make, as definitions with laws
//! (docs/platform.md, "Trails").
#![tactic(auto)]

mod laws;
mod turn_laws;

pub use laws::laws_of_one_session;
pub use turn_laws::laws_of_turns;
