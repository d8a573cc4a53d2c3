//! The text of any value, which is charged before it is made. It is made by a walk with a stack of its own, which ends where
//! there are no units left.
#![tactic(auto)]

mod charge;
mod laws;
mod line;
mod record;
mod walk;

pub use charge::charged_text;
pub use laws::laws_of_depth;
