//! Laws of the definitions that the methods of collections meet.
#![tactic(auto)]

mod laws;

pub use laws::laws_of_collections;
