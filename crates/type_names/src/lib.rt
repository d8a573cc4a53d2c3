//! Types as they are written: which type a tree names, or the first fault of it.
#![tactic(auto)]

mod fault;
mod head;
mod names;

pub use fault::{TreeFault, WalkFault};
pub use head::{TypeHead, type_head};
pub use names::{PlacedType, TypeNames, named_type, type_of};
