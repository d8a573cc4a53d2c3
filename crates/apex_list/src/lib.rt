//! A list, a box and a stack whose contracts speak of what they hold, and not of where it lies.
//!
//! std's `Vec` and `Box` show their pointer and capacity in contracts, so a copy of a tree that is made of
//! them never equals the tree. The types here do, and a tree of them is plain data.
#![tactic(auto)]

mod boxed;
mod items;
mod stack;

pub use boxed::Boxed;
pub use items::Items;
pub use stack::Stack;
