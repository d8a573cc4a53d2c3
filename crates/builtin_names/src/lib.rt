//! The built-in methods of Apex by their types, names and numbers of arguments.
#![tactic(auto)]

mod rows;
mod table;

pub use table::signature;
