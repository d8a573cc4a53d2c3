//! Calls of the methods that classes declare, calls of built-in ones, and what `new` makes of a type, with their
//! arguments.
#![tactic(auto)]

mod admitted;
mod answered;
mod arguments;
mod builtins;
mod copies;
mod declared_call;
mod made;
mod maker;
mod wanted;
mod widest;

pub use arguments::fitted_arguments;
pub use builtins::{builtin_call, debug_call, type_call};
pub use declared_call::{method_call, static_call};
pub use made::{instance_arguments, made_with, message};
pub use maker::{Maker, constructor_of, maker_of};
