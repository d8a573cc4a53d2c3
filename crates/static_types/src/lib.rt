//! The static types of Apex: what a type is, and which types every tenant has by name.
#![tactic(auto)]

mod kind;
mod named;

pub use kind::{PlatformType, Primitive, ValueType};
pub use named::{TypeName, platform_type, type_name};
