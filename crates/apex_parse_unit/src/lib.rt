//! The parser of units: classes, interfaces, triggers and anonymous blocks.
#![tactic(auto)]

mod classes;
mod interfaces;
mod kind;
mod laws;
mod members;
mod modifiers;
mod named;
mod params;
mod part;
mod triggers;
mod whole;

pub use apex_parse_stmt::anonymous_unit;
pub use kind::{UnitKind, unit_kind};
pub use laws::laws_of_members;
pub use whole::{class_unit, trigger_unit};
