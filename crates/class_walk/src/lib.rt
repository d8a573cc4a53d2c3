//! What classes and triggers say in front of bodies, or its first fault: what members declare, which of them are named
//! twice, whether a method overrides as it may, whether a class lacks a method, the headers of triggers.
#![tactic(auto)]

mod declared;
mod header;
mod heading;
mod inherited;
mod label;
mod method;
mod missing;
mod overrides;
mod promised;
mod signature;
mod twice;

pub use declared::{constructor_declared, field_declared, signature_declared};
pub use header::trigger_header;
pub use heading::{class_header, unit_name};
pub use missing::missing_fault;
pub use overrides::overrides_well;
pub use twice::{duplicates, signature_duplicates};
