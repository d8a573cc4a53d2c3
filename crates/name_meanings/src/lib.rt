//! What names mean in code: locals, fields, classes and what the platform has, and what stands behind a dot.
#![tactic(auto)]

mod access;
mod field;
mod name;
mod part;
mod record;
mod setting;
mod space;
mod variable;

pub use access::member_of;
pub use field::{FieldUse, is_own};
pub use name::{name_in, super_in, this_in};
pub use part::with_part;
pub use record::{cell_type, field_in, may_set_cell, parent_object};
pub use setting::Setting;
