//! The classes and interfaces of a tenant: what stands in front of their members, when a type fits another, their
//! members, and where a member is found.
#![tactic(auto)]

mod classes;
mod head;
mod key;
mod line;
mod member;
mod member_modifiers;
mod modifiers;
mod names;
mod table;
mod tables;

pub use classes::Classes;
pub use head::{ClassHead, Parent};
pub use key::MethodKey;
pub use line::ClassHeads;
pub use member::{ClassMembers, ConstructorHead, FieldHead, MethodHead, ResultHead};
pub use table::MemberTable;
pub use tables::{Member, MemberTables};
