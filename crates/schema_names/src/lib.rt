//! Names of a schema, and the places of names in a list.
#![tactic(auto)]

mod names;
mod places;

pub use names::{is_bad_name, is_digit, is_letter, name_of};
pub use places::{Places, note};
