//! Whether a condition holds of a row, as docs/platform.md says under "Conditions", and the part of it that a store can decide
//! from a row alone. A condition that is asked of many rows is prepared once, and then looks the values behind IN up by hash.
#![tactic(auto)]

mod cell_set;
mod cells;
mod conds;
mod like;
mod local;
mod prepared;
mod values;

pub use cell_set::CellSet;
pub use cells::{compare, compares, is_same};
pub use conds::{holds, prepare};
pub use like::{cell_like, text_like};
pub use local::{is_local, local_part};
pub use prepared::PreparedCond;
pub use values::value_at;
