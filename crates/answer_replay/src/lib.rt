//! What phases of saves that ask come to on the answers that they had so far: the answers that are left, what an inquiry comes to
//! on these, and the questions of saves (docs/platform.md, "Questions").
#![tactic(auto)]

mod answers;
mod id_set;
mod questions;

pub use answers::{Answers, Comes, replayed};
pub use id_set::IdSet;
pub use questions::{answered, grab, naming, read_within, rows_by, rows_for, within};
