//! The pure parts of queries: the values of paths over the rows that were found, conditions over rows with their parents, the
//! order of rows, LIMIT and OFFSET, and rows under rows (docs/platform.md, "Queries").
#![tactic(auto)]

mod conds;
mod kept;
mod known;
mod limits;
mod named;
mod order;
mod reader;
mod under;

pub use conds::{holds, value_at};
pub use kept::{seen_by, sift};
pub use known::Known;
pub use limits::{count_of, cut};
pub use named::wanted;
pub use order::{Keyed, in_order};
pub use reader::{Reader, object_leads};
pub use under::{Families, cells_over, children_under};
