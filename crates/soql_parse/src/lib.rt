//! The parser of queries.
#![tactic(auto)]

mod binds;
mod cond;
mod order;
mod path;
mod ranges;
mod rule;
mod select;
mod value;

pub use binds::Binds;
pub use rule::BindRule;
pub use select::{query, query_within};
