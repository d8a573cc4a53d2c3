//! What code reads of records and lists of them, as it runs: cells, relations, lists of children, the only record of a list, and the
//! values of a query's binds (docs/language.md, "Records", "Queries in code").
#![tactic(auto)]

mod binds;
mod cells;
mod relations;
mod single;
mod words;

pub use binds::all_bound;
pub use cells::cell_in;
pub use relations::{children_in, parent_in};
pub use single::only;
