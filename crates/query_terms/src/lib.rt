//! The parts of queries: objects, paths, values and binds, each with its type and its fault.
#![tactic(auto)]

mod bind;
mod cell;
mod open;
mod path;
mod source;

pub use cell::{day_cell, given, moment_cell, number_cell, text_cell, truth_cell};
pub use open::{
    OpenQuery, bound, bound_list, closed_query, counting, opened, with_child, with_cond,
    with_limit, with_offset, with_order, with_path,
};
pub use path::{FieldPath, compared_path, cond_op, field_path};
pub use source::{ChildSource, children_named, object_named, query_value};
