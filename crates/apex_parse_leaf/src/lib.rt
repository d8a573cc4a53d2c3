//! What expressions and statements are made of: types and where they end, the look at a cast, and the literals and
//! operators of one token.
#![tactic(auto)]

mod casts;
mod ends;
mod level;
mod single;
mod types;

pub use casts::is_cast;
pub use ends::type_end;
pub use level::Level;
pub use single::{
    is_assign, is_fields, is_op, is_part, is_prefix, is_step, op, open_assign, open_prefix, simple,
    step,
};
pub use types::{deeper_type, member, type_tree};
