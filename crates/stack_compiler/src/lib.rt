//! From typed expressions and statements to the instructions of a body, over the places that a program's fields have
//! (docs/language.md, "The machine of whole programs").
#![tactic(auto)]

mod chains;
mod choices;
mod clauses;
mod code;
mod constants;
mod emitted;
mod exprs;
mod layout;
mod makes;
mod queries;
mod stmts;
mod triggers;
mod turns;
mod values;

pub use chains::{chain_of, fits, implied_of, instance_fields, methods_of, width};
pub use code::block_code;
pub use emitted::{put, put_pops, sum};
pub use exprs::{emit_expr, emit_exprs};
pub use layout::Layout;
pub use stmts::emit_stmts;
