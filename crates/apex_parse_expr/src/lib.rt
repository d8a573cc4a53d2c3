//! The parser of expressions, with the queries in brackets that stand in them.
//!
//! A function that reads a form takes calls that read an expression, an operand or a query inside of it; the functions
//! of `read` hand them in.
#![tactic(auto)]

mod args;
mod laws;
mod levels;
mod news;
mod part;
mod postfix;
mod read;
mod rule;
mod unary;
mod whole;

pub use laws::{laws_of_beginnings, laws_of_tokens};
pub use part::Part;
pub use read::{args_within, expr, expr_within};
