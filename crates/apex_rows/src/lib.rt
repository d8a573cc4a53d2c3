//! The types of rows and of queries over them, questions and answers.
#![tactic(auto)]

mod query;
mod row;

pub use query::{
    Answer, Bind, Cond, CondOp, Path, Query, Question, SortKey, SubQuery, Term, Terms,
};
pub use row::{Child, Found, Row, Writes};
