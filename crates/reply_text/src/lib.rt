//! The text of a run: behind the name of each tenant a line for each of its closed requests (docs/formats.md, "Reports").
#![tactic(auto)]

mod lines;
mod reports;
mod words;

pub use lines::{put_counts, put_debug, put_escaped, put_fault, put_limit, put_reply, put_thrown};
pub use reports::report;
pub use words::{limit_word, word};
