//! The commands of the program: what the words of its command line ask for, how a command reads its input, writes what it
//! makes of it, and ends; `exec` runs one block, and `turns` the sessions of a bundle.
#![tactic(auto)]

mod answer;
mod built;
mod command;
mod exec;
mod judge;
mod turns;
mod words;

pub use command::{Kept, top};
pub use exec::exec_text;
pub use turns::{Book, run_turns_text};
