//! The saves that requests are, from what is written for them.
#![tactic(auto)]

mod records;
mod work;

pub use work::save_work;
