//! What a trigger sees as things of a transaction, and how it leaves its records (docs/platform.md, "Triggers").
#![tactic(auto)]

mod leaving;
mod making;
mod records;
mod units;
mod variables;

pub use leaving::{close_records, lefts};
pub use making::make_things;
pub use units::copy_units;
pub use variables::{own_count, place_of};
