//! What the platform throws and what it finds wrong with a record: classes, codes and messages.
#![tactic(auto)]

mod record;
mod thrown;

pub use record::RecordError;
pub use thrown::Thrown;

#[cfg(test)]
mod tests;
