//! Methods of Integer, Long and Decimal: their values from texts, and Decimals made whole or rounded.
#![tactic(auto)]

mod decimals;
mod laws;
mod longs;
mod texts;

pub use decimals::{nearest, set_scale, to_integer, whole};
pub use laws::{laws_of_numbers, laws_of_texts};
pub use longs::{modulo, wrapped};
pub use texts::{read_decimal, read_integer, read_long, read_long_text};

#[cfg(test)]
mod tests;
