//! Laws of what whole programs mean: a block's rounds suffice, and its charges keep within their limits (docs/language.md, "What
//! code does"; docs/platform.md, "Limits").
#![tactic(auto)]

mod laws;

pub use laws::{laws_of_limits, laws_of_rounds};
