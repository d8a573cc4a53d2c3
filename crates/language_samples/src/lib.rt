//! Blocks and classes by hand, and what they come to (docs/language.md).
#![tactic(auto)]
