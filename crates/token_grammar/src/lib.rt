//! A notation for grammars over tokens, and the readings of single tokens.
//!
//! A grammar is data: the rules of `specs/Notation.antt`. What it is that tokens are read by a rule, and where a
//! reading stops, is said once for the notation, by cases; so are the laws that the tree and the stop are unique.
#![tactic(auto)]

mod boxes;
mod fault;
mod literal;
mod read;

pub use boxes::{add, boxed};
pub use fault::{ParseFault, ParseWord, Stop};
pub use literal::literal_bytes;
pub use read::{
    Names, fault_of, is_name, is_sign, is_word, kind_at, name, open_sign, open_word, pass_sign,
    pass_word, span_of, token_at,
};
