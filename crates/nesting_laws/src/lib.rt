//! Laws that tie the grammar to the depth of trees: what is read where so many forms may be opened is no deeper.
#![tactic(auto)]

mod laws;

pub use laws::{laws_of_trees, laws_of_units};
