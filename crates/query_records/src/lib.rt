//! The records that a query gives: which cells and relations they know, and how they are made of the rows that it found
//! (docs/language.md, "Records").
#![tactic(auto)]

mod bind;
mod cells;
mod laws;
mod queries;
mod records;
mod relations;
mod shape;
mod shaping;
mod ways;

pub use bind::BindKind;
pub use laws::laws_of_shapes;
pub use queries::queried;
pub use records::make_records;
pub use shape::{ChildShape, FoundShape, Given, Over, Queried, RowShape};
