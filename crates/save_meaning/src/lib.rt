//! What saves and queries of a transaction share, as definitions: how they come out, what they see of a request and charge and ask
//! there, the cells of records, and counts (docs/platform.md, "Saves").
#![tactic(auto)]

mod draft;
mod laws;
mod run;

pub use draft::Reference;
pub use laws::laws_of_counts;
pub use run::TxnState;
