//! What saves and queries find out by questions to their tenant's store, as definitions that no program runs: inquiries, each
//! of which finds something or asks a question and goes on with its answer (docs/platform.md, "Questions").
#![tactic(auto)]

mod laws;

pub use laws::laws_of_inquiries;
