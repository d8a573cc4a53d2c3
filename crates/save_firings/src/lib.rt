//! What triggers have to do with a save: which there are, the records that enter their phase, what they see, and how they leave
//! the records (docs/platform.md, "Saves"). The firing itself is handed in.
#![tactic(auto)]

mod entering;
mod leaving;
mod listed;
mod seeing;
mod table;
mod throwing;

pub use entering::{back, enter};
pub use leaving::fired;
pub use listed::Firings;
pub use seeing::context;
pub use table::{Listing, TriggerTable};
