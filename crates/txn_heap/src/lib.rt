//! What the variables and the things of a transaction are.
#![tactic(auto)]

mod change;
mod entries;
mod guard;
mod heap;
mod keys;
mod statics;
mod thing;

pub use change::Change;
pub use entries::Entries;
pub use heap::Heap;
pub use keys::{Keys, copy_cells};
pub use statics::Statics;
pub use thing::{Exception, Guard, Instance, Record, Ref, Relation, Selected, Thing, Under, Value};
