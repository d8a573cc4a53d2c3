//! Elements of lists, new collections with their items, and new records with values of their fields.
#![tactic(auto)]

mod field;
mod filled;
mod index;
mod open;

pub use field::{RecordField, field_named, record_of, record_with, with_value};
pub use filled::{bare_item, filled_with, filling_of, mapped_with, pair_item};
pub use index::indexed;
pub use open::OpenRecord;
