//! What instructions do with values, variables and things, as they run: each step is the one of `stack_code` (docs/language.md,
//! "The machine of whole programs").
#![tactic(auto)]

mod act;
mod builtins;
mod cells;
mod charges;
mod collections;
mod ends;
mod firings;
mod kinds;
mod moved;
mod operands;
mod queries;
mod raised;
mod records;
mod saves;
mod stores;
mod things;
mod values;
mod variables;

pub use act::act_value;
pub use charges::charge;
pub use ends::{ended, failing, limited, refused, reply_of};
pub use firings::hand_back;
pub use kinds::{
    ThingKind, is_built_in, is_declared, kind_named, kind_of, message_named, name_of_kind,
};
pub use moved::{Moved, SaveStop};
pub use operands::{leave, next, next_with, raise, set_mode, take, take_values};
pub use queries::query;
pub use raised::{kind_raised, message_told};
pub use records::{name_records, records_of, rows_in};
pub use saves::save;
pub use variables::put_at;
