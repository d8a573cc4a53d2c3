//! The values of fields: text, decimals, Ids, and the kinds of limits.
#![tactic(auto)]

mod cell;
mod copies;
mod dec;
mod dec_text;
mod id;
mod kind;
mod text;

pub use cell::Cell;
pub use copies::{Copied, copy_list, copy_values};
pub use dec::{Dec, NumFault, dec_add, dec_div, dec_mul, dec_sub};
pub use dec_text::{print_dec, read_dec};
pub use id::{Id, id_18, read_id};
pub use kind::LimitKind;
pub use text::{NoMemory, Text};
