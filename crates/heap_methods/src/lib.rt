//! The methods of lists, sets and maps: what each does, and what is charged before it.
#![tactic(auto)]

mod call;
mod guarded;
mod lists;
mod making;
mod maps;
mod operands;
mod order;
mod plan;
mod sets;
mod text;

pub use call::{call_method, carry_out, plan_call};
pub use making::{Collection, Copied, copied, map_of, set_of};
pub use operands::Place;
pub use plan::Plan;
pub use text::word_of;
