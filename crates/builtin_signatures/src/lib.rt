//! What built-in methods take and what they answer.
#![tactic(auto)]

mod answer;
mod due;
mod laws;
mod statics;

pub use answer::{Answer, answer_of};
pub use due::{Due, Dues, dues_of};
pub use laws::laws_of_counts;
pub use statics::{is_static, wants_primitive_items};
