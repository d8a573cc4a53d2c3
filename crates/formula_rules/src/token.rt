// The tokens of a formula.

use apex_num::{Dec, Text};
use apex_schema::RuleOp;
use apex_text::Name;

/// A token of a formula.
#[derive(Drop)]
pub enum Token {
    /// A name, or a word of formulas, without its case.
    Word(Name),
    Number(Dec),
    /// What stands between two quotes.
    Text(Text),
    Op(RuleOp),
    Open,
    Close,
    Comma,
}
