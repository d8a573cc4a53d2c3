// Children words.

use apex_text::Name;

/// A children word, and the number of the object whose word it is.
#[derive(PartialEq, Eq, Hash, Drop)]
pub struct ChildWord {
    pub to: usize,
    pub word: Name,
}
