// What stands before a field.

use crate::sets::{Children, Words};

/// The words of the field's object before it, whether that has a master, and the children words of all fields before it.
#[derive(Drop)]
pub struct Seen {
    pub words: Words,
    pub mastered: bool,
    pub children: Children,
}
