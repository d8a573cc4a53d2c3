// What a field of a record leads to.

use apex_num::Text;

/// A field that leads to another object: its number, the number of its object, and its name.
#[derive(Drop)]
pub struct Reference {
    pub field: usize,
    pub to: usize,
    pub name: Text,
}
