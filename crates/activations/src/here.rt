// Activations.

use apex_list::Items;
use apex_schema::Mode;
use txn_heap::Value;

/// An activation of code: a block, or the body of a method, a constructor, an initial value or a trigger while it runs.
#[derive(Drop)]
pub struct Here {
    /// The variables by their slots, from 0; a slot past the last one is null.
    pub locals: Items<Value>,
    /// The instance that the code runs on, or null.
    pub this: Value,
    /// Whether its queries and saves look at the access of the user.
    pub mode: Mode,
    /// The number of the firing of a trigger that it runs in; 0 outside of one.
    pub firing: usize,
}
