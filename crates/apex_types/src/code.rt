// Code as far as it is walked through.

use apex_list::Items;
use typed_program::{TypedClass, TypedTrigger};

/// The code of units.
#[derive(Drop)]
pub struct Code {
    /// Their classes and interfaces, in their order.
    pub classes: Items<TypedClass>,
    /// Their triggers, in their order.
    pub triggers: Items<TypedTrigger>,
}
