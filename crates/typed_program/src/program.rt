// The code of a tenant.

use crate::{TypedClass, TypedStmt, TypedTrigger};
use apex_list::Items;
use type_names::TreeFault;

/// The code of a tenant with its types. Classes and interfaces, members of a kind in their class, and objects have their
/// numbers from 0.
#[derive(Drop)]
pub struct Program {
    /// Its classes and interfaces, in the order of their units.
    pub classes: Items<TypedClass>,
    /// Its triggers, in the order of their units.
    pub triggers: Items<TypedTrigger>,
    /// The statements of each block, or its first fault.
    pub blocks: Items<Result<Items<TypedStmt>, TreeFault>>,
}
