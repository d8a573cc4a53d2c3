// Rows of tenants.

use apex_num::Id;

/// A row: the number of its tenant, and its Id.
#[derive(Clone, Copy, Debug, PartialEq, Eq, Hash, Drop)]
pub struct Place {
    pub tenant: usize,
    pub id: Id,
}
