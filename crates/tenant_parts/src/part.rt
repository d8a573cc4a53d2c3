// The part of a tenant.

use crate::session::Session;
use apex_list::Items;
use apex_rows::Row;
use apex_schema::Schema;
use typed_program::Program;

/// What a run has of a tenant.
#[derive(Drop)]
pub struct TenantPart {
    pub schema: Schema,
    pub program: Program,
    /// The rows that are there before the first request.
    pub seed: Items<Row>,
    pub sessions: Items<Session>,
}
