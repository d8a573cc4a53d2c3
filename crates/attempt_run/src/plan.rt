// What a run has of a tenant.

use apex_list::Items;
use apex_schema::Schema;
use stack_code::Image;
use tenant_parts::Session;

/// What a run has of a tenant that is deployed: its schema, the image of its program, and its sessions.
#[derive(Drop)]
pub struct Plan {
    pub schema: Schema,
    pub image: Image,
    pub sessions: Items<Session>,
}
