// Sessions.

use apex_list::Items;
use apex_requests::Request;

/// A session: requests that run one after the other.
#[derive(Drop)]
pub struct Session {
    pub requests: Items<Request>,
}
