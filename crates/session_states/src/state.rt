// What is known of a session.

/// A request that is open.
#[derive(Clone, Copy, Debug, PartialEq, Eq, Drop)]
pub struct OpenRequest {
    /// Its number in its session, from 0.
    pub request: u32,
    /// How often it was granted rows since it began or began again.
    pub grabs: u64,
    /// How often it began again.
    pub restarts: u64,
    /// How many requests of the tenant had written when it began or began again.
    pub since: u64,
}

/// A session.
#[derive(Clone, Copy, Debug, PartialEq, Eq, Drop)]
pub struct SessionState {
    /// How many requests are closed.
    pub closed: u32,
    /// The one that is open.
    pub running: Option<OpenRequest>,
}
