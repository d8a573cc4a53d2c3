// What an event makes of its session.

/// What an event makes of its session.
#[derive(Clone, Copy, Debug, PartialEq, Eq, Drop)]
pub enum Change {
    /// Its next request is open.
    Starts,
    /// Its request is granted rows.
    Grabs,
    /// Its request begins again.
    Restarts,
    /// Its request is closed, and it has written or not.
    Closes(bool),
}
