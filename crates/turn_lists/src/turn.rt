// Turns.

/// Whose turn it is.
#[derive(Clone, Copy, Debug, PartialEq, Eq, Drop)]
pub struct Turn {
    /// The number of a tenant in its bundle, from 0.
    pub tenant: u32,
    /// The number of a session of the tenant, from 0.
    pub session: u32,
}
