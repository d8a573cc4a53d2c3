// What a move did.

use crate::run::Stopped;

/// What a move did with a query.
#[derive(Drop)]
pub enum Moved {
    /// The query went on.
    Went,
    /// It stopped.
    Stops(Stopped),
}
