// How code is left early.

use platform_errors::Thrown;
use txn_heap::{Ref, Value};

/// What is thrown.
#[derive(Drop)]
pub enum Raised {
    /// By the platform.
    Platform(Thrown),
    /// An exception that code made: an instance or a built-in one.
    Made(Ref),
}

/// Why the statements that follow don't run.
#[derive(Drop)]
pub enum Abrupt {
    Throws(Raised),
    /// With a value; null where there is none.
    Returns(Value),
    Breaks,
    Continues,
}
