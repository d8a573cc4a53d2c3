// Why a schema cannot be built.

use fault_words::Fault;
use thiserror::Error;

/// Why a schema can't be built.
#[derive(Debug, Drop, Error)]
pub enum SchemaFault {
    /// The first fault. Its place is `schema` and a name: that of a role, a user or an object, or that of an object, a
    /// dot, and the name of its field or rule.
    #[error("the schema has a fault")]
    Wrong(Fault),
    /// Memory was refused.
    #[error("no memory")]
    NoMemory,
}
