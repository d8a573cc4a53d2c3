// Faults of a seed.

use fault_words::Fault;
use std::alloc::AllocError;
use thiserror::Error;

/// Why a seed has no rows.
#[derive(Debug, Drop, Error)]
pub enum SeedFault {
    /// The first fault, at `seed`, the name of the object and the number of the row among those of its object, from 0.
    #[error("the seed has a fault")]
    Wrong(Fault),
    /// Memory was refused.
    #[error("no memory")]
    NoMemory,
}

impl From<AllocError> for SeedFault {
    ghost use Rattle.std.specs.Prelude.{◌≡◌};
    ghost use Rattle.seed_rows.specs.declared.fault.SeedFault.TheVariants.{NoMemory};

    ghost from_gives = { λ _ e. e ≡ NoMemory };

    fn from(_: AllocError) -> SeedFault {
        SeedFault::NoMemory
    }
}
