// Faults of texts.

use fault_words::Fault;
use std::alloc::AllocError;
use thiserror::Error;

/// Why a text has no tree.
#[derive(Debug, Drop, Error)]
pub enum UnitFault {
    /// The first fault of the text, at the text's name, a blank, and the line and the column with a colon between. Both
    /// count from 1, columns by bytes.
    #[error("a text has a fault")]
    Wrong(Fault),
    /// Memory was refused.
    #[error("no memory")]
    NoMemory,
}

impl From<AllocError> for UnitFault {
    ghost use Rattle.std.specs.Prelude.{◌≡◌};
    ghost use Rattle.tenant_units.specs.declared.fault.UnitFault.TheVariants.{NoMemory};

    ghost from_gives = { λ _ e. e ≡ NoMemory };

    fn from(_: AllocError) -> UnitFault {
        UnitFault::NoMemory
    }
}
