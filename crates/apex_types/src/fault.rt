// Faults of units.

ghost use Rattle.std.specs.Prelude.{◌≡◌};

use std::alloc::AllocError;
use thiserror::Error;
use type_names::TreeFault;

/// A fault of a unit.
#[derive(Clone, Copy, Debug, PartialEq, Eq, Drop)]
pub struct TypeFault {
    /// The number of the unit, from 0.
    pub unit: usize,
    /// The fault, by its byte in the unit's text.
    pub fault: TreeFault,
}

/// Why units are no program.
#[derive(Clone, Copy, Debug, PartialEq, Eq, Drop, Error)]
pub enum CheckFault {
    /// The first fault.
    #[error("a unit has a fault")]
    Wrong(TypeFault),
    /// Memory was refused.
    #[error("no memory")]
    NoMemory,
}

impl From<AllocError> for CheckFault {
    ghost use Rattle.std.specs.Prelude.{◌≡◌};
    ghost use Rattle.apex_types.specs.declared.fault.CheckFault.TheVariants.{NoMemory};

    ghost from_gives = { λ _ e. e ≡ NoMemory };

    fn from(_: AllocError) -> CheckFault {
        CheckFault::NoMemory
    }
}
