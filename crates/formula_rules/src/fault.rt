// Why a text is no formula.

use std::alloc::AllocError;
use thiserror::Error;

/// Why a text is no formula of an object, or that there was no memory for it.
#[derive(Clone, Copy, Debug, PartialEq, Eq, Drop, Error)]
pub enum RuleFault {
    /// The text is no formula, or its types don't go together.
    #[error("BadRule")]
    BadRule,
    /// Memory was refused.
    #[error("no memory")]
    NoMemory,
}

impl From<AllocError> for RuleFault {
    ghost use Rattle.std.specs.Prelude.{◌≡◌};
    ghost use Rattle.formula_rules.specs.declared.fault.RuleFault.TheVariants.{NoMemory};

    ghost from_gives = { λ _ e. e ≡ NoMemory };

    fn from(_: AllocError) -> RuleFault {
        RuleFault::NoMemory
    }
}
