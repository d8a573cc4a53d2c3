// Why words list no turns.

use std::alloc::AllocError;
use thiserror::Error;

/// Why words list no turns.
#[derive(Debug, Drop, Error)]
pub enum TurnsFault {
    /// They aren't the word `turns` and a list.
    #[error("the words list no turns")]
    NotTurns,
    /// Memory was refused.
    #[error("no memory")]
    NoMemory,
}

impl From<AllocError> for TurnsFault {
    ghost use Rattle.std.specs.Prelude.{◌≡◌};
    ghost use Rattle.turn_lists.specs.declared.fault.TurnsFault.TheVariants.{NoMemory};

    ghost from_gives = { λ e f. f ≡ NoMemory };

    fn from(_: AllocError) -> TurnsFault {
        TurnsFault::NoMemory
    }
}
