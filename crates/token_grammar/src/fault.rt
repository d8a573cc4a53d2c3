// Why a reading of tokens stops.

use apex_text::Span;
use std::alloc::AllocError;
use thiserror::Error;

/// Why a reading of tokens stops.
#[derive(Clone, Copy, Debug, PartialEq, Eq, Drop, Error)]
pub enum ParseWord {
    /// Another token is needed here.
    #[error("Expected")]
    Expected,
    /// This token nests deeper than 64.
    #[error("TooDeep")]
    TooDeep,
    /// An `OR` after an `AND` in one list, or the reverse.
    #[error("MixedAndOr")]
    MixedAndOr,
    /// `FOR UPDATE` after `ORDER BY`.
    #[error("LockedOrder")]
    LockedOrder,
    /// A path with more than five parents, or a subquery inside a subquery.
    #[error("TooManyLevels")]
    TooManyLevels,
}

/// Why the tokens are no tree, or that there was no memory for it.
#[derive(Clone, Copy, Debug, PartialEq, Eq, Drop, Error)]
pub enum ParseFault {
    /// The first fault, and the bytes of the token at which it stands.
    #[error("{0}")]
    Wrong(ParseWord, Span),
    /// Memory was refused.
    #[error("no memory")]
    NoMemory,
}

/// Why a reading of tokens stops, and at which of them, counted from 0; or that there was no memory.
#[derive(Clone, Copy, Debug, PartialEq, Eq, Drop)]
pub enum Stop {
    At(ParseWord, usize),
    NoMemory,
}

impl From<AllocError> for Stop {
    ghost use Rattle.std.specs.Prelude.{◌≡◌};
    ghost use Rattle.token_grammar.specs.declared.fault.Stop.TheVariants.{NoMemory};

    ghost from_gives = { λ _ e. e ≡ NoMemory };

    fn from(_: AllocError) -> Stop {
        Stop::NoMemory
    }
}
