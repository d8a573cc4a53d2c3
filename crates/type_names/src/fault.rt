// Faults of trees.

ghost use Rattle.std.specs.Prelude.{◌≡◌};

use fault_words::FaultWord;
use std::alloc::AllocError;
use thiserror::Error;

/// A fault of a tree.
#[derive(Clone, Copy, Debug, PartialEq, Eq, Drop)]
pub struct TreeFault {
    pub word: FaultWord,
    /// The byte place in the text where its first token begins, from 0.
    pub at: usize,
}

impl TreeFault {
    /// A fault of this word at this byte.
    pub fn new(word: FaultWord, at: usize) -> TreeFault
        ensures { result ≡ record { word = word; at = at } }
    {
        TreeFault { word, at }
    }
}

/// Why a walk over a tree came to no end.
#[derive(Clone, Copy, Debug, PartialEq, Eq, Drop, Error)]
pub enum WalkFault {
    /// The first fault.
    #[error("a tree has a fault")]
    Wrong(TreeFault),
    /// Memory was refused.
    #[error("no memory")]
    NoMemory,
}

impl From<AllocError> for WalkFault {
    ghost use Rattle.std.specs.Prelude.{◌≡◌};
    ghost use Rattle.type_names.specs.declared.fault.WalkFault.TheVariants.{NoMemory};

    ghost from_gives = { λ _ e. e ≡ NoMemory };

    fn from(_: AllocError) -> WalkFault {
        WalkFault::NoMemory
    }
}

impl From<TreeFault> for WalkFault {
    ghost use Rattle.std.specs.Prelude.{◌≡◌};
    ghost use Rattle.type_names.specs.declared.fault.WalkFault.TheVariants.{Wrong};

    ghost from_gives = { λ fault e. e ≡ Wrong fault };

    fn from(fault: TreeFault) -> WalkFault {
        WalkFault::Wrong(fault)
    }
}
