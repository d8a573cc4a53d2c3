// Faults of a bundle, and how the place of one grows from the inside.

ghost use Rattle.std.specs.Prelude.{◌≡◌, ◌++◌, IfOk};
ghost use Rattle.bundle_read.specs.Readings.{IsFault, IsInner, here};

use apex_num::{NoMemory, Text};
use fault_words::{Fault, FaultWord};
use std::alloc::{AllocError, Global};
use thiserror::Error;

/// Why bytes are no bundle.
#[derive(Debug, Drop, Error)]
pub enum BundleFault {
    /// The first fault. Its place is a path of keys and numbers from 0, such as `tenants[0].users[1].name`, or `json`
    /// for the whole.
    #[error("the bundle has a fault")]
    Wrong(Fault),
    /// Memory was refused.
    #[error("no memory")]
    NoMemory,
}

impl From<AllocError> for BundleFault {
    ghost use Rattle.std.specs.Prelude.{◌≡◌};
    ghost use Rattle.bundle_read.specs.declared.fault.BundleFault.TheVariants.{NoMemory};

    ghost from_gives = { λ e f. f ≡ NoMemory };

    fn from(_: AllocError) -> BundleFault {
        BundleFault::NoMemory
    }
}

/// A fault of the value that is read.
pub fn wrong(alloc: Global, word: FaultWord) -> BundleFault
    ensures { IsFault result (here word) }
{
    match Text::from_str(alloc, "") {
        Ok(place) => BundleFault::Wrong(Fault { place, word }),
        Err(_) => BundleFault::NoMemory,
    }
}

// A place behind the name of a part.
fn behind(alloc: Global, part: &str, place: &Text) -> Result<Text, NoMemory>
    ensures { IfOk result (λ t. t ≡ part.now ++ place.now) }
{
    let mut all = String::from_str(alloc, part)?;
    all.push_str(place.as_str())?;
    Text::from_str(alloc, all.as_str())
}

/// A fault of a part: its place is the part's name and what it was there.
pub fn inside(alloc: Global, part: &str, fault: BundleFault) -> BundleFault
    ensures { IsInner result part.now fault }
{
    let BundleFault::Wrong(fault) = fault else {
        return BundleFault::NoMemory;
    };
    match behind(alloc, part, &fault.place) {
        Ok(place) => BundleFault::Wrong(Fault {
            place,
            word: fault.word,
        }),
        Err(_) => BundleFault::NoMemory,
    }
}
