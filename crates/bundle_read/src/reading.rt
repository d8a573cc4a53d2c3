// From the bytes of a bundle to what it says.

ghost use Rattle.std.specs.Prelude.{Result, IfOk, ◌≡◌};
ghost use Rattle.serde_json.specs.View.{view};
ghost use Rattle.bundle_read.specs.declared.entries.Bundle.{Bundle as TheBundle};
ghost use Rattle.fault_words.specs.declared.fault.Fault.{Fault as TheFault};
ghost use Rattle.bundle_read.specs.Bundles as spec;
ghost use Rattle.bundle_read.specs.Readings.{Tells};

use crate::bundle::bundle;
use crate::entries::Bundle;
use crate::fault::BundleFault;
use apex_num::{NoMemory, Text};
use fault_words::{Fault, FaultWord};
use serde_json::Value;
use std::alloc::Global;

// A place as it is written.
fn path(alloc: Global, place: &Text) -> Result<Text, NoMemory>
    ensures { IfOk result (λ t. t ≡ spec.path place.now) }
{
    match place.as_str().strip_prefix('.') {
        Some(rest) => Text::from_str(alloc, rest),
        None => Text::from_str(alloc, "json"),
    }
}

fn placed_fault(alloc: Global, fault: Fault) -> BundleFault
    ensures { spec.IsPlaced result fault }
{
    match path(alloc, &fault.place) {
        Ok(place) => BundleFault::Wrong(Fault {
            place,
            word: fault.word,
        }),
        Err(_) => BundleFault::NoMemory,
    }
}

// What a JSON value says, with the place of a fault as it is written.
fn placed(alloc: Global, value: &Value) -> Result<Bundle, BundleFault>
    ensures { Tells result (spec.placed (spec.bundle (view value.now))) }
{
    match bundle(alloc, value) {
        Ok(bundle) => Ok(bundle),
        Err(BundleFault::Wrong(fault)) => Err(placed_fault(alloc, fault)),
        Err(BundleFault::NoMemory) => Err(BundleFault::NoMemory),
    }
}

fn not_json(alloc: Global) -> BundleFault
    ensures { spec.IsNotJson result }
{
    match Text::from_str(alloc, "json") {
        Ok(place) => BundleFault::Wrong(Fault {
            place,
            word: FaultWord::NotJson,
        }),
        Err(_) => BundleFault::NoMemory,
    }
}

/// The bundle that these bytes say: JSON in UTF-8, of at most 127 levels, with the keys of the table of bundles
/// (docs/formats.md). A key that is there twice counts with its last value. Otherwise the first fault: of an object,
/// first the smallest key by bytes that isn't in the table, and then its keys in the order of the table.
pub fn read_bundle(alloc: Global, bytes: &[u8]) -> Result<Bundle, BundleFault>
    ensures reads { spec.Reads bytes.now result }
    ensures only { (other : Result TheBundle TheFault) → spec.IsRead bytes.now other → spec.Agrees result other }
{
    match Value::from_slice(alloc, bytes) {
        Ok(value) => placed(alloc, &value),
        Err(e) => if e.is_memory() {
            Err(BundleFault::NoMemory)
        } else {
            Err(not_json(alloc))
        },
    }
}
