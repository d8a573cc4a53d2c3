// How JSON values are read.

ghost use Rattle.std.specs.Prelude.{◌≡◌, ◌+◌, ◌∷◌, Option, None, Some, Result, map, MatchResult, IfOk, MatchOption, IsTrue, ◌↔◌};
ghost use Rattle.std.specs.Option.{option_map};
ghost use Rattle.serde_json.specs.View.{view, items_view, members_view};
ghost use Rattle.serde_json.specs.Find.{get};
ghost use Rattle.fault_words.specs.declared.fault.Fault.{Fault as TheFault};
ghost use Rattle.bundle_read.specs.Readings as spec;
ghost use Rattle.bundle_read.specs.Readings.{Tells, IsInner, IsFirst};

use crate::fault::{BundleFault, inside, wrong};
use apex_list::Items;
use fault_words::FaultWord;
use itoa::Buffer;
use serde_json::{Map, Value};
use std::alloc::Global;

/// What is read from a JSON value.
pub trait Entry {
    ghost use Rattle.std.specs.Prelude.{Result};
    ghost use Rattle.serde_json.specs.Data.{Data};
    ghost use Rattle.serde_json.specs.View.{view};
    ghost use Rattle.fault_words.specs.declared.fault.Fault.{Fault};
    ghost use Rattle.bundle_read.specs.Readings.{Tells};

    ghost reads: { Data → Result Self Fault };

    fn read(alloc: Global, value: &Value) -> Result<Self, BundleFault>
        ensures { Tells result (reads (view value.now)) };
}

/// A fault of what stands at a key.
pub fn at_key(alloc: Global, key: &str, fault: BundleFault) -> BundleFault
    ensures { IsInner result (spec.key_name key.now) fault }
{
    let fault = inside(alloc, key, fault);
    inside(alloc, ".", fault)
}

/// A fault of an item.
pub fn at_item(alloc: Global, at: usize, fault: BundleFault) -> BundleFault
    ensures { IsInner result (spec.item_name at) fault }
{
    let mut digits = Buffer::new();
    let fault = inside(alloc, "]", fault);
    let fault = inside(alloc, digits.format(at), fault);
    inside(alloc, "[", fault)
}

/// What was read at a key.
pub fn within_key<T>(
    alloc: Global,
    key: &str,
    outcome: Result<T, BundleFault>,
) -> Result<T, BundleFault>
    ensures { (reading : Result T TheFault) → Tells outcome reading → Tells result (spec.within (spec.key_name key.now) reading) }
{
    match outcome {
        Ok(read) => Ok(read),
        Err(fault) => Err(at_key(alloc, key, fault)),
    }
}

// What was found at a key.
fn found<T: Entry>(alloc: Global, value: Option<&Value>) -> Result<T, BundleFault>
    ensures { Tells result (spec.found T.reads (spec.option_view value.entry)) }
{
    match value {
        Some(value) => T::read(alloc, value),
        None => Err(wrong(alloc, FaultWord::Missing)),
    }
}

/// What a key says that has to be there.
pub fn needed<T: Entry>(alloc: Global, value: &Value, key: &str) -> Result<T, BundleFault>
    ensures { Tells result (spec.needed T.reads key.now (view value.now)) }
{
    within_key(alloc, key, found(alloc, value.get(key)))
}

fn maybe<T: Entry>(alloc: Global, value: Option<&Value>) -> Result<Option<T>, BundleFault>
    ensures { Tells result (spec.maybe T.reads (spec.option_view value.entry)) }
{
    match value {
        Some(value) => Ok(Some(T::read(alloc, value)?)),
        None => Ok(None),
    }
}

/// What a key says that may be absent.
pub fn optional<T: Entry>(alloc: Global, value: &Value, key: &str) -> Result<Option<T>, BundleFault>
    ensures { Tells result (spec.optional T.reads key.now (view value.now)) }
{
    within_key(alloc, key, maybe(alloc, value.get(key)))
}
