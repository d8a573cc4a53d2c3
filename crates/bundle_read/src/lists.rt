// Lists, and the keys of objects.

ghost use Rattle.std.specs.Prelude.{◌≡◌, ◌+◌, ◌++◌, length, map, MatchResult, IfOk, None, Some, bytes_eq};
ghost use Rattle.std.specs.List.{list_any};
ghost use Rattle.std.specs.Option.{option_map};
ghost use Rattle.serde_json.specs.View.{view, items_view, members_view};
ghost use Rattle.serde_json.specs.Find.{as_array};
ghost use Rattle.bundle_read.specs.Readings as spec;
ghost use Rattle.bundle_read.specs.Bundles as bundle;
ghost use Rattle.bundle_read.specs.Readings.{Tells, IsFirst};

use crate::fault::{BundleFault, wrong};
use crate::read::{Entry, at_item, at_key, within_key};
use apex_list::Items;
use fault_words::FaultWord;
use serde_json::{Map, Value};
use std::alloc::Global;

// Whether one of these keys is this one.
fn is_among(keys: &[&str], key: &str) -> bool
    ensures { result ≡ list_any (λ one. bytes_eq one.now key.now) keys.now }
{
    for one in keys {
        if one.as_bytes() == key.as_bytes() {
            return true;
        }
    }
    false
}

// The first key that isn't one of these.
fn unknown_key<'v>(members: &'v Map<String, Value>, keys: &[&str]) -> Option<&'v str>
    ensures { option_map (λ k. k.now) result ≡ spec.unknown_key (spec.texts keys.now) (members_view members.now.entries) }
{
    for (key, _value) in members.iter() {
        if !is_among(keys, key.as_str()) {
            return Some(key.as_str());
        }
    }
    None
}

/// Sees that a value is an object that has no keys but these.
pub fn keyed(alloc: Global, value: &Value, keys: &[&str]) -> Result<(), BundleFault>
    ensures { MatchResult result (λ _. spec.object_fault (spec.texts keys.now) (view value.now) ≡ None)
        (λ e. IsFirst e (spec.object_fault (spec.texts keys.now) (view value.now))) }
{
    let Some(members) = value.as_object() else {
        return Err(wrong(alloc, FaultWord::WrongKind));
    };
    match unknown_key(members, keys) {
        Some(key) => {
            let fault = wrong(alloc, FaultWord::UnknownKey);
            Err(at_key(alloc, key, fault))
        }
        None => Ok(()),
    }
}

/// A list's items, where the value is a list.
pub fn slice_in(alloc: Global, value: &Value) -> Result<&[Value], BundleFault>
    ensures { spec.ShowsItems result (spec.of_kind (as_array (view value.now))) }
{
    match value.as_array() {
        Some(list) => Ok(list.as_slice()),
        None => Err(wrong(alloc, FaultWord::WrongKind)),
    }
}

fn is_over(most: Option<usize>, count: usize) -> bool
    ensures { result ≡ spec.is_over most count }
{
    match most {
        Some(most) => most < count,
        None => false,
    }
}

/// Sees that a list isn't longer than it may be.
pub fn short(alloc: Global, list: &[Value], most: Option<usize>) -> Result<(), BundleFault>
    ensures { spec.Passes result (items_view list.now) (spec.short most (items_view list.now)) }
{
    if is_over(most, list.len()) {
        return Err(wrong(alloc, FaultWord::TooMany));
    }
    Ok(())
}

/// What each item says.
pub fn each<T: Entry + Drop>(alloc: Global, list: &[Value]) -> Result<Items<T>, BundleFault>
    ensures { Tells result (spec.each T.reads 0 (items_view list.now)) }
{
    let mut all = Items::new(alloc);
    'items: for i in 0..list.len() {
        match T::read(alloc, &list[i]) {
            Ok(one) => all.push(one)?,
            Err(fault) => return Err(at_item(alloc, i, fault)),
        }
    }
    Ok(all)
}

/// What a list says that may have so many items.
pub fn list_of<T: Entry + Drop>(
    alloc: Global,
    value: &Value,
    most: Option<usize>,
) -> Result<Items<T>, BundleFault>
    ensures { Tells result (spec.list_of most T.reads (view value.now)) }
{
    let list = slice_in(alloc, value)?;
    short(alloc, list, most)?;
    each(alloc, list)
}

impl<T: Entry + Drop> Entry for Items<T> {
    ghost use Rattle.std.specs.Prelude.{None};
    ghost use Rattle.bundle_read.specs.Readings.{list_of};

    ghost reads = { list_of None T.reads };

    fn read(alloc: Global, value: &Value) -> Result<Items<T>, BundleFault> {
        list_of(alloc, value, None)
    }
}

// What a list that was found at a key says.
fn found_list<T: Entry + Drop>(
    alloc: Global,
    value: Option<&Value>,
    most: usize,
) -> Result<Items<T>, BundleFault>
    ensures { Tells result (spec.found (spec.list_of (Some most) T.reads) (spec.option_view value.entry)) }
{
    match value {
        Some(value) => list_of(alloc, value, Some(most)),
        None => Err(wrong(alloc, FaultWord::Missing)),
    }
}

/// What a key says that has to be there: a list of at most so many items.
pub fn needed_list<T: Entry + Drop>(
    alloc: Global,
    value: &Value,
    key: &str,
    most: usize,
) -> Result<Items<T>, BundleFault>
    ensures { Tells result (spec.needed (spec.list_of (Some most) T.reads) key.now (view value.now)) }
{
    within_key(alloc, key, found_list(alloc, value.get(key), most))
}

/// A list, or the empty one.
pub fn or_empty<T: Drop>(alloc: Global, list: Option<Items<T>>) -> Items<T>
    ensures { result ≡ bundle.or_empty list }
{
    match list {
        Some(list) => list,
        None => Items::new(alloc),
    }
}
