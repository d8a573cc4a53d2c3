// What a thing holds.

ghost use Rattle.std.specs.Prelude.{◌≡◌, ◌+◌, ◌<◌, ◌^◌};
ghost use Rattle.std.specs.Option.{option_copied};
ghost use Rattle.heap_methods.specs.Outcomes.{content, content_at};
ghost use Rattle.heap_units.specs.Growths.{capped};

use txn_heap::Thing;

/// The units of the elements of a collection.
pub(crate) fn content(thing: &Thing) -> u128
    ensures value { result ≡ content thing.now }
    ensures small { result < 2 ^ 70 }
{
    match thing {
        Thing::List(items) => 16 * (items.len() as u128),
        Thing::Set(keys) => 16 * (keys.len() as u128),
        Thing::Map(entries) => 32 * (entries.len() as u128),
        _ => 0,
    }
}

/// The units of the elements of the collection that is there.
pub(crate) fn content_at(thing: Option<&Thing>) -> u128
    ensures { result ≡ content_at (option_copied thing.entry) }
{
    match thing {
        None => 0,
        Some(thing) => content(thing),
    }
}

/// The units as a number of 64 bits; the greatest stands for more.
pub(crate) fn capped(n: u128) -> u64
    ensures { result ≡ capped n }
{
    if n < (u64::MAX as u128) {
        n as u64
    } else {
        u64::MAX
    }
}

/// The units of a collection that is made as this; 2^64 - 1 where there are more.
pub fn thing_units(thing: &Thing) -> u64
    ensures { result ≡ capped (32 + content thing.now) }
{
    capped(32 + content(thing))
}
