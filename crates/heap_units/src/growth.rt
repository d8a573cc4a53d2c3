// How much longer a collection gets.

ghost use Rattle.std.specs.Prelude.{◌≡◌, ◌-◌, length, IfOk};
ghost use Rattle.txn_heap.specs.Words.{has, with_keys, with_entries, keys_of};
ghost use Rattle.heap_units.specs.Growths as spec;

use apex_list::Items;
use apex_num::{Cell, NoMemory};
use std::alloc::Global;
use txn_heap::{Change, Entries, Keys, Value};

/// The items that a list gets.
pub(crate) fn list_growth(items: &Items<Value>, change: &Change) -> usize
    ensures { result ≡ spec.list_growth change.now items.now }
{
    match change {
        Change::Push(_) => 1,
        Change::Insert(_, _) => 1,
        Change::Append(more) => more.len(),
        _ => 0,
    }
}

// The elements that aren't there yet, once each.
fn new_keys(keys: &Keys, more: &[Cell]) -> Result<usize, NoMemory>
    ensures { IfOk result (λ n. n ≡ length (with_keys keys.now more.now) - length keys.now) }
{
    let mut new = Keys::new(keys.allocator());
    for key in more {
        if !keys.contains(key) {
            new.insert(key.copy()?)?;
        }
    }
    Ok(new.len())
}

/// The elements that a set gets. Want of memory is the only error.
pub(crate) fn set_growth(keys: &Keys, change: &Change) -> Result<usize, NoMemory>
    ensures { IfOk result (λ n. n ≡ spec.set_growth change.now keys.now) }
{
    match change {
        Change::Add(key) => Ok(if keys.contains(key) { 0 } else { 1 }),
        Change::AddAll(more) => new_keys(keys, more.as_slice()),
        _ => Ok(0),
    }
}

// Whether there is an entry of this key.
fn has_key(entries: &Entries, key: &Cell) -> bool
    ensures { result ≡ has key.now (keys_of entries.now) }
{
    entries.get(key).is_some()
}

// The keys of entries.
fn keys_in(alloc: Global, pairs: &[(Cell, Value)]) -> Result<Items<Cell>, NoMemory>
    ensures { IfOk result (λ keys. keys ≡ keys_of pairs.now) }
{
    let mut keys = Items::new(alloc);
    for pair in pairs {
        keys.push(pair.0.copy()?)?;
    }
    Ok(keys)
}

// The keys that aren't there yet, once each.
fn new_entries(entries: &Entries, more: &[Cell]) -> Result<usize, NoMemory>
    ensures { IfOk result (λ n. n ≡ length (with_keys (keys_of entries.now) more.now) - length (keys_of entries.now)) }
{
    let mut new = Keys::new(entries.allocator());
    for key in more {
        if !has_key(entries, key) {
            new.insert(key.copy()?)?;
        }
    }
    Ok(new.len())
}

fn new_pairs(entries: &Entries, more: &[(Cell, Value)]) -> Result<usize, NoMemory>
    ensures { IfOk result (λ n. n ≡ length (with_entries entries.now more.now) - length entries.now) }
{
    let keys = keys_in(entries.allocator(), more)?;
    new_entries(entries, keys.as_slice())
}

/// The entries that a map gets. Want of memory is the only error.
pub(crate) fn map_growth(entries: &Entries, change: &Change) -> Result<usize, NoMemory>
    ensures { IfOk result (λ n. n ≡ spec.map_growth change.now entries.now) }
{
    match change {
        Change::Put(key, _) => Ok(if has_key(entries, key) { 0 } else { 1 }),
        Change::PutAll(more) => new_pairs(entries, more.as_slice()),
        _ => Ok(0),
    }
}
