// Units of plans.

ghost use Rattle.std.specs.Prelude.{◌≡◌, ◌+◌, ◌-◌, ◌*◌, Some, length, slice_get, IfOk};
ghost use Rattle.std.specs.Option.{option_copied};
ghost use Rattle.txn_heap.specs.Changes.{thing_after};
ghost use Rattle.txn_heap.specs.declared.thing.Thing.TheVariants as T;
ghost use Rattle.heap_methods.specs.Lists.{joined, joined_behind, word_of};
ghost use Rattle.heap_methods.specs.Outcomes.{content, content_at, units_of};
ghost use Rattle.heap_methods.specs.Plans.{planned};
ghost use Rattle.heap_methods.specs.declared.plan.Plan.TheVariants as P;
ghost use Rattle.heap_units.specs.Growths.{capped};

use crate::content::{capped, content, content_at, thing_units};
use crate::growth::{list_growth, map_growth, set_growth};
use apex_list::Items;
use apex_num::{NoMemory, Text};
use heap_methods::{Plan, word_of};
use txn_heap::{Change, Entries, Heap, Keys, Ref, Thing, Value};

fn list_units(items: &Items<Value>, change: &Change) -> u64
    ensures { result ≡ capped (content (thing_after change.now (T.List items.now)) - content (T.List items.now)) }
{
    capped(16 * (list_growth(items, change) as u128))
}

fn set_units(keys: &Keys, change: &Change) -> Result<u64, NoMemory>
    ensures { IfOk result (λ n. n ≡ capped (content (thing_after change.now (T.Set keys.now)) - content (T.Set keys.now))) }
{
    let new = set_growth(keys, change)?;
    Ok(capped(16 * (new as u128)))
}

fn map_units(entries: &Entries, change: &Change) -> Result<u64, NoMemory>
    ensures { IfOk result (λ n. n ≡ capped (content (thing_after change.now (T.Map entries.now)) - content (T.Map entries.now))) }
{
    let new = map_growth(entries, change)?;
    Ok(capped(32 * (new as u128)))
}

// The units of a change of a thing.
fn change_units(thing: &Thing, change: &Change) -> Result<u64, NoMemory>
    ensures { IfOk result (λ n. n ≡ capped (content (thing_after change.now thing.now) - content thing.now)) }
{
    match thing {
        Thing::List(items) => Ok(list_units(items, change)),
        Thing::Set(keys) => set_units(keys, change),
        Thing::Map(entries) => map_units(entries, change),
        _ => Ok(0),
    }
}

fn changes_units(thing: Option<&Thing>, change: &Change, answer: &Value) -> Result<u64, NoMemory>
    ensures { IfOk result (λ n. n ≡ capped (units_of (option_copied thing.entry) (planned (P.Changes change.now answer.now) (option_copied thing.entry)))) }
{
    match thing {
        None => Ok(0),
        Some(thing) => change_units(thing, change),
    }
}

fn word_units(between: &str, value: &Value, sum: u64) -> u64
    ensures { result ≡ capped (sum + (length between.now + length (word_of value.now))) }
{
    let word = sum.saturating_add(word_of(value).len() as u64);
    word.saturating_add(between.len() as u64)
}

fn rest_units(between: &str, items: &[Value], sum: u64) -> u64
    ensures { result ≡ capped (sum + length (joined_behind between.now items.now)) }
{
    let mut sum = sum;
    for item in items {
        sum = word_units(between, item, sum);
    }
    sum
}

fn join_units(items: &[Value], between: &str) -> u64
    ensures { result ≡ capped (16 + length (joined between.now items.now)) }
{
    match items {
        [] => 16,
        [first, rest @ ..] => {
            let sum = 16 + (word_of(first).len() as u64);
            rest_units(between, rest, sum)
        }
    }
}

fn joins_units(thing: Option<&Thing>, between: &Text) -> u64
    ensures { result ≡ capped (units_of (option_copied thing.entry) (planned (P.Joins between.now) (option_copied thing.entry))) }
{
    match thing {
        Some(Thing::List(items)) => join_units(items.as_slice(), between.as_str()),
        _ => 0,
    }
}

// The units of a thing that comes in the place of another.
fn replaces_units(thing: Option<&Thing>, new: &Thing) -> u64
    ensures { result ≡ capped (content new.now - content_at (option_copied thing.entry)) }
{
    capped(content(new).saturating_sub(content_at(thing)))
}

fn units_on(thing: Option<&Thing>, plan: &Plan) -> Result<u64, NoMemory>
    ensures { IfOk result (λ n. n ≡ capped (units_of (option_copied thing.entry) (planned plan.now (option_copied thing.entry)))) }
{
    match plan {
        Plan::Tells(_) => Ok(0),
        Plan::Joins(between) => Ok(joins_units(thing, between)),
        Plan::Changes(change, answer) => changes_units(thing, change, answer),
        Plan::Replaces(new, _) => Ok(replaces_units(thing, new)),
        Plan::Makes(new) => Ok(thing_units(new)),
    }
}

/// The allocation units of what is planned for a thing, charged before it is carried out; 2^64 - 1 where there are more. Want of
/// memory is the only error.
pub fn plan_units(heap: &Heap, on: Ref, plan: &Plan) -> Result<u64, NoMemory>
    ensures { IfOk result (λ n. n ≡ capped (units_of (slice_get heap.now on.place) (planned plan.now (slice_get heap.now on.place)))) }
{
    units_on(heap.get(on), plan)
}
