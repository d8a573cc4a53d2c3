// Chains of masters, three steps at most: each master of each object is looked at three times, however the chains meet.

ghost use Rattle.std.specs.Prelude.{◌≡◌, ℕ, map, IfOk};
ghost use Rattle.std.specs.List.{list_all};
ghost use Rattle.schema_build.specs.Lookups.{masters_in, flag_at};
ghost use Rattle.schema_plans.specs.Plans.{is_empty, all_end_within};

use crate::sets::Masters;
use apex_num::NoMemory;
use std::alloc::Global;

/// Whether the chains from an object end. RowShare, which stands behind the flags, has no master.
pub fn ends_at(flags: &[bool], object: usize) -> bool
    ensures { result ≡ flag_at flags.now object }
{
    match flags.get(object) {
        Some(ends) => *ends,
        None => true,
    }
}

// Whether each chain from an object ends at once.
fn ends_now(alloc: Global, masters: &[Masters]) -> Result<Vec<bool>, NoMemory>
    ensures { IfOk result (λ all. all.items ≡ map is_empty (map masters_in masters.now)) }
{
    let mut all = Vec::new(alloc);
    for own in masters {
        all.push(own.list.is_empty())?;
    }
    Ok(all)
}

// Whether each chain from each of these objects ends.
fn all_end(flags: &[bool], objects: &[usize]) -> bool
    ensures { result ≡ list_all (flag_at flags.now) objects.now }
{
    for object in objects {
        if !ends_at(flags, *object) {
            return false;
        }
    }
    true
}

// Whether each chain from an object ends with one step more than these.
fn ends_next(alloc: Global, masters: &[Masters], flags: &[bool]) -> Result<Vec<bool>, NoMemory>
    ensures { IfOk result (λ all. all.items ≡ map (list_all (flag_at flags.now)) (map masters_in masters.now)) }
{
    let mut all = Vec::new(alloc);
    for own in masters {
        all.push(all_end(flags, own.list.as_slice()))?;
    }
    Ok(all)
}

/// Whether each chain from an object ends within two steps.
pub fn short(alloc: Global, masters: &[Masters]) -> Result<Vec<bool>, NoMemory>
    ensures { IfOk result (λ all. (n : ℕ) → flag_at all.items n ≡ all_end_within (map masters_in masters.now) 2 n) }
{
    let none = ends_now(alloc, masters)?;
    let one = ends_next(alloc, masters, &none)?;
    let two = ends_next(alloc, masters, &one)?;
    Ok(two)
}
