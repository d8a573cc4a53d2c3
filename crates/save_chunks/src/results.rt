// What came of the records of a statement so far.

ghost use Rattle.std.specs.Prelude.{◌≡◌, ◌∷◌, [], IfOk};
ghost use Rattle.save_statements.specs.Moves as spec;

use apex_list::Items;
use apex_num::NoMemory;
use apex_requests::SaveRow;
use save_statements::{RecordOutcome, Told};
use std::alloc::Global;

/// A place for each record of a list, of none of which is known yet what came.
pub fn none_yet(alloc: Global, rows: &[SaveRow]) -> Result<Items<Option<RecordOutcome>>, NoMemory>
    ensures { IfOk result (λ results. results ≡ spec.none_yet rows.now) }
{
    let mut results = Items::new(alloc);
    for _row in rows {
        results.push(None)?;
    }
    Ok(results)
}

fn note_one(results: &mut Items<Option<RecordOutcome>>, one: Told)
    ensures { results.new ≡ spec.noted (one ∷ []) results.old }
{
    let Told { place, outcome } = one;
    if place < results.len() {
        results.set(place, Some(outcome));
    }
}

/// What came of these records is noted at their places.
pub fn note(results: &mut Items<Option<RecordOutcome>>, told: Items<Told>)
    ensures { results.new ≡ spec.noted told results.old }
{
    for one in told.into_vec() {
        note_one(results, one);
    }
}

/// What is known so far, in the order of the list.
pub fn known(
    alloc: Global,
    results: Items<Option<RecordOutcome>>,
) -> Result<Items<RecordOutcome>, NoMemory>
    ensures { IfOk result (λ outcomes. outcomes ≡ spec.known results) }
{
    let mut all = Items::new(alloc);
    for one in results.into_vec() {
        if let Some(outcome) = one {
            all.push(outcome)?;
        }
    }
    Ok(all)
}
