// What came of the records of a chunk.

ghost use Rattle.std.specs.Prelude.{◌≡◌, ◌↔◌, ◌∷◌, ◌++◌, [], None, Some, IsFalse, IfOk, OnOk, MatchResult};
ghost use Rattle.save_statements.specs.Statements as spec;

use apex_list::Items;
use apex_num::NoMemory;
use platform_errors::RecordError;
use save_statements::{Placed, Record, RecordOutcome, Told};
use std::alloc::Global;

// ---- what is told

fn outcome(one: Record) -> RecordOutcome
    ensures { result ≡ spec.outcome one }
{
    match one {
        Record::Going(pending) => RecordOutcome::Done(pending.get().row.id),
        Record::Wrong(error) => RecordOutcome::Failed(error),
    }
}

/// What came of each record of a chunk, with its place in the statement's list; what has no record or no place is left out.
pub fn tell(alloc: Global, rows: &[Placed], records: Items<Record>) -> Result<Items<Told>, NoMemory>
    ensures { IfOk result (λ ts. ts ≡ spec.told rows.now records) }
{
    let mut told = Items::new(alloc);
    let mut rest = rows;
    for one in records.into_vec() {
        let Some((row, more)) = rest.split_first() else {
            return Ok(told);
        };
        rest = more;
        told.push(Told {
            place: row.place,
            outcome: outcome(one),
        })?;
    }
    Ok(told)
}

// ---- what failed

fn is_failed(outcome: &RecordOutcome) -> bool
    ensures { result ≡ spec.is_failed outcome.now }
{
    match outcome {
        RecordOutcome::Done(_) => false,
        RecordOutcome::Failed(_) => true,
    }
}

/// Whether one of these failed.
pub fn has_failed(told: &[Told]) -> bool
    ensures { IsFalse result ↔ (spec.failed_in told.now ≡ []) }
{
    for one in told {
        if is_failed(&one.outcome) {
            return true;
        }
    }
    false
}

// The place and the error of the first one that failed.
fn first_failed(told: Items<Told>) -> Option<(usize, RecordError)>
    ensures { result ≡ spec.first_failed told }
{
    for Told { place, outcome } in told.into_vec() {
        if let RecordOutcome::Failed(error) = outcome {
            return Some((place, error));
        }
    }
    None
}

/// The same where none of these failed, or the place and the error of the first one that did.
pub fn or_failed(told: Items<Told>) -> Result<Items<Told>, (usize, RecordError)>
    ensures { MatchResult result (λ ts. (spec.first_failed told ≡ None) × (ts ≡ told)) (λ failed. spec.first_failed told ≡ Some failed) }
{
    if !has_failed(told.as_slice()) {
        return Ok(told);
    }
    match first_failed(told) {
        Some(failed) => Err(failed),
        None => unreachable!(),
    }
}

// ---- what is tried again, and what is given up

fn add_left(left: &mut Items<Placed>, row: Placed, told: &Told) -> Result<(), NoMemory>
    ensures { OnOk result (left.new ≡ left.old ++ spec.left_over (row ∷ []) (told.now ∷ [])) }
{
    if !is_failed(&told.outcome) {
        left.push(row)?;
    }
    Ok(())
}

fn left_over(alloc: Global, rows: Items<Placed>, told: &[Told]) -> Result<Items<Placed>, NoMemory>
    ensures { IfOk result (λ left. left ≡ spec.left_over rows told.now) }
{
    let mut left = Items::new(alloc);
    let mut rest = told;
    for row in rows.into_vec() {
        let Some((one, more)) = rest.split_first() else {
            return Ok(left);
        };
        rest = more;
        add_left(&mut left, row, one)?;
    }
    Ok(left)
}

fn failed_in(alloc: Global, told: Items<Told>) -> Result<Items<Told>, NoMemory>
    ensures { IfOk result (λ failed. failed ≡ spec.failed_in told) }
{
    let mut failed = Items::new(alloc);
    for one in told.into_vec() {
        if is_failed(&one.outcome) {
            failed.push(one)?;
        }
    }
    Ok(failed)
}

/// The records of a chunk that didn't fail, and what came of those that did.
pub fn set_aside(
    alloc: Global,
    rows: Items<Placed>,
    told: Items<Told>,
) -> Result<(Items<Placed>, Items<Told>), NoMemory>
    ensures { IfOk result (λ parts. (parts.0 ≡ spec.left_over rows told) × (parts.1 ≡ spec.failed_in told)) }
{
    let left = left_over(alloc, rows, told.as_slice())?;
    let failed = failed_in(alloc, told)?;
    Ok((left, failed))
}

fn given_up(outcome: RecordOutcome) -> RecordOutcome
    ensures { result ≡ spec.given_up_one outcome }
{
    match outcome {
        RecordOutcome::Done(_) => RecordOutcome::Failed(RecordError::TooManyRetries),
        RecordOutcome::Failed(error) => RecordOutcome::Failed(error),
    }
}

fn given_up_told(told: Told) -> Told
    ensures { result ≡ record told { outcome = spec.given_up_one told.outcome } }
{
    let Told { place, outcome } = told;
    Told {
        place,
        outcome: given_up(outcome),
    }
}

/// The records that would have been saved are given up, and the others keep their errors.
pub fn give_up(alloc: Global, told: Items<Told>) -> Result<Items<Told>, NoMemory>
    ensures { IfOk result (λ ts. ts ≡ spec.given_up told) }
{
    let mut all = Items::new(alloc);
    for one in told.into_vec() {
        all.push(given_up_told(one))?;
    }
    Ok(all)
}
