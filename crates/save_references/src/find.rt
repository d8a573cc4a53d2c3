// The rows that references may name, on the answers that are left.

ghost use Rattle.std.specs.Prelude.{◌≡◌, [], ◌∷◌, ◌++◌, IfOk, OnOk};
ghost use Rattle.save_meaning.specs.Drafts.{untouched, with_ids, references as all_references};
ghost use Rattle.save_statements.specs.Checks as spec;
ghost use Rattle.save_statements.specs.Records.{going};
ghost use Rattle.store_inquiries.specs.Questions as questions;
ghost use Rattle.answer_replay.specs.Playing.{Plays};

use crate::ids::{references, wanted};
use answer_replay::{Answers, Comes, rows_by};
use apex_list::Items;
use apex_num::NoMemory;
use apex_rows::Row;
use apex_schema::Field;
use record_checks::Named;
use save_meaning::Reference;
use save_statements::Record;
use std::alloc::Global;
use txn_overlay::Overlay;

// The rows that a reference of records may name.
fn find_one(
    alloc: Global,
    overlay: &Overlay,
    reference: &Reference,
    records: &[Record],
    answers: &mut Answers<'_>,
) -> Result<Comes<Items<Row>>, NoMemory>
    ensures { IfOk result (λ comes.
        Plays (questions.rows_by overlay.now reference.now.to (untouched overlay.now (with_ids (spec.named_in reference.now.field (going records.now)) []))) answers.old comes answers.new) }
{
    let ids = wanted(alloc, overlay, reference.field, records)?;
    rows_by(alloc, overlay, reference.to, ids.as_slice(), answers)
}

// With a reference and the rows that it may name.
fn add(
    alloc: Global,
    found: &mut Items<Named>,
    reference: Reference,
    rows: Items<Row>,
) -> Result<(), NoMemory>
    ensures { OnOk result (found.new ≡ found.old ++ (reference, rows) ∷ []) }
{
    found.push(Named::new(alloc, reference, rows)?)
}

/// The rows that each reference of the records that go on may name: one question for each field that names Ids which the
/// transaction didn't touch.
pub fn find_all(
    alloc: Global,
    overlay: &Overlay,
    fields: &[Field],
    records: &[Record],
    answers: &mut Answers<'_>,
) -> Result<Comes<Items<Named>>, NoMemory>
    ensures { IfOk result (λ comes. Plays (spec.find_all overlay.now (all_references 0 fields.now) (going records.now)) answers.old comes answers.new) }
{
    let mut left = references(alloc, fields)?;
    let mut found = Items::new(alloc);
    while let Some(reference) = left.pop() {
        match find_one(alloc, overlay, &reference, records, answers)? {
            Comes::Found(rows) => add(alloc, &mut found, reference, rows)?,
            Comes::Wants(question) => return Ok(Comes::Wants(question)),
        }
    }
    Ok(Comes::Found(found))
}
