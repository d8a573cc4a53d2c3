// The questions of saves, on the answers that are left.

ghost use Rattle.std.specs.Prelude.{◌≡◌, ◌<◌, ℕ, suc, List, map, filter, IfOk};
ghost use Rattle.apex_rows.specs.declared.row.Row.{Row as TheRow};
ghost use Rattle.record_ids.specs.Ids.{most};
ghost use Rattle.row_meaning.specs.Overlays.{merged};
ghost use Rattle.save_meaning.specs.Inserts.{rows_of_answer};
ghost use Rattle.save_statements.specs.Inquiries as phases;
ghost use Rattle.save_statements.specs.Records.{names_one};
ghost use Rattle.store_inquiries.specs.Questions as spec;
ghost use Rattle.answer_replay.specs.Playing.{Plays};

use crate::answers::{Answers, Comes};
use crate::id_set::IdSet;
use apex_list::{Boxed, Items};
use apex_num::{Cell, Id, NoMemory, copy_list};
use apex_requests::Ticket;
use apex_rows::{Answer, Cond, Path, Question, Row, Term, Terms};
use record_ids::is_minted_by;
use save_statements::Naming;
use std::alloc::Global;
use txn_overlay::Overlay;

// ---- conditions

fn terms(alloc: Global, ids: &[Id]) -> Result<Items<Term>, NoMemory>
    ensures { IfOk result (λ terms. terms ≡ map (λ (i : List ℕ). Term.Given (Cell.Id i)) ids.now) }
{
    let mut terms = Items::new(alloc);
    for id in ids {
        terms.push(Term::Given(Cell::Id(*id)))?;
    }
    Ok(terms)
}

/// A field is one of these Ids.
pub fn within(alloc: Global, field: usize, ids: &[Id]) -> Result<Cond, NoMemory>
    ensures { IfOk result (λ cond. cond ≡ spec.within field ids.now) }
{
    let terms = terms(alloc, ids)?;
    let path = Path {
        parents: Items::new(alloc),
        field,
    };
    Ok(Cond::Within(path, false, Terms::Given(terms)))
}

/// The question for the rows of an object of which a field is one of these Ids.
pub fn read_within(
    alloc: Global,
    object: usize,
    field: usize,
    ids: &[Id],
) -> Result<Question, NoMemory>
    ensures { IfOk result (λ question. question ≡ Question.Read object (spec.within field ids.now)) }
{
    let cond = Boxed::new(alloc, within(alloc, field, ids)?)?;
    Ok(Question::Read { object, cond })
}

// ---- rows

// The rows of an answer.
fn rows_in(alloc: Global, answer: &Answer) -> Result<Vec<Row>, NoMemory>
    ensures { IfOk result (λ rows. rows.items ≡ rows_of_answer answer.now) }
{
    match answer {
        Answer::Rows(rows) => Ok(copy_list(rows)?.into_vec()),
        Answer::Granted => Ok(Vec::new(alloc)),
    }
}

/// The rows of an object that the transaction sees, where this is the answer.
pub fn answered(
    alloc: Global,
    overlay: &Overlay,
    object: usize,
    answer: &Answer,
) -> Result<Items<Row>, NoMemory>
    ensures { IfOk result (λ rows. rows ≡ merged overlay.now object (rows_of_answer answer.now)) }
{
    let rows = rows_in(alloc, answer)?;
    Ok(Items::of(overlay.merge(object, rows)?))
}

/// The rows of an object that the transaction sees, where it is asked for those for which a condition holds.
pub fn rows_for(
    alloc: Global,
    overlay: &Overlay,
    object: usize,
    cond: Boxed<Cond>,
    answers: &mut Answers<'_>,
) -> Result<Comes<Items<Row>>, NoMemory>
    ensures { IfOk result (λ comes. Plays (spec.rows_for overlay.now object cond) answers.old comes answers.new) }
{
    match answers.next() {
        Some(answer) => Ok(Comes::Found(answered(alloc, overlay, object, answer)?)),
        None => Ok(Comes::Wants(Question::Read { object, cond })),
    }
}

/// The rows of an object that the transaction sees, where it is asked for those under these Ids; where there is no Id, nothing is
/// asked.
pub fn rows_by(
    alloc: Global,
    overlay: &Overlay,
    object: usize,
    ids: &[Id],
    answers: &mut Answers<'_>,
) -> Result<Comes<Items<Row>>, NoMemory>
    ensures { IfOk result (λ comes. Plays (spec.rows_by overlay.now object ids.now) answers.old comes answers.new) }
{
    if ids.is_empty() {
        let own = overlay.merge(object, Vec::new(alloc))?;
        return Ok(Comes::Found(Items::of(own)));
    }
    match answers.next() {
        Some(answer) => Ok(Comes::Found(answered(alloc, overlay, object, answer)?)),
        None => Ok(Comes::Wants(read_within(alloc, object, 0, ids)?)),
    }
}

// ---- rows that name others

// The question for the rows that name one of these Ids by a field.
fn read_naming(alloc: Global, field: Naming, ids: &IdSet) -> Result<Question, NoMemory>
    ensures { IfOk result (λ question. question ≡ Question.Read field.object (spec.within field.field ids.now)) }
{
    let wanted = ids.items(alloc)?;
    read_within(alloc, field.object, field.field, wanted.as_slice())
}

// Those of an answer, and of the transaction's own, that name one of these Ids by a field.
fn answered_naming(
    alloc: Global,
    overlay: &Overlay,
    field: Naming,
    ids: &IdSet,
    answer: &Answer,
) -> Result<Items<Row>, NoMemory>
    ensures { IfOk result (λ rows. rows ≡ filter (names_one field.field ids.now) (merged overlay.now field.object (rows_of_answer answer.now))) }
{
    let rows = answered(alloc, overlay, field.object, answer)?;
    let mut kept = Items::new(alloc);
    for row in rows.into_vec() {
        if ids.names(&row, field.field) {
            kept.push(row)?;
        }
    }
    Ok(kept)
}

/// The rows that the transaction sees and that name one of these Ids by a field; where there is no Id, nothing is asked.
pub fn naming(
    alloc: Global,
    overlay: &Overlay,
    field: Naming,
    ids: &IdSet,
    answers: &mut Answers<'_>,
) -> Result<Comes<Items<Row>>, NoMemory>
    ensures { IfOk result (λ comes. Plays (phases.naming overlay.now field ids.now) answers.old comes answers.new) }
{
    if ids.is_empty() {
        return Ok(Comes::Found(Items::new(alloc)));
    }
    match answers.next() {
        Some(answer) => Ok(Comes::Found(answered_naming(alloc, overlay, field, ids, answer)?)),
        None => Ok(Comes::Wants(read_naming(alloc, field, ids)?)),
    }
}

// ---- rows that are held

// The Ids that a request didn't make.
fn others(alloc: Global, ticket: Ticket, ids: &[Id]) -> Result<Items<Id>, NoMemory>
    requires session { suc ticket.session < most }
    requires request { ticket.index < most }
    ensures { IfOk result (λ others. others ≡ spec.others ticket ids.now) }
{
    let mut others = Items::new(alloc);
    for id in ids {
        if !is_minted_by(ticket.session as usize, ticket.index as usize, id) {
            others.push(*id)?;
        }
    }
    Ok(others)
}

/// Rows are held for this transaction alone, those that it made apart.
pub fn grab(
    alloc: Global,
    ticket: Ticket,
    ids: &[Id],
    answers: &mut Answers<'_>,
) -> Result<Comes<()>, NoMemory>
    requires session { suc ticket.session < most }
    requires request { ticket.index < most }
    ensures { IfOk result (λ comes. Plays (spec.grab ticket ids.now) answers.old comes answers.new) }
{
    let wanted = others(alloc, ticket, ids)?;
    if wanted.is_empty() {
        return Ok(Comes::Found(()));
    }
    match answers.next() {
        Some(_) => Ok(Comes::Found(())),
        None => Ok(Comes::Wants(Question::Grab { ids: wanted })),
    }
}
