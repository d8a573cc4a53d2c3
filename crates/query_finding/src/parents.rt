// The rows over the rows of a query.

ghost use Rattle.std.specs.Prelude.{◌≡◌, [], Some, IfOk};
ghost use Rattle.save_meaning.specs.Drafts.{untouched};
ghost use Rattle.store_inquiries.specs.Questions.{rising};
ghost use Rattle.query_meaning.specs.Parents.{named_over, object_over as over};
ghost use Rattle.query_meaning.specs.Queries as spec;
ghost use Rattle.answer_replay.specs.Playing.{Plays, PlaysInto};
ghost use Rattle.query_finding.specs.Steps.{site_of};

use answer_replay::{Answers, Comes, rows_by};
use apex_list::Items;
use apex_num::{Id, NoMemory};
use apex_requests::Ticket;
use apex_rows::{Path, Row};
use apex_schema::Schema;
use query_questions::object_over;
use query_rows::{Known, Reader, wanted};
use std::alloc::Global;
use txn_overlay::Overlay;

// The Ids that a path names over rows and that the transaction didn't touch, rising, each once.
fn named(
    alloc: Global,
    schema: &Schema,
    overlay: &Overlay,
    path: &Path,
    rows: &[Row],
    known: &Known,
) -> Result<Items<Id>, NoMemory>
    ensures { IfOk result (λ ids. ids ≡ untouched overlay.now (rising (named_over schema.now known.now path.now rows.now))) }
{
    let reader = Reader::new(schema, known);
    Ok(Items::of(wanted(alloc, &reader, overlay, path, rows)?))
}

// The rows of an object that a path names over rows stand in place of what was known under their Ids.
fn read_over(
    alloc: Global,
    schema: &Schema,
    ticket: Ticket,
    overlay: &Overlay,
    object: usize,
    path: &Path,
    rows: &[Row],
    known: &mut Known,
    answers: &mut Answers<'_>,
) -> Result<Comes<()>, NoMemory>
    ensures { IfOk result (λ comes. PlaysInto (spec.read_parent (site_of schema.now ticket) overlay.now (Some object) path.now rows.now known.old) answers.old comes known.old known.new answers.new) }
{
    let ids = named(alloc, schema, overlay, path, rows, known)?;
    match rows_by(alloc, overlay, object, ids.as_slice(), answers)? {
        Comes::Wants(question) => Ok(Comes::Wants(question)),
        Comes::Found(found) => {
            known.put_all(found.into_vec())?;
            Ok(Comes::Found(()))
        }
    }
}

// The rows that a path from an object names, where it leads to an object.
fn read_parent(
    alloc: Global,
    schema: &Schema,
    ticket: Ticket,
    overlay: &Overlay,
    object: usize,
    path: &Path,
    rows: &[Row],
    known: &mut Known,
    answers: &mut Answers<'_>,
) -> Result<Comes<()>, NoMemory>
    ensures { IfOk result (λ comes. PlaysInto (spec.read_parent (site_of schema.now ticket) overlay.now (over schema.now object path.now) path.now rows.now known.old) answers.old comes known.old known.new answers.new) }
{
    match object_over(schema, object, path) {
        Some(over) => read_over(
            alloc, schema, ticket, overlay, over, path, rows, known, answers,
        ),
        None => Ok(Comes::Found(())),
    }
}

/// The rows that these paths name over rows of an object, one path behind the other: a question for each that names Ids which
/// the transaction didn't touch. What is read later stands in place of what was known.
pub fn read_parents(
    alloc: Global,
    schema: &Schema,
    ticket: Ticket,
    overlay: &Overlay,
    object: usize,
    paths: &[Path],
    rows: &[Row],
    answers: &mut Answers<'_>,
) -> Result<Comes<Known>, NoMemory>
    ensures { IfOk result (λ comes. Plays (spec.read_parents (site_of schema.now ticket) overlay.now object paths.now rows.now []) answers.old comes answers.new) }
{
    let mut known = Known::new(alloc);
    for path in paths {
        match read_parent(
            alloc, schema, ticket, overlay, object, path, rows, &mut known, answers,
        )? {
            Comes::Wants(question) => return Ok(Comes::Wants(question)),
            Comes::Found(_) => {}
        }
    }
    Ok(Comes::Found(known))
}
