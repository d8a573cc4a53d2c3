// Loading, from one question to the next.

ghost use Rattle.std.specs.Prelude.{◌≡◌, ◌<◌, suc, length, IfOk};
ghost use Rattle.record_ids.specs.Ids.{most};
ghost use Rattle.save_statements.specs.Inquiries as phases;
ghost use Rattle.save_statements.specs.Loading as spec;
ghost use Rattle.save_statements.specs.Statements.{unplaced};
ghost use Rattle.answer_replay.specs.Playing.{Plays};
ghost use Rattle.save_loading.specs.Steps as steps;

use crate::access::admitted;
use crate::new_rows::new_records;
use crate::next_rows::next_records;
use crate::old_rows::{given_ids, going_ids, old_records};
use answer_replay::{Answers, Comes, grab, replayed, rows_by};
use apex_list::Items;
use apex_num::NoMemory;
use apex_requests::Ticket;
use apex_rows::{Answer, Row};
use apex_schema::{Object, Schema};
use save_statements::{Act, Manner, Placed, Record, Replayed};
use std::alloc::Global;
use txn_overlay::Overlay;

// The rows that go on are held, and become what an update makes of them.
fn hold(
    alloc: Global,
    ticket: Ticket,
    act: Act,
    by: Manner,
    object: &Object,
    rows: &[Placed],
    records: Items<Record>,
    answers: &mut Answers<'_>,
) -> Result<Comes<Items<Record>>, NoMemory>
    requires session { suc ticket.session < most }
    requires request { ticket.index < most }
    ensures { IfOk result (λ comes. Plays (steps.held ticket act by object.now (unplaced rows.now) records) answers.old comes answers.new) }
{
    let ids = going_ids(alloc, records.as_slice())?;
    match grab(alloc, ticket, ids.as_slice(), answers)? {
        Comes::Wants(question) => Ok(Comes::Wants(question)),
        Comes::Found(()) => {
            let next = next_records(alloc, act, by, object, rows, records)?;
            Ok(Comes::Found(next))
        }
    }
}

// Access to the rows that were found is looked at, and they are held.
fn load_found(
    alloc: Global,
    schema: &Schema,
    ticket: Ticket,
    overlay: &Overlay,
    act: Act,
    by: Manner,
    object: &Object,
    rows: &[Placed],
    found: Items<Row>,
    answers: &mut Answers<'_>,
) -> Result<Comes<Items<Record>>, NoMemory>
    requires session { suc ticket.session < most }
    requires request { ticket.index < most }
    requires user { suc ticket.user < most }
    requires users { length schema.now.users < most }
    ensures { IfOk result (λ comes. Plays (steps.behind_found (record { schema = schema.now; ticket = ticket }) overlay.now act by object.now (unplaced rows.now) found) answers.old comes answers.new) }
{
    let records = old_records(alloc, found, rows)?;
    match admitted(alloc, schema, ticket, overlay, by, object, records, answers)? {
        Comes::Wants(question) => Ok(Comes::Wants(question)),
        Comes::Found(records) => hold(alloc, ticket, act, by, object, rows, records, answers),
    }
}

// The rows that are there are read, access to them is looked at, and they are held.
fn load_old(
    alloc: Global,
    schema: &Schema,
    ticket: Ticket,
    overlay: &Overlay,
    act: Act,
    by: Manner,
    number: usize,
    object: &Object,
    rows: &[Placed],
    answers: &mut Answers<'_>,
) -> Result<Comes<Items<Record>>, NoMemory>
    requires session { suc ticket.session < most }
    requires request { ticket.index < most }
    requires user { suc ticket.user < most }
    requires users { length schema.now.users < most }
    ensures { IfOk result (λ comes. Plays (spec.load_old (record { schema = schema.now; ticket = ticket }) overlay.now act by number object.now (unplaced rows.now)) answers.old comes answers.new) }
{
    let ids = given_ids(alloc, rows)?.untouched(alloc, overlay)?;
    match rows_by(alloc, overlay, number, ids.as_slice(), answers)? {
        Comes::Wants(question) => Ok(Comes::Wants(question)),
        Comes::Found(found) => load_found(
            alloc, schema, ticket, overlay, act, by, object, rows, found, answers,
        ),
    }
}

// The rows are new, or there.
fn play(
    alloc: Global,
    schema: &Schema,
    ticket: Ticket,
    overlay: &Overlay,
    act: Act,
    by: Manner,
    number: usize,
    object: &Object,
    rows: &[Placed],
    answers: &mut Answers<'_>,
) -> Result<Comes<Items<Record>>, NoMemory>
    requires session { suc ticket.session < most }
    requires request { ticket.index < most }
    requires user { suc ticket.user < most }
    requires users { length schema.now.users < most }
    ensures { IfOk result (λ comes. Plays (spec.load (record { schema = schema.now; ticket = ticket }) overlay.now act by number object.now (unplaced rows.now)) answers.old comes answers.new) }
{
    match act {
        Act::Inserting => {
            let records = new_records(alloc, ticket.user, number, object, rows)?;
            Ok(Comes::Found(records))
        }
        Act::Updating | Act::Deleting => load_old(
            alloc, schema, ticket, overlay, act, by, number, object, rows, answers,
        ),
    }
}

/// How the records of a chunk are loaded for a request, on the answers that it had so far: it comes to its records, or wants one
/// question more answered. The object is the one of this number.
pub fn load(
    alloc: Global,
    schema: &Schema,
    ticket: Ticket,
    overlay: &Overlay,
    act: Act,
    by: Manner,
    number: usize,
    object: &Object,
    rows: &[Placed],
    answers: &[Answer],
) -> Result<Replayed, NoMemory>
    requires session { suc ticket.session < most }
    requires request { ticket.index < most }
    requires user { suc ticket.user < most }
    requires users { length schema.now.users < most }
    ensures { IfOk result (λ r. r ≡ phases.replayed (spec.load (record { schema = schema.now; ticket = ticket }) overlay.now act by number object.now (unplaced rows.now)) answers.now) }
{
    let mut left = Answers::new(answers);
    let comes = play(
        alloc, schema, ticket, overlay, act, by, number, object, rows, &mut left,
    )?;
    Ok(replayed(comes))
}
