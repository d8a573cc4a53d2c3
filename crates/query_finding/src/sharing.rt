// The rows that a user sees.

ghost use Rattle.std.specs.Prelude.{◌≡◌, ◌<◌, suc, length, slice_get, filter, IfOk};
ghost use Rattle.apex_requests.specs.declared.request.Ticket.{Ticket as TheTicket};
ghost use Rattle.apex_rows.specs.declared.row.Row.{Row as TheRow};
ghost use Rattle.record_ids.specs.Ids.{most};
ghost use Rattle.row_meaning.specs.Accesses as accesses;
ghost use Rattle.row_meaning.specs.Overlays.{Overlay as Changes, merged};
ghost use Rattle.row_meaning.specs.Queries as rules;
ghost use Rattle.save_meaning.specs.Inserts.{ids_of, rows_of_answer};
ghost use Rattle.store_inquiries.specs.Questions as questions;
ghost use Rattle.query_meaning.specs.Queries as spec;
ghost use Rattle.answer_replay.specs.Playing.{Plays};
ghost use Rattle.query_finding.specs.Steps.{looked_at, site_of};

use answer_replay::{Answers, Comes, answered};
use apex_list::Items;
use apex_num::NoMemory;
use apex_requests::Ticket;
use apex_rows::{Answer, Question, Row};
use apex_schema::{Access, Mode, Schema};
use query_questions::{rising, shares_on};
use query_rows::seen_by;
use row_access::Viewer;
use std::alloc::Global;
use txn_overlay::Overlay;

fn is_visible(access: Access) -> bool
    ensures { result ≡ rules.is_visible access }
{
    match access {
        Access::Nothing => false,
        Access::Read | Access::Edit => true,
    }
}

// Everybody's access to the rows of an object.
fn default_of(schema: &Schema, object: usize) -> Access
    ensures { result ≡ accesses.default_of (slice_get schema.now.objects object) }
{
    match schema.objects.get(object) {
        Some(object) => object.default,
        None => Access::Nothing,
    }
}

// Whether rows of an object are hidden from others.
fn is_hidden(schema: &Schema, mode: Mode, object: usize) -> bool
    ensures { (ticket : TheTicket) (overlay : Changes) → result ≡ spec.is_hidden (site_of schema.now ticket) overlay mode object }
{
    match mode {
        Mode::Sharing => !is_visible(default_of(schema, object)),
        Mode::Without => false,
    }
}

// RowShare stands behind the declared objects.
fn row_share(schema: &Schema) -> usize
    ensures { result ≡ questions.row_share schema.now }
{
    schema.objects.len().saturating_sub(1)
}

// The question for what is shared with a user of rows.
fn read_shares(
    alloc: Global,
    schema: &Schema,
    user: usize,
    rows: &[Row],
) -> Result<Question, NoMemory>
    requires { suc user < most }
    ensures { IfOk result (λ question. question ≡ Question.Read (questions.row_share schema.now) (questions.shares_on (questions.rising (ids_of rows.now)) user)) }
{
    let ids = rising(alloc, rows)?;
    let cond = shares_on(alloc, ids.as_slice(), user)?;
    Ok(Question::Read {
        object: row_share(schema),
        cond,
    })
}

// The rows that a user sees, where this is shared.
fn seen(
    alloc: Global,
    schema: &Schema,
    user: usize,
    shares: Items<Row>,
    rows: Items<Row>,
) -> Result<Items<Row>, NoMemory>
    requires user { suc user < most }
    requires users { length schema.now.users < most }
    ensures { IfOk result (λ seen. seen ≡ filter (λ (r : TheRow). rules.is_visible (accesses.access schema.now user r shares)) rows) }
{
    let viewer = Viewer::new(alloc, schema, user, shares)?;
    Ok(Items::of(seen_by(alloc, &viewer, rows.into_vec())?))
}

// The rows that a user sees by an answer.
fn seen_in(
    alloc: Global,
    schema: &Schema,
    user: usize,
    overlay: &Overlay,
    answer: &Answer,
    rows: Items<Row>,
) -> Result<Items<Row>, NoMemory>
    requires user { suc user < most }
    requires users { length schema.now.users < most }
    ensures { IfOk result (λ seen. seen ≡ filter (λ (r : TheRow). rules.is_visible (accesses.access schema.now user r (merged overlay.now (questions.row_share schema.now) (rows_of_answer answer.now)))) rows) }
{
    let shares = answered(alloc, overlay, row_share(schema), answer)?;
    seen(alloc, schema, user, shares, rows)
}

// The rows that the user sees by what is shared, which is asked for.
fn look_at(
    alloc: Global,
    schema: &Schema,
    ticket: Ticket,
    overlay: &Overlay,
    rows: Items<Row>,
    answers: &mut Answers<'_>,
) -> Result<Comes<Items<Row>>, NoMemory>
    requires user { suc ticket.user < most }
    requires users { length schema.now.users < most }
    ensures { IfOk result (λ comes. Plays (looked_at (site_of schema.now ticket) overlay.now rows) answers.old comes answers.new) }
{
    match answers.next() {
        Some(answer) => Ok(Comes::Found(seen_in(
            alloc,
            schema,
            ticket.user,
            overlay,
            answer,
            rows,
        )?)),
        None => Ok(Comes::Wants(read_shares(alloc, schema, ticket.user, rows.as_slice())?)),
    }
}

/// The rows of an object that the user sees: one question, where rows of it are hidden from others and there are some.
pub fn shown(
    alloc: Global,
    schema: &Schema,
    ticket: Ticket,
    overlay: &Overlay,
    mode: Mode,
    object: usize,
    rows: Items<Row>,
    answers: &mut Answers<'_>,
) -> Result<Comes<Items<Row>>, NoMemory>
    requires user { suc ticket.user < most }
    requires users { length schema.now.users < most }
    ensures { IfOk result (λ comes. Plays (spec.shown_by (site_of schema.now ticket) overlay.now (spec.is_hidden (site_of schema.now ticket) overlay.now mode object) rows) answers.old comes answers.new) }
{
    if !is_hidden(schema, mode, object) {
        return Ok(Comes::Found(rows));
    }
    if rows.is_empty() {
        return Ok(Comes::Found(rows));
    }
    look_at(alloc, schema, ticket, overlay, rows, answers)
}
