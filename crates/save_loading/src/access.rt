// Whether the user may change the rows.

ghost use Rattle.std.specs.Prelude.{◌≡◌, ◌<◌, suc, true, length, IfOk};
ghost use Rattle.record_ids.specs.Ids.{most};
ghost use Rattle.row_meaning.specs.Overlays.{merged};
ghost use Rattle.save_meaning.specs.Inserts.{rows_of_answer};
ghost use Rattle.store_inquiries.specs.Questions as questions;
ghost use Rattle.save_statements.specs.Loading as spec;
ghost use Rattle.save_statements.specs.Records.{judged as judged_by};
ghost use Rattle.answer_replay.specs.Playing.{Plays};
ghost use Rattle.save_loading.specs.Steps.{denied, judged_one};

use crate::old_rows::going_ids;
use answer_replay::{Answers, Comes, IdSet, answered, within};
use apex_list::{Boxed, Items};
use apex_num::{Cell, Id, NoMemory};
use apex_requests::Ticket;
use apex_rows::{Answer, Cond, CondOp, Path, Question, Term};
use apex_schema::{Access, Mode, Object, Schema};
use platform_errors::RecordError;
use record_ids::user_id;
use row_access::Viewer;
use save_statements::{Manner, Record};
use std::alloc::Global;
use txn_overlay::Overlay;

fn is_edit(access: Access) -> bool
    ensures { result ≡ spec.is_edit access }
{
    match access {
        Access::Edit => true,
        Access::Nothing | Access::Read => false,
    }
}

// Whether access is looked at: where code in sharing mode saves, unless everybody has it.
fn is_checked(by: Manner, object: &Object) -> bool
    ensures { result ≡ spec.is_checked by object.now }
{
    match by {
        Manner::ByCode(Mode::Sharing) => !is_edit(object.default),
        Manner::ByCode(Mode::Without) | Manner::ByRollUps => false,
    }
}

// A record that the user may change goes on.
fn admit(viewer: &Viewer<'_>, one: Record) -> Record
    ensures { result ≡ judged_one (denied viewer.now) one }
{
    match one {
        Record::Going(pending) => {
            if is_edit(viewer.access(&pending.get().row)) {
                Record::Going(pending)
            } else {
                Record::Wrong(RecordError::NoAccess)
            }
        }
        Record::Wrong(error) => Record::Wrong(error),
    }
}

// The records that the user may change go on.
fn admit_all(
    alloc: Global,
    viewer: &Viewer<'_>,
    records: Items<Record>,
) -> Result<Items<Record>, NoMemory>
    ensures { IfOk result (λ admitted. admitted ≡ judged_by (denied viewer.now) records) }
{
    let mut admitted = Items::new(alloc);
    for record in records.into_vec() {
        admitted.push(admit(viewer, record))?;
    }
    Ok(admitted)
}

// RowShare stands behind the declared objects.
fn row_share(schema: &Schema) -> usize
    ensures { result ≡ questions.row_share schema.now }
{
    schema.objects.len().saturating_sub(1)
}

// What is shared with a user of these rows.
fn shares_on(alloc: Global, ids: &[Id], user: usize) -> Result<Cond, NoMemory>
    requires { suc user < most }
    ensures { IfOk result (λ cond. cond ≡ questions.shares_on ids.now user) }
{
    let mut parts = Items::new(alloc);
    parts.push(within(alloc, 2, ids)?)?;
    let path = Path {
        parents: Items::new(alloc),
        field: 3,
    };
    let named = Term::Given(Cell::Id(user_id(user)));
    parts.push(Cond::Compare(path, CondOp::Equal, named))?;
    Ok(Cond::All(parts))
}

// The question for what is shared with a user of these rows.
fn read_shares(
    alloc: Global,
    schema: &Schema,
    user: usize,
    ids: &IdSet,
) -> Result<Question, NoMemory>
    requires { suc user < most }
    ensures { IfOk result (λ question. question ≡ Question.Read (questions.row_share schema.now) (questions.shares_on ids.now user)) }
{
    let wanted = ids.items(alloc)?;
    let cond = Boxed::new(alloc, shares_on(alloc, wanted.as_slice(), user)?)?;
    Ok(Question::Read {
        object: row_share(schema),
        cond,
    })
}

// The records that the user may change by what is shared go on.
fn admit_by(
    alloc: Global,
    schema: &Schema,
    ticket: Ticket,
    overlay: &Overlay,
    records: Items<Record>,
    answer: &Answer,
) -> Result<Items<Record>, NoMemory>
    requires user { suc ticket.user < most }
    requires users { length schema.now.users < most }
    ensures { IfOk result (λ admitted. admitted ≡
        judged_by (spec.no_access (record { schema = schema.now; ticket = ticket }) (merged overlay.now (questions.row_share schema.now) (rows_of_answer answer.now))) records) }
{
    let shares = answered(alloc, overlay, row_share(schema), answer)?;
    let viewer = Viewer::new(alloc, schema, ticket.user, shares)?;
    admit_all(alloc, &viewer, records)
}

// The records of these rows, where access is looked at.
fn admitted_by(
    alloc: Global,
    schema: &Schema,
    ticket: Ticket,
    overlay: &Overlay,
    ids: &IdSet,
    records: Items<Record>,
    answers: &mut Answers<'_>,
) -> Result<Comes<Items<Record>>, NoMemory>
    requires user { suc ticket.user < most }
    requires users { length schema.now.users < most }
    ensures { IfOk result (λ comes. Plays (spec.admitted_by (record { schema = schema.now; ticket = ticket }) overlay.now true ids.now records) answers.old comes answers.new) }
{
    if ids.is_empty() {
        return Ok(Comes::Found(records));
    }
    match answers.next() {
        Some(answer) => Ok(Comes::Found(admit_by(
            alloc, schema, ticket, overlay, records, answer,
        )?)),
        None => Ok(Comes::Wants(read_shares(alloc, schema, ticket.user, ids)?)),
    }
}

/// The records that the user may change go on, where access is looked at.
pub fn admitted(
    alloc: Global,
    schema: &Schema,
    ticket: Ticket,
    overlay: &Overlay,
    by: Manner,
    object: &Object,
    records: Items<Record>,
    answers: &mut Answers<'_>,
) -> Result<Comes<Items<Record>>, NoMemory>
    requires user { suc ticket.user < most }
    requires users { length schema.now.users < most }
    ensures { IfOk result (λ comes. Plays (spec.admitted (record { schema = schema.now; ticket = ticket }) overlay.now by object.now records) answers.old comes answers.new) }
{
    if !is_checked(by, object) {
        return Ok(Comes::Found(records));
    }
    let given = going_ids(alloc, records.as_slice())?;
    let ids = IdSet::of(alloc, given.as_slice())?;
    admitted_by(alloc, schema, ticket, overlay, &ids, records, answers)
}
