// The phases, on the answers that they had so far.

ghost use Rattle.std.specs.Prelude.{◌≡◌, ◌<◌, length, IfOk};
ghost use Rattle.apex_requests.specs.declared.request.Ticket.{Ticket};
ghost use Rattle.record_ids.specs.Ids.{most};
ghost use Rattle.save_meaning.specs.Inserts as inserts;
ghost use Rattle.save_statements.specs.Checks as spec;
ghost use Rattle.answer_replay.specs.Playing.{PlaysInto, Replays};

use crate::find::find_all;
use crate::judge::{judge_references, judge_rows};
use answer_replay::{Answers, Comes};
use apex_list::Items;
use apex_num::NoMemory;
use apex_rows::Answer;
use apex_schema::{Object, Schema};
use record_checks::Named;
use save_statements::{Act, Record};
use std::alloc::Global;
use txn_overlay::Overlay;

// The references of inserts and updates are looked up, on the answers that are left.
fn refer_left(
    alloc: Global,
    schema: &Schema,
    overlay: &Overlay,
    object: &Object,
    records: &mut Items<Record>,
    answers: &mut Answers<'_>,
) -> Result<Comes<()>, NoMemory>
    requires { length schema.now.users < most }
    ensures { IfOk result (λ comes. (ticket : Ticket) →
        PlaysInto (spec.refer_rows (record { schema = schema.now; ticket = ticket }) overlay.now object.now records.old) answers.old comes records.old records.new answers.new) }
{
    let fields = object.fields.as_slice();
    match find_all(alloc, overlay, fields, records.as_slice(), answers)? {
        Comes::Found(found) => {
            let users = schema.users.len();
            judge_references(alloc, users, object, found.as_slice(), records)?;
            Ok(Comes::Found(()))
        }
        Comes::Wants(question) => Ok(Comes::Wants(question)),
    }
}

fn refer_rows(
    alloc: Global,
    schema: &Schema,
    overlay: &Overlay,
    object: &Object,
    records: &mut Items<Record>,
    answers: &[Answer],
) -> Result<Comes<()>, NoMemory>
    requires { length schema.now.users < most }
    ensures { IfOk result (λ comes. (ticket : Ticket) →
        Replays (spec.refer_rows (record { schema = schema.now; ticket = ticket }) overlay.now object.now records.old) answers.now comes records.old records.new) }
{
    let mut left = Answers::new(answers);
    refer_left(alloc, schema, overlay, object, records, &mut left)
}

/// The phase that looks the references of records up, made on all answers that it had so far: it comes to its records, which take
/// the place of those that it had, or wants one question more answered, and these stay as they are. A delete looks nothing up.
pub fn refer(
    alloc: Global,
    schema: &Schema,
    overlay: &Overlay,
    act: Act,
    object: &Object,
    records: &mut Items<Record>,
    answers: &[Answer],
) -> Result<Comes<()>, NoMemory>
    requires { length schema.now.users < most }
    ensures { IfOk result (λ comes. (ticket : Ticket) →
        Replays (spec.refer (record { schema = schema.now; ticket = ticket }) overlay.now act object.now records.old) answers.now comes records.old records.new) }
{
    match act {
        Act::Deleting => Ok(Comes::Found(())),
        Act::Inserting | Act::Updating => {
            refer_rows(alloc, schema, overlay, object, records, answers)
        }
    }
}

// RowShare stands behind the declared objects.
fn is_row_share(schema: &Schema, object: usize) -> bool
    ensures { result ≡ inserts.is_row_share schema.now object }
{
    object < schema.objects.len() && object + 1 == schema.objects.len()
}

// The records of inserts and updates are looked at as a whole, on the answers that are left.
fn validate_left(
    alloc: Global,
    schema: &Schema,
    overlay: &Overlay,
    number: usize,
    object: &Object,
    records: &mut Items<Record>,
    answers: &mut Answers<'_>,
) -> Result<Comes<()>, NoMemory>
    requires { length schema.now.users < most }
    ensures { IfOk result (λ comes. (ticket : Ticket) →
        PlaysInto (spec.validate_rows (record { schema = schema.now; ticket = ticket }) overlay.now number object.now records.old) answers.old comes records.old records.new answers.new) }
{
    let fields = object.fields.as_slice();
    match find_all(alloc, overlay, fields, records.as_slice(), answers)? {
        Comes::Found(found) => {
            let users = schema.users.len();
            let shares = is_row_share(schema, number);
            judge_rows(alloc, users, shares, object, found.as_slice(), records)?;
            Ok(Comes::Found(()))
        }
        Comes::Wants(question) => Ok(Comes::Wants(question)),
    }
}

/// The phase that looks at the records of inserts and updates of an object by its number, made on all answers that it had so far:
/// it comes to its records, which take the place of those that it had, or wants one question more answered, and these stay as
/// they are.
pub fn validate_rows(
    alloc: Global,
    schema: &Schema,
    overlay: &Overlay,
    number: usize,
    object: &Object,
    records: &mut Items<Record>,
    answers: &[Answer],
) -> Result<Comes<()>, NoMemory>
    requires { length schema.now.users < most }
    ensures { IfOk result (λ comes. (ticket : Ticket) →
        Replays (spec.validate_rows (record { schema = schema.now; ticket = ticket }) overlay.now number object.now records.old) answers.now comes records.old records.new) }
{
    let mut left = Answers::new(answers);
    validate_left(alloc, schema, overlay, number, object, records, &mut left)
}
