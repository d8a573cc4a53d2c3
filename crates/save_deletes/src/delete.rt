// The validation of a delete.

ghost use Rattle.std.specs.Prelude.{◌≡◌, ◌<◌, suc, IfOk, OnOk};
ghost use Rattle.record_ids.specs.Ids.{most};
ghost use Rattle.save_statements.specs.Checks as spec;
ghost use Rattle.answer_replay.specs.Playing.{PlaysInto, Replays};
ghost use Rattle.save_deletes.specs.Downward.{settled_records, site_of, with_levels};

use crate::asks::{all_levels, naming_gone};
use answer_replay::{Answers, Comes};
use apex_list::Items;
use apex_num::NoMemory;
use apex_requests::Ticket;
use apex_rows::{Answer, Row};
use apex_schema::Schema;
use delete_cascades::{masters, settle};
use save_statements::{Naming, Record};
use std::alloc::Global;
use std::mem;
use txn_overlay::Overlay;

// The records with all that goes with them, or wrong.
fn settle_found(
    alloc: Global,
    schema: &Schema,
    levels: Items<Items<Row>>,
    found: &[(Naming, Items<Row>)],
    records: &mut Items<Record>,
) -> Result<(), NoMemory>
    ensures { OnOk result (records.new ≡ settled_records schema.now levels records.old found.now) }
{
    let masters = masters(alloc, schema)?;
    let old = mem::replace(records, Items::new(alloc));
    *records = settle(alloc, masters.as_slice(), levels, found, old)?;
    Ok(())
}

// The records, where these levels go with them.
fn play_with(
    alloc: Global,
    schema: &Schema,
    overlay: &Overlay,
    levels: Items<Items<Row>>,
    records: &mut Items<Record>,
    answers: &mut Answers<'_>,
) -> Result<Comes<()>, NoMemory>
    ensures { IfOk result (λ comes. PlaysInto (with_levels schema.now overlay.now records.old levels) answers.old comes records.old records.new answers.new) }
{
    let found = match naming_gone(
        alloc,
        schema,
        overlay,
        records.as_slice(),
        levels.as_slice(),
        answers,
    )? {
        Comes::Wants(question) => return Ok(Comes::Wants(question)),
        Comes::Found(found) => found,
    };
    settle_found(alloc, schema, levels, found.as_slice(), records)?;
    Ok(Comes::Found(()))
}

/// The records of a delete on the answers that are left: the rows under them, level by level, which are held; the rows that name
/// what goes; and then each record with all that goes with it, or wrong where a row that stays names some of that. Where an answer
/// is wanting the records stay as they were.
pub fn play_delete(
    alloc: Global,
    schema: &Schema,
    ticket: Ticket,
    overlay: &Overlay,
    records: &mut Items<Record>,
    answers: &mut Answers<'_>,
) -> Result<Comes<()>, NoMemory>
    requires session { suc ticket.session < most }
    requires request { ticket.index < most }
    ensures { IfOk result (λ comes. PlaysInto (spec.validate_delete (site_of schema.now ticket) overlay.now records.old) answers.old comes records.old records.new answers.new) }
{
    match all_levels(alloc, schema, ticket, overlay, records.as_slice(), answers)? {
        Comes::Wants(question) => Ok(Comes::Wants(question)),
        Comes::Found(levels) => play_with(alloc, schema, overlay, levels, records, answers),
    }
}

/// The validation of a delete, made on all answers that it had so far: its records, or the question that it wants answered next.
/// The time that it takes grows about with the rows that it looks at.
pub fn validate_delete(
    alloc: Global,
    schema: &Schema,
    ticket: Ticket,
    overlay: &Overlay,
    records: &mut Items<Record>,
    answers: &[Answer],
) -> Result<Comes<()>, NoMemory>
    requires session { suc ticket.session < most }
    requires request { ticket.index < most }
    ensures { IfOk result (λ comes. Replays (spec.validate_delete (site_of schema.now ticket) overlay.now records.old) answers.now comes records.old records.new) }
{
    let mut left = Answers::new(answers);
    play_delete(alloc, schema, ticket, overlay, records, &mut left)
}
