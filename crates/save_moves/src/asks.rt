// The stages that ask: each is made on all answers that it had so far.

ghost use Rattle.std.specs.Prelude.{◌≡◌, Some, slice_get, IfOk};
ghost use Rattle.save_statements.specs.declared.run.Stage.TheVariants as S;
ghost use Rattle.save_statements.specs.Checks as checks;
ghost use Rattle.save_statements.specs.Inquiries.{replayed};
ghost use Rattle.save_statements.specs.Loading as loading;
ghost use Rattle.save_statements.specs.Moves as spec;
ghost use Rattle.save_statements.specs.Statements.{unplaced};
ghost use Rattle.answer_replay.specs.Playing.{Replays};
ghost use Rattle.save_stages.specs.Does.{Does, HasIds, IsSound, Triggers, site_of};

use answer_replay::Comes;
use apex_list::Items;
use apex_num::NoMemory;
use apex_requests::Ticket;
use apex_rows::Answer;
use apex_schema::{Object, Schema};
use save_deletes::validate_delete;
use save_meaning::TxnState;
use save_references::validate_rows;
use save_stages::{Moved, without_object};
use save_statements::{Act, Phase, Record, Replayed, SaveRun, Stage};
use std::alloc::Global;
use txn_overlay::Overlay;

// ---- loading

// What loading comes to.
fn loaded(
    alloc: Global,
    schema: &Schema,
    ticket: Ticket,
    object: &Object,
    run: &SaveRun,
    answers: &[Answer],
    txn: &TxnState,
) -> Result<Replayed, NoMemory>
    requires sound { IsSound schema.now }
    requires ids { HasIds ticket }
    ensures { IfOk result (λ r. r ≡ replayed (loading.load (site_of schema.now ticket) txn.now.overlay.now run.now.act run.now.by run.now.object object.now (unplaced run.now.rows)) answers.now) }
{
    let rows = run.rows.as_slice();
    let overlay = txn.overlay.overlay();
    save_loading::load(
        alloc, schema, ticket, overlay, run.act, run.by, run.object, object, rows, answers,
    )
}

// The records of the chunk are loaded, or it asks.
fn load_chunk(
    alloc: Global,
    schema: &Schema,
    ticket: Ticket,
    object: &Object,
    run: &mut SaveRun,
    answers: Items<Answer>,
    txn: &TxnState,
) -> Result<Moved, NoMemory>
    requires object { slice_get schema.now.objects run.old.object ≡ Some object.now }
    requires sound { IsSound schema.now }
    requires ids { HasIds ticket }
    ensures { IfOk result (λ m. (triggers : Triggers) → Does schema.now ticket triggers (spec.at run.old (S.Load answers)) txn.now m run.new txn.now) }
{
    let told = answers.as_slice();
    match loaded(alloc, schema, ticket, object, run, told, txn)? {
        Replayed::Came(records) => {
            run.stage = Stage::Enter(Phase::Refer, records);
            Ok(Moved::Went)
        }
        Replayed::Wants(question) => {
            run.stage = Stage::Load(answers);
            Ok(Moved::Asked(question))
        }
    }
}

/// The records of the chunk are loaded, or it asks.
pub fn load(
    alloc: Global,
    schema: &Schema,
    ticket: Ticket,
    run: &mut SaveRun,
    answers: Items<Answer>,
    txn: &TxnState,
) -> Result<Moved, NoMemory>
    requires sound { IsSound schema.now }
    requires ids { HasIds ticket }
    ensures { IfOk result (λ m. (triggers : Triggers) → Does schema.now ticket triggers (spec.at run.old (S.Load answers)) txn.now m run.new txn.now) }
{
    match schema.objects.get(run.object) {
        None => without_object(alloc, run),
        Some(object) => load_chunk(alloc, schema, ticket, object, run, answers, txn),
    }
}

// ---- references

// The references of the records are looked up, or it asks.
fn refer_records(
    alloc: Global,
    schema: &Schema,
    ticket: Ticket,
    object: &Object,
    run: &mut SaveRun,
    records: Items<Record>,
    answers: Items<Answer>,
    txn: &TxnState,
) -> Result<Moved, NoMemory>
    requires object { slice_get schema.now.objects run.old.object ≡ Some object.now }
    requires sound { IsSound schema.now }
    ensures { IfOk result (λ m. (triggers : Triggers) → Does schema.now ticket triggers (spec.at run.old (S.Refer records answers)) txn.now m run.new txn.now) }
{
    let mut rest = records;
    let told = answers.as_slice();
    let overlay = txn.overlay.overlay();
    match save_references::refer(alloc, schema, overlay, run.act, object, &mut rest, told)? {
        Comes::Wants(question) => {
            run.stage = Stage::Refer(rest, answers);
            Ok(Moved::Asked(question))
        }
        Comes::Found(()) => {
            run.stage = Stage::Enter(Phase::Before, rest);
            Ok(Moved::Went)
        }
    }
}

/// The references of the records are looked up, or it asks.
pub fn refer(
    alloc: Global,
    schema: &Schema,
    ticket: Ticket,
    run: &mut SaveRun,
    records: Items<Record>,
    answers: Items<Answer>,
    txn: &TxnState,
) -> Result<Moved, NoMemory>
    requires sound { IsSound schema.now }
    ensures { IfOk result (λ m. (triggers : Triggers) → Does schema.now ticket triggers (spec.at run.old (S.Refer records answers)) txn.now m run.new txn.now) }
{
    match schema.objects.get(run.object) {
        None => without_object(alloc, run),
        Some(object) => refer_records(alloc, schema, ticket, object, run, records, answers, txn),
    }
}

// ---- validation

// What the validation of the records of inserts and updates comes to.
fn validated_rows(
    alloc: Global,
    schema: &Schema,
    ticket: Ticket,
    overlay: &Overlay,
    number: usize,
    object: &Object,
    records: &mut Items<Record>,
    answers: &[Answer],
) -> Result<Comes<()>, NoMemory>
    requires sound { IsSound schema.now }
    ensures { IfOk result (λ comes. Replays (checks.validate_rows (site_of schema.now ticket) overlay.now number object.now records.old) answers.now comes records.old records.new) }
{
    validate_rows(alloc, schema, overlay, number, object, records, answers)
}

// What the validation of the records comes to: in a delete of what goes with them, and else of the records as a whole.
fn validated(
    alloc: Global,
    schema: &Schema,
    ticket: Ticket,
    overlay: &Overlay,
    act: Act,
    number: usize,
    object: &Object,
    records: &mut Items<Record>,
    answers: &[Answer],
) -> Result<Comes<()>, NoMemory>
    requires sound { IsSound schema.now }
    requires ids { HasIds ticket }
    ensures { IfOk result (λ comes. Replays (checks.validate (site_of schema.now ticket) overlay.now act number object.now records.old) answers.now comes records.old records.new) }
{
    match act {
        Act::Deleting => validate_delete(alloc, schema, ticket, overlay, records, answers),
        Act::Inserting | Act::Updating => validated_rows(
            alloc, schema, ticket, overlay, number, object, records, answers,
        ),
    }
}

// The records are looked at, or it asks.
fn validate_records(
    alloc: Global,
    schema: &Schema,
    ticket: Ticket,
    object: &Object,
    run: &mut SaveRun,
    records: Items<Record>,
    answers: Items<Answer>,
    txn: &TxnState,
) -> Result<Moved, NoMemory>
    requires object { slice_get schema.now.objects run.old.object ≡ Some object.now }
    requires sound { IsSound schema.now }
    requires ids { HasIds ticket }
    ensures { IfOk result (λ m. (triggers : Triggers) → Does schema.now ticket triggers (spec.at run.old (S.Validate records answers)) txn.now m run.new txn.now) }
{
    let mut rest = records;
    let told = answers.as_slice();
    let overlay = txn.overlay.overlay();
    let (act, number) = (run.act, run.object);
    match validated(
        alloc, schema, ticket, overlay, act, number, object, &mut rest, told,
    )? {
        Comes::Wants(question) => {
            run.stage = Stage::Validate(rest, answers);
            Ok(Moved::Asked(question))
        }
        Comes::Found(()) => {
            run.stage = Stage::Enter(Phase::Write, rest);
            Ok(Moved::Went)
        }
    }
}

/// The records are looked at, or it asks.
pub fn validate(
    alloc: Global,
    schema: &Schema,
    ticket: Ticket,
    run: &mut SaveRun,
    records: Items<Record>,
    answers: Items<Answer>,
    txn: &TxnState,
) -> Result<Moved, NoMemory>
    requires sound { IsSound schema.now }
    requires ids { HasIds ticket }
    ensures { IfOk result (λ m. (triggers : Triggers) → Does schema.now ticket triggers (spec.at run.old (S.Validate records answers)) txn.now m run.new txn.now) }
{
    match schema.objects.get(run.object) {
        None => without_object(alloc, run),
        Some(object) => validate_records(alloc, schema, ticket, object, run, records, answers, txn),
    }
}
