// The stages of a query. One that asks is made on all answers that it had so far.

ghost use Rattle.std.specs.Prelude.{◌≡◌, IfOk};
ghost use Rattle.apex_requests.specs.declared.request.Ticket.{Ticket as TheTicket};
ghost use Rattle.apex_rows.specs.declared.query.Query.TheViews.{out-Query};
ghost use Rattle.apex_schema.specs.declared.schema.Schema.{Schema as TheSchema};
ghost use Rattle.answer_replay.specs.declared.answers.Comes.TheVariants as C;
ghost use Rattle.query_meaning.specs.Queries as queries;
ghost use Rattle.query_moves.specs.Moves as spec;
ghost use Rattle.query_moves.specs.Moves.{Move, Goes, Ends};
ghost use Rattle.query_moves.specs.declared.run.QueryRun.{QueryRun as TheRun};
ghost use Rattle.query_moves.specs.declared.run.QueryStage.TheVariants as S;
ghost use Rattle.save_meaning.specs.declared.run.TxnState.{TxnState as TheState};
ghost use Rattle.save_stages.specs.Does.{HasIds, IsSound, site_of};
ghost use Rattle.store_inquiries.specs.Inquiries.{replayed};
ghost use Rattle.soql_run.specs.Advances.{IsMove};
ghost use Rattle.soql_run.specs.Charging.{Charges};
ghost use Rattle.soql_run.specs.Doings.{IsDone, Does};

use crate::charges::{charge, charge_rows};
use crate::moved::Moved;
use crate::run::Stopped;
use answer_replay::{Answers, Comes};
use apex_list::Items;
use apex_num::{LimitKind, NoMemory};
use apex_requests::Ticket;
use apex_rows::{Answer, Found};
use apex_schema::Schema;
use limit_meter::Limit;
use platform_errors::Thrown;
use query_moves::{QueryRun, QueryStage};
use query_questions::all_numbers;
use save_meaning::TxnState;
use std::alloc::Global;

/// The greatest number that COUNT() answers.
const COUNT_MOST: usize = 2_147_483_647;

// The query goes on to a stage, where what it was charged is within the limits.
fn go_on(charged: Result<(), Limit>, stage: QueryStage, run: &mut QueryRun) -> Moved
    ensures { (next : (TheState → Move) → Move) (before : TheRun) (w v : TheState) → Charges next charged v → IsDone before w (next (λ u. Goes (spec.at run.old stage) u)) result run.new v }
{
    match charged {
        Ok(()) => {
            run.stage = stage;
            Moved::Went
        }
        Err(limit) => Moved::Stops(Stopped::Halted(limit)),
    }
}

/// The query looks at its LIMIT and OFFSET, and is charged.
pub fn begin(alloc: Global, run: &mut QueryRun, txn: &mut TxnState) -> Moved
    ensures { IsDone run.old txn.old (spec.begun (queries.all_numbers run.old.binds run.old.query) run.old txn.old) result run.new txn.new }
{
    if all_numbers(run.binds.as_slice(), run.query.get()) {
        let charged = charge(LimitKind::Queries, 1, txn);
        go_on(charged, QueryStage::Find(Items::new(alloc)), run)
    } else {
        Moved::Stops(Stopped::Threw(Thrown::InvalidLimit))
    }
}

// ---- the rows are found

// What a query finds on these answers.
fn finding(
    alloc: Global,
    schema: &Schema,
    ticket: Ticket,
    run: &QueryRun,
    answers: &[Answer],
    txn: &TxnState,
) -> Result<Comes<Items<Found>>, NoMemory>
    requires sound { IsSound schema.now }
    requires ids { HasIds ticket }
    ensures { IfOk result (λ comes. replayed C.Found C.Wants (queries.finding (site_of schema.now ticket) txn.now.overlay.now run.now.mode run.now.binds run.now.query) answers.now ≡ comes) }
{
    let mut left = Answers::new(answers);
    let overlay = txn.overlay.overlay();
    let binds = run.binds.as_slice();
    query_finding::finding(
        alloc,
        schema,
        ticket,
        overlay,
        run.mode,
        binds,
        run.query.get(),
        &mut left,
    )
}

// The rows that were found are charged.
fn came(
    alloc: Global,
    schema: &Schema,
    run: &mut QueryRun,
    found: Items<Found>,
    txn: &mut TxnState,
) -> Moved
    ensures { (ticket : TheTicket) (before : TheRun) → IsDone before txn.old (spec.came (site_of schema.now ticket) run.old txn.old found) result run.new txn.new }
{
    let charged = charge_rows(schema, run.query.get().counted, found.as_slice(), txn);
    go_on(charged, QueryStage::Hold(found, Items::new(alloc)), run)
}

/// The rows are found and charged, or it asks.
pub fn find(
    alloc: Global,
    schema: &Schema,
    ticket: Ticket,
    run: &mut QueryRun,
    answers: Items<Answer>,
    txn: &mut TxnState,
) -> Result<Moved, NoMemory>
    requires sound { IsSound schema.now }
    requires ids { HasIds ticket }
    ensures { IfOk result (λ m. Does (site_of schema.now ticket) (spec.at run.old (S.Find answers)) txn.old m run.new txn.new) }
{
    match finding(alloc, schema, ticket, run, answers.as_slice(), txn)? {
        Comes::Wants(question) => {
            run.stage = QueryStage::Find(answers);
            Ok(Moved::Stops(Stopped::Asked(question)))
        }
        Comes::Found(found) => Ok(came(alloc, schema, run, found, txn)),
    }
}

// ---- they are held

// What a query holds on these answers.
fn holding(
    alloc: Global,
    ticket: Ticket,
    locked: bool,
    found: &[Found],
    answers: &[Answer],
) -> Result<Comes<()>, NoMemory>
    requires ids { HasIds ticket }
    ensures { IfOk result (λ comes. replayed C.Found C.Wants (queries.holding ticket locked found.now) answers.now ≡ comes) }
{
    let mut left = Answers::new(answers);
    query_finding::hold(alloc, ticket, locked, found, &mut left)
}

// What a query answers: COUNT() the number of its rows, any other these.
fn answer_of(counted: bool, found: Items<Found>) -> Stopped
    ensures { (run r : TheRun) (w v : TheState) → IsMove run w (Ends (queries.answer_of counted found) v) result r v }
{
    if counted {
        let number = found.len().min(COUNT_MOST);
        Stopped::Counted(number as u32)
    } else {
        Stopped::Found(found)
    }
}

/// The rows are held where it is a query with FOR UPDATE, and the query ends; or it asks.
pub fn hold(
    alloc: Global,
    ticket: Ticket,
    run: &mut QueryRun,
    found: Items<Found>,
    answers: Items<Answer>,
) -> Result<Moved, NoMemory>
    requires ids { HasIds ticket }
    ensures { IfOk result (λ m. (schema : TheSchema) (w : TheState) → Does (site_of schema ticket) (spec.at run.old (S.Hold found answers)) w m run.new w) }
{
    let locked = run.query.get().locked;
    match holding(alloc, ticket, locked, found.as_slice(), answers.as_slice())? {
        Comes::Wants(question) => {
            run.stage = QueryStage::Hold(found, answers);
            Ok(Moved::Stops(Stopped::Asked(question)))
        }
        Comes::Found(()) => Ok(Moved::Stops(answer_of(run.query.get().counted, found))),
    }
}
