// A statement that saves, from where it stands to where it stops.

ghost use Rattle.std.specs.Prelude.{IfOk};
ghost use Rattle.save_measures.specs.Paid.{IsPaid};
ghost use Rattle.save_firings.specs.Tables.{listed};
ghost use Rattle.save_stages.specs.Does.{Does, HasIds, IsSound, site_of};
ghost use Rattle.save_moves.specs.Advances.{Advances};

use crate::asks::{load, refer, validate};
use apex_list::Items;
use apex_num::NoMemory;
use apex_requests::{Context, Ticket};
use apex_rows::Question;
use apex_schema::Schema;
use limit_meter::Limit;
use platform_errors::Thrown;
use save_firings::TriggerTable;
use save_meaning::TxnState;
use save_measures::laws_of_measures;
use save_stages::{Moved, begin, charge, count, enter, fire, next, settle, write};
use save_statements::{RecordOutcome, SaveRun, Stage};
use std::alloc::Global;
use std::mem::replace;

/// Why a statement stopped.
#[derive(Drop)]
pub enum Stopped {
    /// It asks, and waits for the answer.
    Asked(Question),
    /// The trigger of this number fires with its records, and the statement waits for what that comes to.
    Fired(usize, Context),
    /// It ended, with what came of its records in their order.
    Ended(Items<RecordOutcome>),
    /// It threw.
    Threw(Thrown),
    /// It would have passed a limit.
    Halted(Limit),
}

// The next move of a statement.
fn move_once(
    alloc: Global,
    schema: &Schema,
    ticket: Ticket,
    table: &TriggerTable,
    run: &mut SaveRun,
    txn: &mut TxnState,
) -> Result<Moved, NoMemory>
    requires sound { IsSound schema.now }
    requires ids { HasIds ticket }
    requires paid { IsPaid txn.old }
    ensures { IfOk result (λ m. Does schema.now ticket (listed table.now) run.old txn.old m run.new txn.new) }
{
    match replace(&mut run.stage, Stage::Next) {
        Stage::Charge(rows) => Ok(charge(run, rows, txn)),
        Stage::Count(rows) => count(alloc, schema, run, rows, txn),
        Stage::Next => next(alloc, run, txn),
        Stage::Begin => begin(alloc, run, txn),
        Stage::Load(answers) => load(alloc, schema, ticket, run, answers, txn),
        Stage::Enter(phase, records) => enter(alloc, table, run, phase, records, txn),
        Stage::Refer(records, answers) => refer(alloc, schema, ticket, run, records, answers, txn),
        Stage::Fire(before, triggers, entries) => fire(alloc, run, before, triggers, entries, txn),
        Stage::Validate(records, answers) => {
            validate(alloc, schema, ticket, run, records, answers, txn)
        }
        Stage::Write(before, left) => write(alloc, schema, ticket, run, before, left, txn),
        Stage::Settle(records) => settle(alloc, run, records, txn),
    }
}

/// Goes on with a statement to its next question, its next firing or its end, whatever its operation. It changes the statement,
/// the overlay, the number of Ids that were made and the counters. Want of memory leaves these in any state; the request is spent
/// then.
pub fn advance(
    alloc: Global,
    schema: &Schema,
    ticket: Ticket,
    table: &TriggerTable,
    run: &mut SaveRun,
    txn: &mut TxnState,
) -> Result<Stopped, NoMemory>
    requires sound { IsSound schema.now }
    requires ids { HasIds ticket }
    requires paid { IsPaid txn.old }
    ensures { IfOk result (λ s. Advances (site_of schema.now ticket) (listed table.now) run.old txn.old s run.new txn.new) }
{
    laws_of_measures();
    'moves: loop {
        match move_once(alloc, schema, ticket, table, run, txn)? {
            Moved::Went => {}
            Moved::Asked(question) => return Ok(Stopped::Asked(question)),
            Moved::Fired(number, context) => return Ok(Stopped::Fired(number, context)),
            Moved::Ended(outcomes) => return Ok(Stopped::Ended(outcomes)),
            Moved::Threw(thrown) => return Ok(Stopped::Threw(thrown)),
            Moved::Halted(limit) => return Ok(Stopped::Halted(limit)),
        }
    }
}
