// A query, from where it stands to where it stops.

ghost use Rattle.std.specs.Prelude.{IfOk};
ghost use Rattle.save_measures.specs.Paid.{IsPaid};
ghost use Rattle.save_stages.specs.Does.{HasIds, IsSound, site_of};
ghost use Rattle.soql_run.specs.Advances.{Advances};
ghost use Rattle.soql_run.specs.Doings.{Does};

use crate::moved::Moved;
use crate::stages::{begin, find, hold};
use apex_list::Items;
use apex_num::NoMemory;
use apex_requests::Ticket;
use apex_rows::{Found, Question};
use apex_schema::Schema;
use limit_meter::Limit;
use platform_errors::Thrown;
use query_moves::{QueryRun, QueryStage};
use save_meaning::TxnState;
use std::alloc::Global;
use std::mem::replace;

/// Why a query stopped.
#[derive(Drop)]
pub enum Stopped {
    /// It asks, and waits for the answer.
    Asked(Question),
    /// A COUNT() ended with this number.
    Counted(u32),
    /// It ended with these rows.
    Found(Items<Found>),
    /// It threw.
    Threw(Thrown),
    /// It would have passed a limit.
    Halted(Limit),
}

// The next move of a query.
fn move_once(
    alloc: Global,
    schema: &Schema,
    ticket: Ticket,
    run: &mut QueryRun,
    txn: &mut TxnState,
) -> Result<Moved, NoMemory>
    requires sound { IsSound schema.now }
    requires ids { HasIds ticket }
    ensures { IfOk result (λ m. Does (site_of schema.now ticket) run.old txn.old m run.new txn.new) }
{
    match replace(&mut run.stage, QueryStage::Begin) {
        QueryStage::Begin => Ok(begin(alloc, run, txn)),
        QueryStage::Find(answers) => find(alloc, schema, ticket, run, answers, txn),
        QueryStage::Hold(found, answers) => hold(alloc, ticket, run, found, answers),
    }
}

/// Goes on with a query to its next question or its end. It changes the query and the counters. Want of memory leaves these in any
/// state; the request is spent then.
pub fn advance(
    alloc: Global,
    schema: &Schema,
    ticket: Ticket,
    run: &mut QueryRun,
    txn: &mut TxnState,
) -> Result<Stopped, NoMemory>
    requires sound { IsSound schema.now }
    requires ids { HasIds ticket }
    requires paid { IsPaid txn.old }
    ensures { IfOk result (λ s. Advances (site_of schema.now ticket) run.old txn.old s run.new txn.new) }
{
    'moves: loop {
        match move_once(alloc, schema, ticket, run, txn)? {
            Moved::Went => {}
            Moved::Stops(stopped) => return Ok(stopped),
        }
    }
}
