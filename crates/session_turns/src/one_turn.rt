// A turn of a session.

ghost use Rattle.std.specs.Prelude.{◌≡◌, ◌+◌, ◌<◌, ◌≤◌, [], None, suc, length, IfOk, OnOk};
ghost use Rattle.record_ids.specs.Ids.{most};
ghost use Rattle.record_store.specs.Heaps.{rows_in};
ghost use Rattle.save_stages.specs.Does.{IsSound, HasIds};
ghost use Rattle.tenant_shards.specs.Logs.{IsCurrent};
ghost use Rattle.tenant_shards.specs.Parts as parts;
ghost use Rattle.session_turns.specs.Calls.{Beside, IsClosed};
ghost use Rattle.session_runs.specs.Sessions.{HaveUsers};
ghost use Rattle.session_turns.specs.Turns as spec;

use crate::attempt::{Attempt, Served, Standing, begun};
use crate::pause::serve;
use apex_num::NoMemory;
use apex_requests::{Request, Ticket, Work};
use apex_schema::Schema;
use stack_code::Image;
use std::alloc::{AllocError, Global};
use tenant_shards::Shard;

// The ticket of a request by its number and that of its session.
fn ticket_of(request: &Request, session: u32, index: u32) -> Ticket
    ensures { result ≡ parts.ticket_of request.entry.now session index }
{
    Ticket {
        session,
        index,
        user: request.user,
        now: request.now,
    }
}

// An attempt that began again three times goes on to its end, in which no answer differs.
fn finish(
    alloc: Global,
    schema: &Schema,
    image: &Image,
    work: &Work,
    ticket: Ticket,
    attempt: &mut Attempt,
    shard: &mut Shard,
    tenant: usize,
) -> Result<(), NoMemory>
    requires sound { IsSound schema.now }
    requires ids { HasIds ticket }
    requires tried { spec.IsTried schema.now image.now ticket work.now tenant attempt.old shard.old }
    requires last { attempt.old.restarts ≡ 3 }
    requires current { IsCurrent (rows_in tenant shard.old.rows) attempt.old.log }
    ensures closed { OnOk result (IsClosed tenant ticket.session (ticket.index + 1) shard.new) }
    ensures finishes { OnOk result (spec.FinishesSo image.now tenant ticket.session attempt.old.log.answers shard.old shard.new) }
    ensures beside { OnOk result (Beside tenant ticket.session shard.old shard.new) }
{
    'pauses: for _ in 0..u64::MAX {
        match serve(alloc, schema, image, work, ticket, attempt, shard, tenant)? {
            Served::Waits => {}
            Served::Closed => return Ok(()),
            // (nothing else changes on the way)
            Served::Restarted => unreachable!(),
        }
    }
    // (no request asks that often)
    Err(AllocError)
}

// The turn of an attempt, and whether its request is closed then.
fn goes_on(
    alloc: Global,
    schema: &Schema,
    image: &Image,
    work: &Work,
    ticket: Ticket,
    attempt: &mut Attempt,
    shard: &mut Shard,
    tenant: usize,
) -> Result<bool, NoMemory>
    requires sound { IsSound schema.now }
    requires ids { HasIds ticket }
    requires tried { spec.IsTried schema.now image.now ticket work.now tenant attempt.old shard.old }
    requires last { attempt.old.restarts ≡ 3 → spec.IsEmpty attempt.old.log }
    ensures goes { IfOk result (λ over. spec.IsAfter schema.now image.now ticket work.now tenant attempt.new shard.new over) }
    ensures turns { IfOk result (λ over. spec.TurnsSo image.now tenant ticket.session attempt.old.log.answers (spec.tape_left over attempt.new) shard.old shard.new) }
    ensures beside { OnOk result (Beside tenant ticket.session shard.old shard.new) }
{
    if attempt.restarts >= 3 {
        finish(alloc, schema, image, work, ticket, attempt, shard, tenant)?;
        return Ok(true);
    }
    match serve(alloc, schema, image, work, ticket, attempt, shard, tenant)? {
        Served::Closed => Ok(true),
        Served::Waits | Served::Restarted => Ok(false),
    }
}

// The turn of a session with no open request: its next one begins.
fn begins(
    alloc: Global,
    schema: &Schema,
    image: &Image,
    request: &Request,
    shard: &mut Shard,
    tenant: usize,
    session: u32,
    standing: &mut Standing,
) -> Result<(), NoMemory>
    requires none { standing.old.running ≡ None }
    requires has { spec.HasRequest schema.now image.now request.now tenant session standing.old.closed shard.old }
    requires closed { IsClosed tenant session standing.old.closed shard.old }
    ensures begins { OnOk result (spec.Begins schema.now image.now request.entry.now tenant session standing.old standing.new shard.new) }
    ensures turns { OnOk result (spec.TurnsSo image.now tenant session [] (spec.tape_of standing.new) shard.old shard.new) }
    ensures beside { OnOk result (Beside tenant session shard.old shard.new) }
{
    shard.start(tenant, session)?;
    standing.running = Some(begun(alloc, image, &request.work, 0));
    Ok(())
}

/// A turn of a session that has a request that isn't closed. Where none is open, its next one begins. Otherwise the attempt of
/// the open one goes on to its next pause, and that is served; one that began again three times goes on to its end.
pub fn turn(
    alloc: Global,
    schema: &Schema,
    image: &Image,
    requests: &[Request],
    shard: &mut Shard,
    tenant: usize,
    session: u32,
    standing: &mut Standing,
) -> Result<(), NoMemory>
    requires sound { IsSound schema.now }
    requires few { length requests.now ≤ 1000000 }
    requires users { HaveUsers requests.now }
    requires id { suc session < most }
    requires has { spec.HasRequests schema.now image.now requests.now tenant session shard.old }
    requires stands { spec.Stands schema.now image.now requests.now tenant session standing.old shard.old }
    requires unfinished { standing.old.closed < length requests.now }
    ensures stands { OnOk result (spec.Stands schema.now image.now requests.now tenant session standing.new shard.new) }
    ensures turns { OnOk result (spec.TurnsSo image.now tenant session (spec.tape_of standing.old) (spec.tape_of standing.new) shard.old shard.new) }
    ensures beside { OnOk result (Beside tenant session shard.old shard.new) }
{
    let index = standing.closed;
    let request = &requests[index as usize];
    match &mut standing.running {
        Some(attempt) => {
            let ticket = ticket_of(request, session, index);
            let work = &request.work;
            if goes_on(alloc, schema, image, work, ticket, attempt, shard, tenant)? {
                *standing = Standing::closed(index + 1);
            }
            Ok(())
        }
        None => begins(
            alloc, schema, image, request, shard, tenant, session, standing,
        ),
    }
}
