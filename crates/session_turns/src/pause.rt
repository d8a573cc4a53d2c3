// One pause of an attempt.

ghost use Rattle.std.specs.Prelude.{◌≡◌, ◌+◌, [], false, IfOk, OnOk};
ghost use Rattle.save_stages.specs.Does.{IsSound, HasIds};
ghost use Rattle.session_turns.specs.Calls as spec;
ghost use Rattle.session_turns.specs.Calls.{Beside, MovesSo};
ghost use Rattle.session_turns.specs.Turns as turns;

use crate::attempt::{Attempt, Paused, Served, begun};
use crate::calls::{Next, end};
use crate::goes::go_on;
use apex_num::NoMemory;
use apex_requests::{Ticket, Work};
use apex_schema::Schema;
use fault_words::Fault;
use request_states::{no_writes, not_yet, refusal};
use stack_code::Image;
use std::alloc::Global;
use std::mem::replace;
use tenant_shards::{Log, Shard};

// Why a request is refused that has no machine.
fn why(alloc: Global, work: &Work) -> Result<Fault, NoMemory>
    ensures { IfOk result (λ fault. fault ≡ turns.why work.now) }
{
    match work {
        Work::Apex(_) | Work::Save { .. } => not_yet(alloc),
        Work::Refused(fault) => fault.copy(),
    }
}

// A request that is refused before it asks anything ends.
fn refuse(
    alloc: Global,
    schema: &Schema,
    image: &Image,
    work: &Work,
    ticket: Ticket,
    log: &Log,
    restarts: u32,
    shard: &mut Shard,
    tenant: usize,
) -> Result<(), NoMemory>
    requires on { spec.IsOn schema.now image.now ticket work.now tenant restarts log.now shard.old }
    requires refused { turns.is_run image.now work.now ≡ false }
    requires empty { turns.IsEmpty log.now }
    ensures closed { OnOk result (spec.IsClosed tenant ticket.session (ticket.index + 1) shard.new) }
    ensures moves { OnOk result (MovesSo image.now tenant ticket.session log.now.answers [] shard.old shard.new) }
    ensures beside { OnOk result (Beside tenant ticket.session shard.old shard.new) }
{
    let reply = refusal(alloc, why(alloc, work)?);
    match end(shard, tenant, ticket.session, log, reply, no_writes(alloc))? {
        Next::Over => Ok(()),
        // (it has no answer that could differ)
        Next::Goes(_) | Next::Again => unreachable!(),
    }
}

// The machine goes on to its next pause, and that is served.
fn run_machine(
    alloc: Global,
    schema: &Schema,
    image: &Image,
    ticket: Ticket,
    restarts: u32,
    machine: &mut Paused,
    log: &mut Log,
    shard: &mut Shard,
    tenant: usize,
) -> Result<Served, NoMemory>
    requires sound { IsSound schema.now }
    requires ids { HasIds ticket }
    requires at { turns.IsAtMachine schema.now image.now ticket tenant restarts machine.old log.old shard.old }
    requires last { spec.IsLast tenant restarts log.old shard.old }
    ensures on { IfOk result (turns.MachineGoes schema.now image.now ticket tenant restarts machine.old log.old shard.old machine.new log.new shard.new) }
    ensures moves { IfOk result (λ served. MovesSo image.now tenant ticket.session log.old.answers (turns.tape_behind served log.new) shard.old shard.new) }
    ensures beside { OnOk result (Beside tenant ticket.session shard.old shard.new) }
{
    let answer = replace(&mut machine.answer, None);
    match go_on(
        alloc,
        image,
        machine.block,
        schema,
        ticket,
        restarts,
        &mut machine.vm,
        answer,
        log,
        shard,
        tenant,
    )? {
        Next::Goes(next) => {
            machine.answer = Some(next);
            Ok(Served::Waits)
        }
        Next::Again => Ok(Served::Restarted),
        Next::Over => Ok(Served::Closed),
    }
}

// The attempt goes on to its next pause, and that is served; where the request begins again, its attempt still has to.
fn pause(
    alloc: Global,
    schema: &Schema,
    image: &Image,
    work: &Work,
    ticket: Ticket,
    attempt: &mut Attempt,
    shard: &mut Shard,
    tenant: usize,
) -> Result<Served, NoMemory>
    requires sound { IsSound schema.now }
    requires ids { HasIds ticket }
    requires tried { turns.IsTried schema.now image.now ticket work.now tenant attempt.old shard.old }
    requires last { spec.IsLast tenant attempt.old.restarts attempt.old.log shard.old }
    ensures paused { IfOk result (turns.IsPaused schema.now image.now ticket work.now tenant attempt.old shard.old attempt.new shard.new) }
    ensures moves { IfOk result (λ served. MovesSo image.now tenant ticket.session attempt.old.log.answers (turns.tape_behind served attempt.new.log) shard.old shard.new) }
    ensures beside { OnOk result (Beside tenant ticket.session shard.old shard.new) }
{
    let restarts = attempt.restarts;
    match &mut attempt.machine {
        Some(machine) => run_machine(
            alloc,
            schema,
            image,
            ticket,
            restarts,
            machine,
            &mut attempt.log,
            shard,
            tenant,
        ),
        None => {
            let log = &attempt.log;
            refuse(
                alloc, schema, image, work, ticket, log, restarts, shard, tenant,
            )?;
            Ok(Served::Closed)
        }
    }
}

/// The open request's attempt goes on to its next pause, and that is served: rows that it asks for are answered; rows that it
/// asks for alone are granted, or another session holds one of them and the request is closed; at its end it is closed. Where an
/// answer that it had differs now at one of the latter two, the request begins again, which it did fewer than three times.
pub fn serve(
    alloc: Global,
    schema: &Schema,
    image: &Image,
    work: &Work,
    ticket: Ticket,
    attempt: &mut Attempt,
    shard: &mut Shard,
    tenant: usize,
) -> Result<Served, NoMemory>
    requires sound { IsSound schema.now }
    requires ids { HasIds ticket }
    requires tried { turns.IsTried schema.now image.now ticket work.now tenant attempt.old shard.old }
    requires last { spec.IsLast tenant attempt.old.restarts attempt.old.log shard.old }
    ensures served { IfOk result (turns.IsServed schema.now image.now ticket work.now tenant attempt.old shard.old attempt.new shard.new) }
    ensures moves { IfOk result (λ served. MovesSo image.now tenant ticket.session attempt.old.log.answers (turns.tape_behind served attempt.new.log) shard.old shard.new) }
    ensures beside { OnOk result (Beside tenant ticket.session shard.old shard.new) }
{
    let restarts = attempt.restarts;
    let served = pause(alloc, schema, image, work, ticket, attempt, shard, tenant)?;
    if let Served::Restarted = served {
        *attempt = begun(alloc, image, work, restarts + 1);
    }
    Ok(served)
}
