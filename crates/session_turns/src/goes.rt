// The machine of an attempt.

ghost use Rattle.std.specs.Prelude.{◌≡◌, IfOk, OnOk};
ghost use Rattle.save_stages.specs.Does.{IsSound, HasIds};
ghost use Rattle.session_turns.specs.Calls as spec;
ghost use Rattle.session_turns.specs.Calls.{Beside, MovesSo};

use crate::calls::{Next, answered, end, logged};
use crate::told::told_reply;
use apex_num::NoMemory;
use apex_requests::Ticket;
use apex_rows::{Answer, Question};
use apex_schema::Schema;
use metered_vm::{Pause, Vm, resume};
use stack_code::Image;
use std::alloc::Global;
use tenant_shards::{Log, Shard};

// A question is served, and joins the log where the request goes on with its answer.
fn asked(
    log: &mut Log,
    question: Question,
    shard: &mut Shard,
    tenant: usize,
    session: u32,
) -> Result<Next, NoMemory>
    requires may { spec.MayAsk shard.old tenant session log.old question }
    requires again { spec.MayBeginAgain shard.old tenant session log.old }
    ensures answers { IfOk result (spec.Answers tenant session log.old question shard.old shard.new) }
    ensures logged { IfOk result (spec.Logs log.old question log.new) }
    ensures beside { OnOk result (Beside tenant session shard.old shard.new) }
{
    let next = answered(shard, tenant, session, log, &question)?;
    if let Next::Goes(answer) = &next {
        logged(log, question, answer)?;
    }
    Ok(next)
}

/// Goes on with a request to its next pause, and serves that: a question, or its end.
pub fn go_on(
    alloc: Global,
    image: &Image,
    block: usize,
    schema: &Schema,
    ticket: Ticket,
    restarts: u32,
    vm: &mut Vm,
    answer: Option<Answer>,
    log: &mut Log,
    shard: &mut Shard,
    tenant: usize,
) -> Result<Next, NoMemory>
    requires sound { IsSound schema.now }
    requires ids { HasIds ticket }
    requires at { spec.IsAt schema.now image.now ticket block tenant restarts vm.old answer log.old shard.old }
    requires last { spec.IsLast tenant restarts log.old shard.old }
    ensures on { IfOk result (spec.GoesOn schema.now image.now ticket block tenant restarts log.old shard.old vm.new log.new shard.new) }
    ensures moves { IfOk result (λ next. MovesSo image.now tenant ticket.session log.old.answers (spec.later_tape next log.new.answers) shard.old shard.new) }
    ensures beside { OnOk result (Beside tenant ticket.session shard.old shard.new) }
{
    match resume(alloc, image, schema, ticket, vm, answer)? {
        Pause::End(reply, writes) => {
            let told = told_reply(reply);
            end(shard, tenant, ticket.session, log, told, writes)
        }
        Pause::Need(question) => asked(log, question, shard, tenant, ticket.session),
    }
}
