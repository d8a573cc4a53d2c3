// An image where there are no rows.

ghost use Rattle.std.specs.Prelude.{◌≡◌, [], None, IfOk};
ghost use Rattle.record_store.specs.Places.{answer_to};
ghost use Rattle.save_stages.specs.Does.{IsSound, HasIds};
ghost use Rattle.stack_code.specs.Checked.{IsChecked};
ghost use Rattle.session_runs.specs.Blocks.{IsAt, RunsTo, told_of};

use apex_list::Items;
use apex_num::NoMemory;
use apex_requests::{Outcome, Reply, Ticket};
use apex_rows::{Answer, Question, Writes};
use apex_schema::Schema;
use metered_vm::{Pause, Vm, resume, start};
use stack_code::Image;
use std::alloc::{AllocError, Global};

// The number of steps that a reply tells: a refused one tells none.
fn told(outcome: &Outcome, ops: u64) -> u64
    ensures { result ≡ told_of outcome.now ops }
{
    match outcome {
        Outcome::Ok | Outcome::Thrown(..) | Outcome::Limit(..) => ops,
        Outcome::Refused(_) => 0,
    }
}

// The reply of a request, with the number of steps that it tells.
fn told_reply(reply: Reply) -> Reply
    ensures { result ≡ record reply { ops = told_of reply.outcome reply.ops } }
{
    let mut reply = reply;
    reply.ops = told(&reply.outcome, reply.ops);
    reply
}

// What no rows answer.
fn answer_none(alloc: Global, question: &Question) -> Answer
    ensures { result ≡ answer_to [] question.now }
{
    match question {
        Question::Read { .. } => Answer::Rows(Items::new(alloc)),
        Question::Grab { .. } => Answer::Granted,
    }
}

// Goes on with a request from its start to its end where there are no rows.
fn run_without(
    alloc: Global,
    image: &Image,
    block: usize,
    schema: &Schema,
    ticket: Ticket,
    vm: &mut Vm,
) -> Result<(Reply, Writes), NoMemory>
    requires sound { IsSound schema.now }
    requires ids { HasIds ticket }
    requires first { IsAt schema.now ticket image.now block [] vm.old None }
    ensures { IfOk result (λ e. RunsTo schema.now ticket image.now block [] e.0 e.1) }
{
    let mut answer = None;
    'questions: for _ in 0..u64::MAX {
        match resume(alloc, image, schema, ticket, vm, answer)? {
            Pause::End(reply, writes) => return Ok((told_reply(reply), writes)),
            Pause::Need(question) => answer = Some(answer_none(alloc, &question)),
        }
    }
    // (no request asks that often)
    Err(AllocError)
}

/// Runs a block of a checked image to its end where there are no rows. The reply tells how many steps of the machine counted, or none where
/// the request is refused.
pub fn run_alone(
    alloc: Global,
    image: &Image,
    block: usize,
    schema: &Schema,
    ticket: Ticket,
) -> Result<(Reply, Writes), NoMemory>
    requires sound { IsSound schema.now }
    requires ids { HasIds ticket }
    requires checked { IsChecked image.now }
    ensures { IfOk result (λ e. RunsTo schema.now ticket image.now block [] e.0 e.1) }
{
    let mut vm = start(alloc, block);
    run_without(alloc, image, block, schema, ticket, &mut vm)
}
