// How far a session is.

ghost use Rattle.std.specs.Prelude.{◌≡◌, None, IfOk};
ghost use Rattle.apex_requests.specs.declared.request.Ticket.{Ticket as TheTicket};
ghost use Rattle.apex_requests.specs.declared.request.Work.TheVariants as W;
ghost use Rattle.apex_schema.specs.declared.schema.Schema.{Schema as TheSchema};
ghost use Rattle.stack_code.specs.Checked.{IsChecked};
ghost use Rattle.stack_code.specs.Means.{block_in, is_there};
ghost use Rattle.session_turns.specs.Calls.{no_log};
ghost use Rattle.session_turns.specs.Turns.{IsEmpty, Runs};

use apex_requests::Work;
use apex_rows::Answer;
use metered_vm::{Vm, start};
use stack_code::Image;
use std::alloc::Global;
use tenant_shards::Log;

/// A request's machine between two pauses.
#[derive(Drop)]
pub struct Paused {
    /// The number of the block that it runs.
    pub block: usize,
    pub vm: Vm,
    /// The answer with which it goes on; none where it begins.
    pub answer: Option<Answer>,
}

/// The attempt of a request that is open.
#[derive(Drop)]
pub struct Attempt {
    /// How often the request began again.
    pub restarts: u32,
    /// None where the request is refused before it asks anything.
    pub machine: Option<Paused>,
    /// What the attempt asked, and what it was answered.
    pub log: Log,
}

/// A session between two turns.
#[derive(Drop)]
pub struct Standing {
    /// How many requests are closed.
    pub closed: u32,
    /// The attempt of the one that is open.
    pub running: Option<Attempt>,
}

/// How a pause of an attempt was served.
#[derive(Clone, Copy, Debug, PartialEq, Eq, Drop)]
pub enum Served {
    /// The attempt goes on.
    Waits,
    /// The request has begun again.
    Restarted,
    /// The request is closed.
    Closed,
}

impl Standing {
    /// A session that has closed so many requests, and has none open. It takes no memory.
    pub fn closed(closed: u32) -> Standing
        ensures closed { result.closed ≡ closed }
        ensures running { result.running ≡ None }
    {
        Standing {
            closed,
            running: None,
        }
    }
}

// Whether an image has the code of a block.
fn has_block(image: &Image, block: usize) -> bool
    ensures { result ≡ is_there (block_in image.now block) }
{
    match image.blocks.as_slice().get(block) {
        Some(Some(_)) => true,
        Some(None) | None => false,
    }
}

// The machine of a block that begins, where there is its code.
fn machine_of_block(alloc: Global, image: &Image, block: usize) -> Option<Paused>
    requires { IsChecked image.now }
    ensures { (schema : TheSchema) (ticket : TheTicket) → Runs schema image.now ticket (W.Apex block) no_log result }
{
    if has_block(image, block) {
        Some(Paused {
            block,
            vm: start(alloc, block),
            answer: None,
        })
    } else {
        None
    }
}

// The machine of a request that begins, or none where it is refused.
fn machine_of(alloc: Global, image: &Image, work: &Work) -> Option<Paused>
    requires { IsChecked image.now }
    ensures { (schema : TheSchema) (ticket : TheTicket) → Runs schema image.now ticket work.now no_log result }
{
    match work {
        Work::Apex(block) => machine_of_block(alloc, image, *block),
        Work::Save { .. } | Work::Refused(_) => None,
    }
}

/// The attempt of a request that begins, or begins again: it has asked nothing. It takes no memory.
pub fn begun(alloc: Global, image: &Image, work: &Work, restarts: u32) -> Attempt
    requires { IsChecked image.now }
    ensures restarts { result.restarts ≡ restarts }
    ensures empty { IsEmpty result.log }
    ensures runs { (schema : TheSchema) (ticket : TheTicket) → Runs schema image.now ticket work.now result.log result.machine }
{
    Attempt {
        restarts,
        machine: machine_of(alloc, image, work),
        log: Log::new(alloc),
    }
}
