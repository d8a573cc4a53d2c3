// A request from its start, or from an answer, to its next question or its end.

ghost use Rattle.std.specs.Prelude.{◌≡◌, ℕ, List, [], IfOk, OnOk};
ghost use Rattle.apex_rows.specs.declared.query.Answer.{Answer as Told};
ghost use Rattle.request_states.specs.Refusals.{no_writes as nothing_written};
ghost use Rattle.apex_requests.specs.declared.reply.Outcome.TheVariants as O;
ghost use Rattle.apex_requests.specs.declared.request.Ticket.{Ticket as Place};
ghost use Rattle.apex_schema.specs.declared.schema.Schema.{Schema as Tenant};
ghost use Rattle.stack_code.specs.declared.image.Image.{Image as Code};
ghost use Rattle.save_stages.specs.Does.{IsSound, HasIds};
ghost use Rattle.stack_code.specs.Checked.{IsChecked};
ghost use Rattle.stack_code.specs.Machine.{reply_of as told_by};
ghost use Rattle.stack_code.specs.Runs as spec;
ghost use Rattle.stack_code.specs.Steps as machine;
ghost use Rattle.metered_vm.specs.Keeps.{Stands, KeepsOn};
ghost use Rattle.program_things.specs.Saves.{IsStepTo};
ghost use Rattle.metered_vm.specs.Runs.{Ran, Pauses, Waits, told};
ghost use Rattle.metered_vm.specs.declared.run.Pause.TheVariants as P;

use crate::frames::enter_fired;
use crate::leaving::leaving;
use crate::quick::{is_running, quick_run};
use crate::step::act;
use activations::Here;
use apex_list::{Boxed, Items, Stack};
use apex_num::{Cell, NoMemory};
use apex_requests::{Outcome, Reply, Ticket};
use apex_rows::{Answer, Question, Writes};
use apex_schema::{Mode as Access, Schema};
use limit_meter::{Limit, Meter};
use program_things::{Moved, query, reply_of, save};
use request_states::no_writes;
use save_meaning::TxnState;
use save_moves::given as save_given;
use soql_run::given as query_given;
use stack_code::{BodyAt, Config, Frame, Image, Mode, World};
use std::alloc::Global;
use std::mem::replace;
use txn_heap::{Heap, Statics, Value};
use txn_overlay::Journal;

/// A request on its way: the machine that runs it, and how many steps it made, or 2^64 - 1 where there were more.
#[derive(Drop)]
pub struct Vm {
    config: Config,
    ops: u64,
}

/// Where a request pauses.
#[derive(Drop)]
pub enum Pause {
    /// It asks, and goes on with the answer.
    Need(Question),
    /// It is over, with its reply and what it writes.
    End(Reply, Writes),
}

// The state in which a request for a block begins.
fn first_config(alloc: Global, block: usize) -> Config
    ensures { result ≡ spec.start block }
{
    Config {
        top: Frame {
            body: BodyAt::Block(block),
            pc: 0,
            here: Here {
                locals: Items::new(alloc),
                this: Value::Plain(Cell::Null),
                mode: Access::Sharing,
                firing: 0,
            },
            stack: Stack::new(alloc),
            handlers: Stack::new(alloc),
        },
        mode: Mode::Running,
        below: Stack::new(alloc),
        world: World {
            txn: TxnState {
                overlay: Journal::new(alloc),
                minted: 0,
                meter: Meter::new(),
            },
            heap: Heap::new(alloc),
            statics: Statics::new(alloc),
            debug: Items::new(alloc),
        },
    }
}

/// A request for a block that begins. It takes no memory.
pub fn start(alloc: Global, block: usize) -> Vm
    ensures config { result.config ≡ spec.start block }
    ensures ops { result.ops ≡ 0 }
    ensures ran { (tenant : Tenant) (ticket : Place) (image : Code) → Ran tenant ticket image block [] result.ops result.config }
    ensures stands { (image : Code) → IsChecked image → Stands image result.config }
{
    Vm {
        config: first_config(alloc, block),
        ops: 0,
    }
}

// What the machine does with the answer to what it asked.
fn given_in(mode: Mode, answer: Answer) -> Result<Mode, NoMemory>
    ensures { IfOk result (λ m. m ≡ machine.given_in mode answer) }
{
    match mode {
        Mode::Querying(shape, run) => {
            let mut run = run.into_value();
            query_given(&mut run, answer)?;
            let run = Boxed::new(shape.allocator(), run)?;
            Ok(Mode::Querying(shape, run))
        }
        Mode::Saving(places, run) => {
            let mut run = run;
            save_given(&mut run, answer)?;
            Ok(Mode::Saving(places, run))
        }
        mode => Ok(mode),
    }
}

// The machine has the answer, where there is one.
fn answered(c: &mut Config, answer: Option<Answer>) -> Result<(), NoMemory>
    ensures { OnOk result (c.new ≡ told answer c.old) }
{
    if let Some(answer) = answer {
        let mode = replace(&mut c.mode, Mode::Running);
        c.mode = given_in(mode, answer)?;
    }
    Ok(())
}

// A step where code is left, or a query or a save is on its way.
fn step_aside(
    alloc: Global,
    image: &Image,
    schema: &Schema,
    ticket: Ticket,
    c: &mut Config,
) -> Result<Moved, NoMemory>
    requires sound { IsSound schema.now }
    requires ids { HasIds ticket }
    requires stands { Stands image.now c.old }
    ensures step { IfOk result (λ m. IsStepTo schema.now ticket image.now c.old m c.new) }
    ensures keeps { IfOk result (λ m. KeepsOn image.now c.old m c.new) }
{
    match replace(&mut c.mode, Mode::Running) {
        Mode::Running => {
            let moved = act(alloc, image, schema, ticket, c)?;
            Ok(moved)
        }
        Mode::Leaving(why) => {
            let moved = leaving(alloc, image, schema, ticket, why, c)?;
            Ok(moved)
        }
        Mode::Querying(shape, run) => {
            let moved = query(alloc, schema, ticket, shape, run, c)?;
            Ok(moved)
        }
        Mode::Saving(places, run) => {
            let stop = save(alloc, image, schema, ticket, places, run, c)?;
            let moved = enter_fired(alloc, image, stop, c)?;
            Ok(moved)
        }
    }
}

// A step, or the way of a save or a query to its next question or its end.
fn step_once(
    alloc: Global,
    image: &Image,
    schema: &Schema,
    ticket: Ticket,
    c: &mut Config,
) -> Result<Moved, NoMemory>
    requires sound { IsSound schema.now }
    requires ids { HasIds ticket }
    requires stands { Stands image.now c.old }
    ensures step { IfOk result (λ m. IsStepTo schema.now ticket image.now c.old m c.new) }
    ensures keeps { IfOk result (λ m. KeepsOn image.now c.old m c.new) }
{
    if is_running(c) {
        let moved = act(alloc, image, schema, ticket, c)?;
        return Ok(moved);
    }
    step_aside(alloc, image, schema, ticket, c)
}

// A limit was passed: the request is over.
fn halted(alloc: Global, limit: Limit, vm: &mut Vm) -> Pause
    ensures pause { result ≡ P.End (record (told_by (O.Limit limit.kind limit.number) vm.old.config.world) { ops = vm.old.ops }) nothing_written }
    ensures ops { vm.new.ops ≡ vm.old.ops }
{
    let mut reply = reply_of(
        alloc,
        Outcome::Limit(limit.kind, limit.number),
        &mut vm.config,
    );
    reply.ops = vm.ops;
    Pause::End(reply, no_writes(alloc))
}

/// Goes on with a request to its next question or its end: with none where it begins, with the answer where it asked. An image
/// is checked, the answers are a store's. Want of memory spends the request.
pub fn resume(
    alloc: Global,
    image: &Image,
    schema: &Schema,
    ticket: Ticket,
    vm: &mut Vm,
    answer: Option<Answer>,
) -> Result<Pause, NoMemory>
    requires sound { IsSound schema.now }
    requires ids { HasIds ticket }
    requires stands { Stands image.now vm.old.config }
    ensures pauses { (block : ℕ) (tape : List Told) → Ran schema.now ticket image.now block tape vm.old.ops (told answer vm.old.config) → IfOk result (λ pause. Pauses schema.now ticket image.now block tape pause vm.new) }
    ensures waits { IfOk result (λ pause. Waits image.now pause vm.new) }
{
    answered(&mut vm.config, answer)?;
    'steps: loop {
        let more = quick_run(image, &mut vm.config, vm.ops)?;
        vm.ops = more.saturating_add(1);
        match step_once(alloc, image, schema, ticket, &mut vm.config)? {
            Moved::Went => {}
            Moved::Asked(question) => return Ok(Pause::Need(question)),
            Moved::Halted(limit) => return Ok(halted(alloc, limit, vm)),
            Moved::Over(reply, writes) => {
                let mut reply = reply.into_value();
                reply.ops = vm.ops;
                return Ok(Pause::End(reply, writes.into_value()));
            }
        }
    }
}
