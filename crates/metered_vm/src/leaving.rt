// Code that is left: handlers one by one, then frames, then the request.

ghost use Rattle.std.specs.Prelude.{◌≡◌, ◌<◌, ◌+◌, ◌^◌, ◌∷◌, ◌++◌, [], false, length, slice_get, IfOk, IfSome, OnOk};
ghost use Rattle.std.specs.Option.{option_copied};
ghost use Rattle.apex_meaning.specs.Exceptions as exceptions;
ghost use Rattle.platform_errors.specs.Messages as messages;
ghost use Rattle.txn_heap.specs.declared.thing.Thing.TheVariants as T;
ghost use Rattle.save_stages.specs.Does.{HasIds};
ghost use Rattle.stack_code.specs.Checked.{IsChecked};
ghost use Rattle.stack_code.specs.Machine as machine;
ghost use Rattle.stack_code.specs.Steps as spec;
ghost use Rattle.stack_code.specs.declared.state.Handler.TheVariants as H;
ghost use Rattle.program_things.specs.Kinds.{as_kind};
ghost use Rattle.program_things.specs.Steps.{IsStep};
ghost use Rattle.metered_vm.specs.Leaving.{clauses_in, first_taking, is_firing, left_meter, taken_by};

use crate::fetch::{instr_at, length_of};
use activations::{Abrupt, Raised};
use apex_list::{Boxed, Stack};
use apex_num::{Cell, LimitKind, NoMemory};
use apex_requests::{Outcome, Ticket};
use apex_schema::Schema;
use limit_meter::Meter;
use platform_errors::Thrown;
use program_things::{
    Moved, ThingKind, ended, failing, hand_back, is_built_in, is_declared, kind_raised, leave,
    message_told, name_of_kind, put_at,
};
use stack_code::{
    After, BodyAt, CatchKind, Clause, Config, Firing, Frame, Handler, Image, Instr, Mode, Waiting,
};
use std::alloc::Global;
use std::mem::replace;
use txn_heap::{Exception, Thing, Value};
use txn_overlay::Journal;

// ---- what catches

fn takes(image: &Image, kind: CatchKind, thrown: ThingKind) -> bool
    ensures { result ≡ taken_by image.now kind (as_kind thrown) }
{
    match kind {
        CatchKind::Any => true,
        CatchKind::BuiltIn(class) => is_built_in(class, thrown),
        CatchKind::Declared(class) => is_declared(image, class, thrown),
        CatchKind::Nothing => false,
    }
}

// The first clause that takes it.
fn clause_for(image: &Image, thrown: ThingKind, clauses: &[Clause]) -> Option<Clause>
    ensures { result ≡ first_taking image.now (as_kind thrown) clauses.now }
{
    'clauses: for clause in clauses {
        if takes(image, clause.kind, thrown) {
            return Some(*clause);
        }
    }
    None
}

// The clauses of an instruction.
fn clauses_of(instr: Option<&Instr>) -> &[Clause]
    ensures { result.now ≡ clauses_in (option_copied instr.entry) }
{
    match instr {
        Some(Instr::OpenCatch(clauses)) => clauses.as_slice(),
        _ => &[],
    }
}

// The platform's exception becomes a thing.
fn make_exception(alloc: Global, thrown: &Thrown, c: &mut Config) -> Result<Value, NoMemory>
    ensures value { IfOk result (λ v. v ≡ Value.Object (record { place = length c.old.world.heap })) }
    ensures made { OnOk result (c.new ≡ machine.with_heap c.old (c.old.world.heap ++ T.Exception (record { class = messages.class thrown.now; message = Cell.Text (messages.message thrown.now) }) ∷ [])) }
{
    let message = Cell::Text(thrown.message(alloc)?);
    let class = thrown.class();
    let made = c
        .world
        .heap
        .make(Thing::Exception(Exception { class, message }))?;
    Ok(Value::Object(made))
}

// On at another place of the body, with nothing on the stack.
fn on_at(alloc: Global, pc: usize, c: &mut Config)
    ensures { c.new ≡ machine.in_mode (machine.move c.old pc []) Mode.Running }
{
    c.top.pc = pc;
    c.top.stack = Stack::new(alloc);
    c.mode = Mode::Running;
}

// On at the code of a clause, which has what was caught in its slot.
fn caught_with(
    alloc: Global,
    slot: usize,
    pc: usize,
    value: Value,
    c: &mut Config,
) -> Result<Moved, NoMemory>
    ensures { IfOk result (λ m. IsStep (machine.Goes (machine.in_mode (machine.with_local (machine.move c.old pc []) slot value) Mode.Running)) m c.new) }
{
    put_at(slot, value, &mut c.top.here.locals)?;
    on_at(alloc, pc, c);
    Ok(Moved::Went)
}

// A clause has what was thrown.
fn caught_at(
    alloc: Global,
    schema: &Schema,
    ticket: Ticket,
    image: &Image,
    slot: usize,
    pc: usize,
    raised: Raised,
    c: &mut Config,
) -> Result<Moved, NoMemory>
    ensures { IfOk result (λ m. IsStep (spec.caught_at (record { schema = schema.now; ticket = ticket }) image.now slot pc raised c.old) m c.new) }
{
    match raised {
        Raised::Made(thing) => caught_with(alloc, slot, pc, Value::Object(thing), c),
        Raised::Platform(thrown) => {
            let value = make_exception(alloc, &thrown, c)?;
            caught_with(alloc, slot, pc, value, c)
        }
    }
}

// The clause at a place that catches a thing of this kind.
fn clause_at(image: &Image, body: BodyAt, at: usize, kind: ThingKind) -> Option<Clause>
    requires { IsChecked image.now }
    ensures value { result ≡ first_taking image.now (as_kind kind) (clauses_in (slice_get (machine.instrs_at image.now body) at)) }
    ensures room { IfSome result (λ clause. at + 1 + clause.target < 2 ^ 64) }
{
    // (behind the place of an instruction there is room)
    let _end = length_of(image, body);
    clause_for(image, kind, clauses_of(instr_at(image, body, at)))
}

// A clause that was found has what was thrown; where there is none it is on its way still.
fn caught_by(
    alloc: Global,
    image: &Image,
    schema: &Schema,
    ticket: Ticket,
    clause: Option<Clause>,
    at: usize,
    raised: Raised,
    c: &mut Config,
) -> Result<Moved, NoMemory>
    requires { IfSome clause (λ k. at + 1 + k.target < 2 ^ 64) }
    ensures { IfOk result (λ m. IsStep (spec.caught_by (record { schema = schema.now; ticket = ticket }) image.now clause at raised c.old) m c.new) }
{
    match clause {
        Some(clause) => {
            let pc = at + 1 + clause.target;
            caught_at(alloc, schema, ticket, image, clause.slot, pc, raised, c)
        }
        None => Ok(leave(alloc, Abrupt::Throws(raised), c)),
    }
}

// What catches is met.
fn caught(
    alloc: Global,
    image: &Image,
    schema: &Schema,
    ticket: Ticket,
    at: usize,
    raised: Raised,
    c: &mut Config,
) -> Result<Moved, NoMemory>
    requires { IsChecked image.now }
    ensures { IfOk result (λ m. IsStep (spec.caught (record { schema = schema.now; ticket = ticket }) image.now (slice_get (machine.instrs_at image.now c.old.top.body) at) at raised c.old) m c.new) }
{
    let kind = kind_raised(&raised, &c.world.heap);
    let clause = clause_at(image, c.top.body, at, kind);
    caught_by(alloc, image, schema, ticket, clause, at, raised, c)
}

// On at a place, as the handler that was met says.
fn goes_on(alloc: Global, pc: usize, c: &mut Config) -> Moved
    ensures { IsStep (machine.Goes (machine.in_mode (machine.move c.old pc []) Mode.Running)) result c.new }
{
    on_at(alloc, pc, c);
    Moved::Went
}

// What catches, and was taken out, is met.
fn met_catches(
    alloc: Global,
    image: &Image,
    schema: &Schema,
    ticket: Ticket,
    at: usize,
    why: Abrupt,
    c: &mut Config,
) -> Result<Moved, NoMemory>
    requires { IsChecked image.now }
    ensures { IfOk result (λ m. IsStep (spec.met (record { schema = schema.now; ticket = ticket }) image.now (H.Catches at) why c.old.top.handlers c.old) m c.new) }
{
    match why {
        Abrupt::Throws(raised) => caught(alloc, image, schema, ticket, at, raised, c),
        Abrupt::Returns(value) => Ok(leave(alloc, Abrupt::Returns(value), c)),
        Abrupt::Breaks => Ok(leave(alloc, Abrupt::Breaks, c)),
        Abrupt::Continues => Ok(leave(alloc, Abrupt::Continues, c)),
    }
}

// A loop, which was taken out, is met.
fn met_loop(
    alloc: Global,
    image: &Image,
    schema: &Schema,
    ticket: Ticket,
    again: usize,
    out: usize,
    why: Abrupt,
    c: &mut Config,
) -> Moved
    ensures { IsStep (spec.met (record { schema = schema.now; ticket = ticket }) image.now (H.Loops again out) why c.old.top.handlers c.old) result c.new }
{
    match why {
        Abrupt::Breaks => goes_on(alloc, out, c),
        Abrupt::Continues => goes_on(alloc, again, c),
        Abrupt::Throws(raised) => leave(alloc, Abrupt::Throws(raised), c),
        Abrupt::Returns(value) => leave(alloc, Abrupt::Returns(value), c),
    }
}

// A loop over items, which was taken out, is met.
fn met_each(
    alloc: Global,
    image: &Image,
    schema: &Schema,
    ticket: Ticket,
    items: Stack<Value>,
    again: usize,
    out: usize,
    why: Abrupt,
    c: &mut Config,
) -> Result<Moved, NoMemory>
    ensures { IfOk result (λ m. IsStep (spec.met (record { schema = schema.now; ticket = ticket }) image.now (H.Each items again out) why c.old.top.handlers c.old) m c.new) }
{
    match why {
        Abrupt::Breaks => Ok(goes_on(alloc, out, c)),
        Abrupt::Continues => {
            c.top.handlers.push(Handler::Each(items, again, out))?;
            Ok(goes_on(alloc, again, c))
        }
        Abrupt::Throws(raised) => Ok(leave(alloc, Abrupt::Throws(raised), c)),
        Abrupt::Returns(value) => Ok(leave(alloc, Abrupt::Returns(value), c)),
    }
}

// The handler that was opened last is met; it was taken out.
fn met(
    alloc: Global,
    image: &Image,
    schema: &Schema,
    ticket: Ticket,
    handler: Handler,
    why: Abrupt,
    c: &mut Config,
) -> Result<Moved, NoMemory>
    requires { IsChecked image.now }
    ensures { IfOk result (λ m. IsStep (spec.met (record { schema = schema.now; ticket = ticket }) image.now handler why c.old.top.handlers c.old) m c.new) }
{
    match handler {
        Handler::Catches(at) => met_catches(alloc, image, schema, ticket, at, why, c),
        Handler::Lasts(target) => {
            c.top.handlers.push(Handler::Held(Some(why)))?;
            Ok(goes_on(alloc, target, c))
        }
        Handler::Held(_) => Ok(leave(alloc, why, c)),
        Handler::Loops(again, out) => {
            Ok(met_loop(alloc, image, schema, ticket, again, out, why, c))
        }
        Handler::Each(items, again, out) => {
            met_each(alloc, image, schema, ticket, items, again, out, why, c)
        }
    }
}

// ---- the end of a frame

// A call that was open is over.
fn leave_call(meter: &mut Meter)
    ensures { meter.new ≡ left_meter LimitKind.Calls meter.old }
{
    if meter.count(LimitKind::Calls) > 0 {
        meter.leave(LimitKind::Calls);
    }
}

// A call that was open is over; what isn't counted is over too.
fn close(after: &After, c: &mut Config)
    requires { is_firing after.now ≡ false }
    ensures { c.new ≡ machine.closed after.now c.old }
{
    match after {
        After::Begun => {}
        After::Answered | After::Constructed => leave_call(&mut c.world.txn.meter),
        After::Fired(_) => unreachable!(),
    }
}

// A value comes back to the frame that waits.
fn give_back(
    schema: &Schema,
    ticket: Ticket,
    image: &Image,
    waiting: Waiting,
    value: Value,
    c: &mut Config,
) -> Result<Moved, NoMemory>
    requires { is_firing waiting.after ≡ false }
    ensures { IfOk result (λ m. IsStep (machine.Goes (spec.given_back (record { schema = schema.now; ticket = ticket }) image.now waiting c.old.below value c.old)) m c.new) }
{
    let Waiting { frame, after } = waiting;
    close(&after, c);
    c.top = frame;
    match after {
        After::Answered => c.top.stack.push(value)?,
        After::Constructed | After::Begun | After::Fired(_) => {}
    }
    c.mode = Mode::Running;
    Ok(Moved::Went)
}

// The save that waits goes on with what a firing came to.
fn firing_left(
    alloc: Global,
    schema: &Schema,
    ticket: Ticket,
    image: &Image,
    firing: Boxed<Firing>,
    frame: Frame,
    why: Abrupt,
    c: &mut Config,
) -> Result<Moved, NoMemory>
    ensures { IfOk result (λ m. IsStep (machine.Goes (spec.handed (record { schema = schema.now; ticket = ticket }) image.now firing why (record { frame = frame; after = After.Fired firing }) c.old.below c.old)) m c.new) }
{
    hand_back(alloc, image, firing, &why, c)?;
    c.top = frame;
    Ok(Moved::Went)
}

// The body of the frame on top is left, and one waits for it that isn't a save.
fn call_left(
    schema: &Schema,
    ticket: Ticket,
    image: &Image,
    waiting: Waiting,
    why: Abrupt,
    c: &mut Config,
) -> Result<Moved, NoMemory>
    requires { is_firing waiting.after ≡ false }
    ensures { IfOk result (λ m. IsStep (spec.left_by (record { schema = schema.now; ticket = ticket }) image.now why (waiting ∷ c.old.below) c.old) m c.new) }
{
    match why {
        Abrupt::Throws(raised) => {
            close(&waiting.after, c);
            c.top = waiting.frame;
            c.mode = Mode::Leaving(Abrupt::Throws(raised));
            Ok(Moved::Went)
        }
        Abrupt::Returns(value) => give_back(schema, ticket, image, waiting, value, c),
        Abrupt::Breaks | Abrupt::Continues => {
            give_back(schema, ticket, image, waiting, Value::Plain(Cell::Null), c)
        }
    }
}

// The body of the frame on top is left, and this one waits for it.
fn left_to(
    alloc: Global,
    schema: &Schema,
    ticket: Ticket,
    image: &Image,
    waiting: Waiting,
    why: Abrupt,
    c: &mut Config,
) -> Result<Moved, NoMemory>
    ensures { IfOk result (λ m. IsStep (spec.left_by (record { schema = schema.now; ticket = ticket }) image.now why (waiting ∷ c.old.below) c.old) m c.new) }
{
    let Waiting { frame, after } = waiting;
    match after {
        After::Fired(firing) => { firing_left(alloc, schema, ticket, image, firing, frame, why, c) }
        After::Answered => {
            let after = After::Answered;
            call_left(schema, ticket, image, Waiting { frame, after }, why, c)
        }
        After::Constructed => {
            let after = After::Constructed;
            call_left(schema, ticket, image, Waiting { frame, after }, why, c)
        }
        After::Begun => {
            let after = After::Begun;
            call_left(schema, ticket, image, Waiting { frame, after }, why, c)
        }
    }
}

// ---- the end of the request

// It came to its end.
fn finish(
    alloc: Global,
    image: &Image,
    schema: &Schema,
    ticket: Ticket,
    c: &mut Config,
) -> Result<Moved, NoMemory>
    requires ids { HasIds ticket }
    ensures { IfOk result (λ m. IsStep (spec.ended (record { schema = schema.now; ticket = ticket }) image.now c.old) m c.new) }
{
    let journal = replace(&mut c.world.txn.overlay, Journal::new(alloc));
    let writes = journal.into_overlay().into_writes(&ticket)?;
    ended(alloc, writes, c)
}

// Nothing catches what was thrown.
fn uncaught(
    alloc: Global,
    image: &Image,
    schema: &Schema,
    ticket: Ticket,
    raised: Raised,
    c: &mut Config,
) -> Result<Moved, NoMemory>
    ensures { IfOk result (λ m. IsStep (spec.uncaught (record { schema = schema.now; ticket = ticket }) image.now raised c.old.world) m c.new) }
{
    let class = name_of_kind(alloc, image, kind_raised(&raised, &c.world.heap))?;
    let message = message_told(alloc, &raised, &c.world.heap)?;
    failing(alloc, Outcome::Thrown(class, message), c)
}

// The last frame is left.
fn over(
    alloc: Global,
    image: &Image,
    schema: &Schema,
    ticket: Ticket,
    why: Abrupt,
    c: &mut Config,
) -> Result<Moved, NoMemory>
    requires ids { HasIds ticket }
    ensures { IfOk result (λ m. IsStep (spec.left_by (record { schema = schema.now; ticket = ticket }) image.now why [] c.old) m c.new) }
{
    match why {
        Abrupt::Throws(raised) => uncaught(alloc, image, schema, ticket, raised, c),
        Abrupt::Returns(_) | Abrupt::Breaks | Abrupt::Continues => {
            finish(alloc, image, schema, ticket, c)
        }
    }
}

/// Code is left: the handler that was opened last is met, or the frame ends.
pub fn leaving(
    alloc: Global,
    image: &Image,
    schema: &Schema,
    ticket: Ticket,
    why: Abrupt,
    c: &mut Config,
) -> Result<Moved, NoMemory>
    requires checked { IsChecked image.now }
    requires ids { HasIds ticket }
    ensures { IfOk result (λ m. IsStep (spec.leaving (record { schema = schema.now; ticket = ticket }) image.now why c.old.top.handlers c.old) m c.new) }
{
    match c.top.handlers.pop() {
        Some(handler) => met(alloc, image, schema, ticket, handler, why, c),
        None => match c.below.pop() {
            Some(waiting) => left_to(alloc, schema, ticket, image, waiting, why, c),
            None => over(alloc, image, schema, ticket, why, c),
        },
    }
}
