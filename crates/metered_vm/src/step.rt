// One instruction.

ghost use Rattle.std.specs.Prelude.{◌≡◌, ◌<◌, ◌+◌, ◌^◌, [], Some, true, slice_get, IfOk};
ghost use Rattle.activations.specs.declared.abrupt.Abrupt.TheVariants.{Returns};
ghost use Rattle.request_states.specs.Values.{null};
ghost use Rattle.stack_code.specs.Checked.{IsChecked};
ghost use Rattle.stack_code.specs.Machine as machine;
ghost use Rattle.stack_code.specs.Steps as spec;
ghost use Rattle.stack_code.specs.declared.image.Image.{Image as Program};
ghost use Rattle.program_things.specs.Steps.{IsStep};
ghost use Rattle.metered_vm.specs.Control.{is_class, is_control, is_handler};
ghost use Rattle.quick_steps.specs.Quick.{Leads};
ghost use Rattle.save_meaning.specs.Sites.{Site};
ghost use Rattle.save_stages.specs.Does.{HasIds};

use crate::calls::{
    act_begin, act_call, act_call_static, act_call_this, act_construct, act_new, act_new_plain,
};
use crate::fetch::instr_at;
use crate::frames::act_prepare;
use crate::jumps::{act_back, act_both, act_either, act_step, act_unless, jump};
use crate::opens::{
    act_close, act_each, act_hold, act_open_each, act_resume, act_return, act_throw, open,
};
use activations::Abrupt;
use apex_list::Stack;
use apex_num::{Cell, NoMemory};
use apex_requests::Ticket;
use apex_schema::Schema;
use program_things::{Moved, act_value, leave};
use stack_code::{Config, Handler, Image, Instr};
use std::alloc::Global;
use txn_heap::Value;

// Behind the last instruction the body is over.
fn act_end(alloc: Global, c: &mut Config) -> Moved
    ensures { IsStep (machine.leave (Returns null) (machine.with_handlers c.old [])) result c.new }
{
    c.top.handlers = Stack::new(alloc);
    leave(alloc, Abrupt::Returns(Value::Plain(Cell::Null)), c)
}

// An instruction that opens or closes a handler.
fn act_handler(alloc: Global, instr: &Instr, c: &mut Config) -> Result<Moved, NoMemory>
    requires room { c.old.top.pc + 1 < 2 ^ 64 }
    requires leads { Leads instr.now c.old.top.pc }
    requires handler { is_handler instr.now ≡ true }
    ensures { (site : Site) (image : Program) → IfOk result (λ m. IsStep (spec.act site image (Some instr.now) c.old) m c.new) }
{
    let behind = c.top.pc + 1;
    match instr {
        Instr::OpenCatch(_) => open(Handler::Catches(c.top.pc), c),
        Instr::OpenLast(n) => open(Handler::Lasts(behind + *n), c),
        Instr::OpenLoop(again, out) => open(Handler::Loops(behind + *again, behind + *out), c),
        Instr::OpenEach(again, out) => act_open_each(alloc, *again, *out, c),
        Instr::Each(slot, how, out) => act_each(alloc, *slot, *how, *out, c),
        Instr::Close => Ok(act_close(c)),
        Instr::Hold => act_hold(c),
        Instr::Resume => Ok(act_resume(alloc, c)),
        _ => unreachable!(),
    }
}

// An instruction that jumps or leaves code.
fn act_control(alloc: Global, instr: &Instr, c: &mut Config) -> Result<Moved, NoMemory>
    requires room { c.old.top.pc + 1 < 2 ^ 64 }
    requires leads { Leads instr.now c.old.top.pc }
    requires control { is_control instr.now ≡ true }
    ensures { (site : Site) (image : Program) → IfOk result (λ m. IsStep (spec.act site image (Some instr.now) c.old) m c.new) }
{
    match instr {
        Instr::Step => Ok(act_step(c)),
        Instr::Jump(n) => Ok(jump(*n, c)),
        Instr::Unless(n) => Ok(act_unless(alloc, *n, c)),
        Instr::Both(n) => act_both(alloc, *n, c),
        Instr::Either(n) => act_either(alloc, *n, c),
        Instr::Back(n) => Ok(act_back(*n, c)),
        Instr::Return => Ok(act_return(alloc, c)),
        Instr::Throw => Ok(act_throw(alloc, c)),
        Instr::Break => Ok(leave(alloc, Abrupt::Breaks, c)),
        Instr::Continue => Ok(leave(alloc, Abrupt::Continues, c)),
        _ => unreachable!(),
    }
}

// An instruction that prepares a class, calls, or makes an instance.
fn act_class(alloc: Global, image: &Image, instr: &Instr, c: &mut Config) -> Result<Moved, NoMemory>
    requires room { c.old.top.pc + 1 < 2 ^ 64 }
    requires class { is_class instr.now ≡ true }
    ensures { (site : Site) → IfOk result (λ m. IsStep (spec.act site image.now (Some instr.now) c.old) m c.new) }
{
    match instr {
        Instr::Prepare(class) => act_prepare(alloc, image, *class, c),
        Instr::CallStatic(class, n, count) => act_call_static(alloc, image, *class, *n, *count, c),
        Instr::CallThis(class, n, count) => act_call_this(alloc, image, *class, *n, *count, c),
        Instr::Call(class, n, count) => act_call(alloc, image, *class, *n, *count, c),
        Instr::New(class, n, count) => act_new(alloc, image, *class, *n, *count, c),
        Instr::NewPlain(class) => act_new_plain(alloc, image, *class, c),
        Instr::Construct(class, n, count) => act_construct(alloc, image, *class, *n, *count, c),
        Instr::Begin(starts) => act_begin(alloc, image, starts, c),
        _ => unreachable!(),
    }
}

// An instruction.
fn act_at(
    alloc: Global,
    image: &Image,
    schema: &Schema,
    ticket: Ticket,
    instr: &Instr,
    c: &mut Config,
) -> Result<Moved, NoMemory>
    requires room { c.old.top.pc + 1 < 2 ^ 64 }
    requires leads { Leads instr.now c.old.top.pc }
    requires ids { HasIds ticket }
    ensures { IfOk result (λ m. IsStep (spec.act (record { schema = schema.now; ticket = ticket }) image.now (Some instr.now) c.old) m c.new) }
{
    match instr {
        Instr::Step
        | Instr::Jump(_)
        | Instr::Unless(_)
        | Instr::Both(_)
        | Instr::Either(_)
        | Instr::Back(_)
        | Instr::Return
        | Instr::Throw
        | Instr::Break
        | Instr::Continue => act_control(alloc, instr, c),
        Instr::OpenCatch(_)
        | Instr::OpenLast(_)
        | Instr::OpenLoop(_, _)
        | Instr::OpenEach(_, _)
        | Instr::Each(_, _, _)
        | Instr::Close
        | Instr::Hold
        | Instr::Resume => act_handler(alloc, instr, c),
        Instr::Prepare(_)
        | Instr::CallStatic(_, _, _)
        | Instr::CallThis(_, _, _)
        | Instr::Call(_, _, _)
        | Instr::New(_, _, _)
        | Instr::NewPlain(_)
        | Instr::Construct(_, _, _)
        | Instr::Begin(_) => act_class(alloc, image, instr, c),
        _ => act_value(alloc, image, schema, ticket, instr, c),
    }
}

/// The next instruction, or the end of the body behind the last one.
pub fn act(
    alloc: Global,
    image: &Image,
    schema: &Schema,
    ticket: Ticket,
    c: &mut Config,
) -> Result<Moved, NoMemory>
    requires checked { IsChecked image.now }
    requires ids { HasIds ticket }
    ensures { IfOk result (λ m. IsStep (spec.act (record { schema = schema.now; ticket = ticket }) image.now (slice_get (machine.instrs_at image.now c.old.top.body) c.old.top.pc) c.old) m c.new) }
{
    match instr_at(image, c.top.body, c.top.pc) {
        None => Ok(act_end(alloc, c)),
        Some(instr) => act_at(alloc, image, schema, ticket, instr, c),
    }
}
