// One instruction.

ghost use Rattle.std.specs.Prelude.{◌≡◌, ◌<◌, ◌+◌, ◌^◌, true, suc, Some, IfOk};
ghost use Rattle.record_ids.specs.Ids.{most};
ghost use Rattle.stack_code.specs.Steps as spec;
ghost use Rattle.program_things.specs.Steps.{IsStep};
ghost use Rattle.program_things.specs.Values.{is_value};

use crate::builtins::act_builtin;
use crate::collections::{act_copied, act_entries, act_filled, act_seen};
use crate::ends::refused;
use crate::moved::Moved;
use crate::queries::{act_children, act_only, act_parent, act_query};
use crate::saves::act_save;
use crate::stores::{act_change, act_set, act_set_own, act_set_static, act_store};
use crate::things::{
    act_cast, act_cast_exception, act_exception, act_message, act_message_this, act_print,
    act_record,
};
use crate::values::{
    act_calc, act_convert, act_negate, act_not, act_pop, act_push, act_this, act_truth,
};
use crate::variables::{act_fetch, act_get};
use apex_num::NoMemory;
use apex_requests::Ticket;
use apex_schema::Schema;
use stack_code::{Config, Image, Instr};
use std::alloc::Global;

/// An instruction of values, variables and things.
pub fn act_value(
    alloc: Global,
    image: &Image,
    schema: &Schema,
    ticket: Ticket,
    instr: &Instr,
    c: &mut Config,
) -> Result<Moved, NoMemory>
    requires room { c.old.top.pc + 1 < 2 ^ 64 }
    requires user { suc ticket.user < most }
    requires value { is_value instr.now ≡ true }
    ensures { IfOk result (λ m. IsStep (spec.act (record { schema = schema.now; ticket = ticket }) image.now (Some instr.now) c.old) m c.new) }
{
    match instr {
        Instr::Push(cell) => act_push(cell, c),
        Instr::This => act_this(c),
        Instr::Pop => Ok(act_pop(c)),
        Instr::Convert(how) => act_convert(alloc, *how, c),
        Instr::Negate(number) => act_negate(alloc, *number, c),
        Instr::Not => act_not(alloc, c),
        Instr::Calc(left, op, right) => act_calc(alloc, *left, *op, *right, c),
        Instr::Truth => act_truth(alloc, c),
        Instr::Get(slot) => act_get(alloc, schema, *slot, c),
        Instr::Fetch(slot) => act_fetch(alloc, schema, *slot, c),
        Instr::Set(slot) => act_set(alloc, *slot, c),
        Instr::Store(slot) => act_store(*slot, c),
        Instr::Change(kind, number, slot) => act_change(alloc, schema, *kind, *number, *slot, c),
        Instr::Builtin(which, count) => act_builtin(alloc, image, ticket, *which, *count, c),
        Instr::Filled(kind, count) => act_filled(alloc, *kind, *count, c),
        Instr::Entries(count) => act_entries(alloc, *count, c),
        Instr::Copied(kind) => act_copied(alloc, *kind, c),
        Instr::Exception(class, count) => act_exception(alloc, *class, *count, c),
        Instr::Cast(class) => act_cast(alloc, image, *class, c),
        Instr::CastException(class) => act_cast_exception(alloc, *class, c),
        Instr::Record(object, fields) => {
            act_record(alloc, schema, ticket, *object, fields.as_slice(), c)
        }
        Instr::Print => act_print(alloc, image, schema, ticket, c),
        Instr::Message(count) => act_message(alloc, *count, c),
        Instr::MessageThis(count) => act_message_this(alloc, *count, c),
        Instr::SetOwn(place) => act_set_own(alloc, *place, c),
        Instr::SetStatic(class, place) => Ok(act_set_static(*class, *place, c)),
        Instr::Parent(field, goes_on) => act_parent(alloc, schema, *field, *goes_on, c),
        Instr::Children(object, field, goes_on) => {
            act_children(alloc, schema, *object, *field, *goes_on, c)
        }
        Instr::Only => act_only(alloc, c),
        Instr::Seen => act_seen(alloc, c),
        Instr::Query(queried, kinds) => act_query(alloc, queried.get(), kinds.as_slice(), c),
        Instr::Save(op, saved) => act_save(alloc, *op, *saved, c),
        Instr::Unbuilt => refused(alloc, c),
        _ => unreachable!(),
    }
}
