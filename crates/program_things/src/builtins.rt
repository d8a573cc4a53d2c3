// Calls of built-in methods.

ghost use Rattle.std.specs.Prelude.{◌≡◌, ◌<◌, ◌+◌, ◌^◌, ◌∷◌, [], suc, length, map, IfOk};
ghost use Rattle.apex_num.specs.declared.cell.Cell.TheVariants as C;
ghost use Rattle.builtin_table.specs.Meanings.{meaning};
ghost use Rattle.builtin_table.specs.declared.method.Builtin.TheVariants as B;
ghost use Rattle.builtin_table.specs.declared.method.MomentMethod.TheVariants.{Date};
ghost use Rattle.apex_meaning.specs.Builtins.{cell_in, first_of, rest_of};
ghost use Rattle.apex_meaning.specs.Exceptions.{kind_of_thing, message_of_thing};
ghost use Rattle.record_ids.specs.Ids.{most};
ghost use Rattle.request_states.specs.Values.{null};
ghost use Rattle.txn_heap.specs.Guards.{guard_of, takes_error, with_error};
ghost use Rattle.stack_code.specs.Machine as spec;
ghost use Rattle.stack_code.specs.Things as things;
ghost use Rattle.program_things.specs.Kinds.{as_kind};
ghost use Rattle.program_things.specs.Steps.{IsStep};

use crate::charges::charge_sized;
use crate::collections::collect;
use crate::ends::refused;
use crate::kinds::{ThingKind, kind_named, message_named, name_of_kind};
use crate::moved::Moved;
use crate::operands::{next_with, raise, take_values};
use apex_num::{Cell, LimitKind, NoMemory, Text};
use apex_requests::Ticket;
use builtin_sizes::text_size;
use builtin_table::{Builtin, BuiltinEnd, MomentMethod, PlatformMethod, call_builtin};
use limit_meter::most_of;
use platform_errors::Thrown;
use record_ids::user_id;
use stack_code::{Config, Image};
use std::alloc::{AllocError, Global};
use txn_heap::{Ref, Value};

// ---- methods of primitives

// A primitive; a thing is none.
pub(crate) fn cell_of(value: Value) -> Cell
    ensures { result ≡ cell_in value }
{
    match value {
        Value::Plain(cell) => cell,
        Value::Object(_) => Cell::Null,
    }
}

fn cells_of(alloc: Global, values: Vec<Value>) -> Result<Vec<Cell>, NoMemory>
    ensures { IfOk result (λ cells. cells.items ≡ map cell_in values.items) }
{
    let mut cells = Vec::new(alloc);
    for value in values {
        cells.push(cell_of(value))?;
    }
    Ok(cells)
}

// What a method on primitives gives or throws.
fn answered_next(
    alloc: Global,
    which: Builtin,
    cells: &[Cell],
    c: &mut Config,
) -> Result<Moved, NoMemory>
    requires { c.old.top.pc + 1 < 2 ^ 64 }
    ensures { IfOk result (λ m. IsStep (things.answered_next (meaning which cells.now) c.old c.old.top.stack) m c.new) }
{
    match call_builtin(alloc, which, cells) {
        Ok(cell) => next_with(Value::Plain(cell), c),
        Err(BuiltinEnd::Throw(class, message)) => {
            Ok(raise(alloc, Thrown::Builtin(class, message), c))
        }
        Err(BuiltinEnd::NoMemory) => Err(AllocError),
    }
}

fn cells_next(
    alloc: Global,
    which: Builtin,
    cells: &[Cell],
    c: &mut Config,
) -> Result<Moved, NoMemory>
    requires { c.old.top.pc + 1 < 2 ^ 64 }
    ensures { IfOk result (λ m. IsStep (things.cells_next which cells.now c.old c.old.top.stack) m c.new) }
{
    match charge_sized(text_size(which, cells), c) {
        Some(moved) => Ok(moved),
        None => answered_next(alloc, which, cells, c),
    }
}

fn primitive(
    alloc: Global,
    which: Builtin,
    values: Vec<Value>,
    c: &mut Config,
) -> Result<Moved, NoMemory>
    requires { c.old.top.pc + 1 < 2 ^ 64 }
    ensures { IfOk result (λ m. IsStep (things.cells_next which (map cell_in values.items) c.old c.old.top.stack) m c.new) }
{
    let cells = cells_of(alloc, values)?;
    cells_next(alloc, which, cells.as_slice(), c)
}

// ---- methods of collections

fn called(
    alloc: Global,
    which: Builtin,
    on: &Value,
    args: &[Value],
    c: &mut Config,
) -> Result<Moved, NoMemory>
    requires { c.old.top.pc + 1 < 2 ^ 64 }
    ensures { IfOk result (λ m. IsStep (things.collection which on.now args.now c.old (λ v d. spec.next d (v ∷ c.old.top.stack))) m c.new) }
{
    match collect(alloc, which, on, args, c)? {
        Ok(value) => next_with(value, c),
        Err(moved) => Ok(moved),
    }
}

fn on_collection(
    alloc: Global,
    which: Builtin,
    values: &[Value],
    c: &mut Config,
) -> Result<Moved, NoMemory>
    requires { c.old.top.pc + 1 < 2 ^ 64 }
    ensures { IfOk result (λ m. IsStep (things.collection which (first_of values.now) (rest_of values.now) c.old (λ v d. spec.next d (v ∷ c.old.top.stack))) m c.new) }
{
    match values {
        [on, args @ ..] => called(alloc, which, on, args, c),
        [] => Ok(raise(alloc, Thrown::NullObject, c)),
    }
}

// ---- methods of exceptions

fn bytes_in(text: &Text) -> u64
    ensures { result ≡ length text.now }
{
    text.bytes().len() as u64
}

// A text that is there already is charged as one that is made.
fn text_next(text: Text, c: &mut Config) -> Result<Moved, NoMemory>
    requires { c.old.top.pc + 1 < 2 ^ 64 }
    ensures { IfOk result (λ m. IsStep (things.text_next text c.old c.old.top.stack) m c.new) }
{
    let size = bytes_in(&text);
    match charge_sized(Some(size), c) {
        Some(moved) => Ok(moved),
        None => next_with(Value::Plain(Cell::Text(text)), c),
    }
}

fn message_next(message: Cell, c: &mut Config) -> Result<Moved, NoMemory>
    requires { c.old.top.pc + 1 < 2 ^ 64 }
    ensures { IfOk result (λ m. IsStep (things.message_next message c.old c.old.top.stack) m c.new) }
{
    match message {
        Cell::Text(text) => text_next(text, c),
        message => next_with(Value::Plain(message), c),
    }
}

fn on_message(alloc: Global, on: &Value, c: &mut Config) -> Result<Moved, NoMemory>
    requires { c.old.top.pc + 1 < 2 ^ 64 }
    ensures { IfOk result (λ m. IsStep (things.on_exception on.now c.old (λ t. things.message_next (message_of_thing t) c.old c.old.top.stack)) m c.new) }
{
    match message_named(on, &c.world.heap)? {
        Some(message) => message_next(message, c),
        None => Ok(raise(alloc, Thrown::NullObject, c)),
    }
}

// The name of a class.
fn name_next(
    alloc: Global,
    image: &Image,
    kind: ThingKind,
    c: &mut Config,
) -> Result<Moved, NoMemory>
    requires { c.old.top.pc + 1 < 2 ^ 64 }
    ensures { IfOk result (λ m. IsStep (things.text_next (things.name_of_kind image.now (as_kind kind)) c.old c.old.top.stack) m c.new) }
{
    let name = name_of_kind(alloc, image, kind)?;
    text_next(name, c)
}

fn on_type_name(alloc: Global, image: &Image, on: &Value, c: &mut Config) -> Result<Moved, NoMemory>
    requires { c.old.top.pc + 1 < 2 ^ 64 }
    ensures { IfOk result (λ m. IsStep (things.on_exception on.now c.old (λ t. things.text_next (things.name_of_kind image.now (kind_of_thing t)) c.old c.old.top.stack)) m c.new) }
{
    match kind_named(on, &c.world.heap) {
        ThingKind::Nothing => Ok(raise(alloc, Thrown::NullObject, c)),
        ThingKind::BuiltIn(class) => name_next(alloc, image, ThingKind::BuiltIn(class), c),
        ThingKind::Declared(class) => name_next(alloc, image, ThingKind::Declared(class), c),
    }
}

// ---- errors of records

// An error is added to a record that takes one.
fn add_error(alloc: Global, message: Text, on: Ref, c: &mut Config) -> Result<Moved, NoMemory>
    requires { c.old.top.pc + 1 < 2 ^ 64 }
    ensures { IfOk result (λ m. IsStep (things.if_takes_error (takes_error (guard_of c.old.world.heap on.place)) c.old (spec.next (spec.with_heap c.old (with_error on.place message c.old.world.heap)) (null ∷ c.old.top.stack))) m c.new) }
{
    let takes = c.world.heap.takes_error(on);
    if takes {
        c.world.heap.add_error(on, message);
        next_with(Value::Plain(Cell::Null), c)
    } else {
        Ok(raise(alloc, Thrown::NoErrors, c))
    }
}

// A null message throws.
fn message_added(alloc: Global, message: Cell, on: Ref, c: &mut Config) -> Result<Moved, NoMemory>
    requires { c.old.top.pc + 1 < 2 ^ 64 }
    ensures { IfOk result (λ m. IsStep (things.message_added message on.place c.old c.old.top.stack) m c.new) }
{
    match message {
        Cell::Text(text) => add_error(alloc, text, on, c),
        _ => Ok(raise(alloc, Thrown::NullObject, c)),
    }
}

// An error is added to the record that a value names.
fn error_next(alloc: Global, on: &Value, message: Value, c: &mut Config) -> Result<Moved, NoMemory>
    requires { c.old.top.pc + 1 < 2 ^ 64 }
    ensures { IfOk result (λ m. IsStep (things.error_next on.now message c.old c.old.top.stack) m c.new) }
{
    match on {
        Value::Plain(_) => Ok(raise(alloc, Thrown::NullObject, c)),
        Value::Object(thing) => message_added(alloc, cell_of(message), *thing, c),
    }
}

// ---- methods that ask the request

fn count_next(kind: LimitKind, c: &mut Config) -> Result<Moved, NoMemory>
    requires { c.old.top.pc + 1 < 2 ^ 64 }
    ensures { IfOk result (λ m. IsStep (things.count_next kind c.old c.old.top.stack) m c.new) }
{
    let count = c.world.txn.meter.count(kind);
    next_with(Value::Plain(Cell::Whole(count as i64)), c)
}

fn most_next(kind: LimitKind, c: &mut Config) -> Result<Moved, NoMemory>
    requires { c.old.top.pc + 1 < 2 ^ 64 }
    ensures { IfOk result (λ m. IsStep (things.most_next kind c.old c.old.top.stack) m c.new) }
{
    next_with(Value::Plain(Cell::Whole(most_of(kind) as i64)), c)
}

fn today(alloc: Global, now: i64, c: &mut Config) -> Result<Moved, NoMemory>
    requires { c.old.top.pc + 1 < 2 ^ 64 }
    ensures { IfOk result (λ m. IsStep (things.answered_next (meaning (B.Moment Date) (C.Moment now ∷ [])) c.old c.old.top.stack) m c.new) }
{
    let moment = [Cell::Moment(now)];
    answered_next(alloc, Builtin::Moment(MomentMethod::Date), &moment, c)
}

fn first(values: &[Value]) -> Result<Value, NoMemory>
    ensures { IfOk result (λ v. v ≡ first_of values.now) }
{
    match values {
        [value, ..] => value.copy(),
        [] => Ok(Value::Plain(Cell::Null)),
    }
}

fn second(values: &[Value]) -> Result<Value, NoMemory>
    ensures { IfOk result (λ v. v ≡ first_of (rest_of values.now)) }
{
    match values {
        [_, rest @ ..] => first(rest),
        [] => Ok(Value::Plain(Cell::Null)),
    }
}

// An error is added to the record that is the first value.
fn on_error(alloc: Global, values: &[Value], c: &mut Config) -> Result<Moved, NoMemory>
    requires { c.old.top.pc + 1 < 2 ^ 64 }
    ensures { IfOk result (λ m. IsStep (things.error_next (first_of values.now) (first_of (rest_of values.now)) c.old c.old.top.stack) m c.new) }
{
    let on = first(values)?;
    let message = second(values)?;
    error_next(alloc, &on, message, c)
}

fn on_platform(
    alloc: Global,
    image: &Image,
    ticket: Ticket,
    method: PlatformMethod,
    values: &[Value],
    c: &mut Config,
) -> Result<Moved, NoMemory>
    requires room { c.old.top.pc + 1 < 2 ^ 64 }
    requires user { suc ticket.user < most }
    ensures { IfOk result (λ m. IsStep (things.platform_next ticket image.now method values.now c.old c.old.top.stack) m c.new) }
{
    match method {
        PlatformMethod::Today => today(alloc, ticket.now, c),
        PlatformMethod::Now => next_with(Value::Plain(Cell::Moment(ticket.now)), c),
        PlatformMethod::UserId => next_with(Value::Plain(Cell::Id(user_id(ticket.user))), c),
        PlatformMethod::Message => on_message(alloc, &first(values)?, c),
        PlatformMethod::TypeName => on_type_name(alloc, image, &first(values)?, c),
        PlatformMethod::AddError => on_error(alloc, values, c),
        PlatformMethod::Queries => count_next(LimitKind::Queries, c),
        PlatformMethod::QueryRows => count_next(LimitKind::Rows, c),
        PlatformMethod::DmlStatements => count_next(LimitKind::Dml, c),
        PlatformMethod::DmlRows => count_next(LimitKind::Saved, c),
        PlatformMethod::LimitQueries => most_next(LimitKind::Queries, c),
        PlatformMethod::LimitQueryRows => most_next(LimitKind::Rows, c),
        PlatformMethod::LimitDmlStatements => most_next(LimitKind::Dml, c),
        PlatformMethod::LimitDmlRows => most_next(LimitKind::Saved, c),
        _ => refused(alloc, c),
    }
}

// ---- all

fn builtin_next(
    alloc: Global,
    image: &Image,
    ticket: Ticket,
    which: Builtin,
    values: Vec<Value>,
    c: &mut Config,
) -> Result<Moved, NoMemory>
    requires room { c.old.top.pc + 1 < 2 ^ 64 }
    requires user { suc ticket.user < most }
    ensures { IfOk result (λ m. IsStep (things.builtin_next ticket image.now which values.items c.old c.old.top.stack) m c.new) }
{
    match which {
        Builtin::List(_) | Builtin::Set(_) | Builtin::Map(_) | Builtin::Join => {
            on_collection(alloc, which, values.as_slice(), c)
        }
        Builtin::Platform(method) => {
            on_platform(alloc, image, ticket, method, values.as_slice(), c)
        }
        _ => primitive(alloc, which, values, c),
    }
}

/// Takes so many values, the receiver first where there is one, and puts what the built-in method answers.
pub fn act_builtin(
    alloc: Global,
    image: &Image,
    ticket: Ticket,
    which: Builtin,
    count: usize,
    c: &mut Config,
) -> Result<Moved, NoMemory>
    requires room { c.old.top.pc + 1 < 2 ^ 64 }
    requires user { suc ticket.user < most }
    ensures { IfOk result (λ m. IsStep (spec.on_taken count c.old.top.stack (λ vs stack. things.builtin_next ticket image.now which vs c.old stack)) m c.new) }
{
    let values = take_values(alloc, count, &mut c.top.stack)?;
    builtin_next(alloc, image, ticket, which, values, c)
}
