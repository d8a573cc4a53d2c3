// Instructions of exceptions, casts, records and debug lines.

ghost use Rattle.std.specs.Prelude.{◌≡◌, ◌≤◌, ◌<◌, ◌+◌, ◌^◌, ◌∷◌, [], length, slice_get, IfOk, OnOk};
ghost use Rattle.std.specs.Option.{option_copied};
ghost use Rattle.apex_num.specs.declared.kind.LimitKind.TheVariants.{Alloc};
ghost use Rattle.apex_meaning.specs.Collections.{message_among};
ghost use Rattle.apex_meaning.specs.Exceptions.{is_built_in as built_in};
ghost use Rattle.apex_meaning.specs.Preparing.{with_message};
ghost use Rattle.txn_heap.specs.declared.thing.Thing.TheVariants as T;
ghost use Rattle.stack_code.specs.Machine as spec;
ghost use Rattle.stack_code.specs.Things as things;
ghost use Rattle.program_things.specs.Kinds.{cast_fits, told_as};
ghost use Rattle.program_things.specs.Steps.{ChargesText, IsStep};
ghost use Rattle.value_texts.specs.Texts.{text_of};

use crate::charges::charge_record;
use crate::collections::{made_next, make_thing};
use crate::ends::limited;
use crate::kinds::{is_built_in, is_declared, kind_of};
use crate::moved::Moved;
use crate::operands::{next, next_with, raise, take, take_values};
use crate::records::{new_cells, pair_count};
use apex_num::{Cell, NoMemory, Text, copy_list};
use apex_requests::Ticket;
use apex_schema::Schema;
use builtin_table::ExceptionClass;
use platform_errors::Thrown;
use stack_code::{Config, Image};
use std::alloc::Global;
use txn_heap::{Exception, Heap, Instance, Record, Ref, Thing, Value};
use value_texts::charged_text;

// ---- exceptions

// The message that a constructor is given; null where there is none.
fn message_given(values: &[Value]) -> Result<Cell, NoMemory>
    ensures { IfOk result (λ m. m ≡ message_among values.now) }
{
    match values {
        [Value::Plain(message), ..] => message.copy(),
        _ => Ok(Cell::Null),
    }
}

/// Takes a message or nothing, and puts a new exception of a built-in class.
pub fn act_exception(
    alloc: Global,
    class: ExceptionClass,
    count: usize,
    c: &mut Config,
) -> Result<Moved, NoMemory>
    requires { c.old.top.pc + 1 < 2 ^ 64 }
    ensures { IfOk result (λ m. IsStep (spec.on_taken count c.old.top.stack (λ vs stack. things.make_for 32 (T.Exception (record { class = class; message = message_among vs })) c.old stack)) m c.new) }
{
    let values = take_values(alloc, count, &mut c.top.stack)?;
    let message = message_given(values.as_slice())?;
    make_thing(Thing::Exception(Exception { class, message }), c)
}

// An instance with another message.
fn with_its_message(instance: &Instance, message: &Cell) -> Result<Instance, NoMemory>
    ensures { IfOk result (λ i. i ≡ record instance.now { message = message.now }) }
{
    Ok(Instance {
        class: instance.class,
        message: message.copy()?,
        fields: copy_list(&instance.fields)?,
    })
}

// The instance with another message; none where the thing is none.
fn told(thing: Option<&Thing>, message: &Cell) -> Result<Option<Thing>, NoMemory>
    ensures { IfOk result (λ t. t ≡ told_as message.now (option_copied thing.entry)) }
{
    match thing {
        Some(Thing::Instance(instance)) => {
            Ok(Some(Thing::Instance(with_its_message(instance, message)?)))
        }
        _ => Ok(None),
    }
}

fn put_message(heap: &mut Heap, on: Ref, message: &Cell) -> Result<(), NoMemory>
    ensures { OnOk result (heap.new ≡ with_message message.now (slice_get heap.old on.place) on.place heap.old) }
{
    if let Some(thing) = told(heap.get(on), message)? {
        heap.replace(on, thing);
    }
    Ok(())
}

// The first of the values becomes the message of an exception.
fn set_message(this: &Value, values: &[Value], c: &mut Config) -> Result<(), NoMemory>
    ensures { OnOk result (c.new ≡ things.set_message this.now values.now c.old) }
{
    match this {
        Value::Plain(_) => Ok(()),
        Value::Object(on) => match values {
            [Value::Plain(message), ..] => put_message(&mut c.world.heap, *on, message),
            _ => Ok(()),
        },
    }
}

/// Takes so many values from under an exception, of which the first one becomes its message, and puts it.
pub fn act_message(alloc: Global, count: usize, c: &mut Config) -> Result<Moved, NoMemory>
    requires { c.old.top.pc + 1 < 2 ^ 64 }
    ensures { IfOk result (λ m. IsStep (spec.on_top c.old.top.stack (λ this rest. spec.on_taken count rest (λ vs stack. spec.next (things.set_message this vs c.old) (this ∷ stack)))) m c.new) }
{
    let this = take(&mut c.top.stack);
    let values = take_values(alloc, count, &mut c.top.stack)?;
    set_message(&this, values.as_slice(), c)?;
    next_with(this, c)
}

/// Takes so many values, of which the first one becomes the message of the exception that the code runs on.
pub fn act_message_this(alloc: Global, count: usize, c: &mut Config) -> Result<Moved, NoMemory>
    requires { c.old.top.pc + 1 < 2 ^ 64 }
    ensures { IfOk result (λ m. IsStep (spec.on_taken count c.old.top.stack (λ vs stack. spec.next (things.set_message c.old.top.here.this vs c.old) stack)) m c.new) }
{
    let values = take_values(alloc, count, &mut c.top.stack)?;
    let this = c.top.here.this.copy()?;
    set_message(&this, values.as_slice(), c)?;
    Ok(next(c))
}

// ---- casts

fn cast_if(alloc: Global, good: bool, value: Value, c: &mut Config) -> Result<Moved, NoMemory>
    requires { c.old.top.pc + 1 < 2 ^ 64 }
    ensures { IfOk result (λ m. IsStep (things.cast_if good value c.old c.old.top.stack) m c.new) }
{
    if good {
        next_with(value, c)
    } else {
        Ok(raise(alloc, Thrown::InvalidConversion, c))
    }
}

// Whether a value is null or of a class.
fn is_of(image: &Image, class: usize, value: &Value, heap: &Heap) -> bool
    ensures { result ≡ cast_fits (things.is_declared image.now class) value.now heap.now }
{
    match value {
        Value::Plain(_) => true,
        Value::Object(thing) => is_declared(image, class, kind_of(heap.get(*thing))),
    }
}

/// Takes a value that has to be of a class, and puts it.
pub fn act_cast(
    alloc: Global,
    image: &Image,
    class: usize,
    c: &mut Config,
) -> Result<Moved, NoMemory>
    requires { c.old.top.pc + 1 < 2 ^ 64 }
    ensures { IfOk result (λ m. IsStep (spec.on_top c.old.top.stack (λ v stack. things.cast_next (things.is_declared image.now class) v c.old stack)) m c.new) }
{
    let value = take(&mut c.top.stack);
    let good = is_of(image, class, &value, &c.world.heap);
    cast_if(alloc, good, value, c)
}

// Whether a value is null or an exception of a built-in class.
fn is_exception_of(class: ExceptionClass, value: &Value, heap: &Heap) -> bool
    ensures { result ≡ cast_fits (built_in class) value.now heap.now }
{
    match value {
        Value::Plain(_) => true,
        Value::Object(thing) => is_built_in(class, kind_of(heap.get(*thing))),
    }
}

/// Takes a value that has to be an exception of a built-in class, and puts it.
pub fn act_cast_exception(
    alloc: Global,
    class: ExceptionClass,
    c: &mut Config,
) -> Result<Moved, NoMemory>
    requires { c.old.top.pc + 1 < 2 ^ 64 }
    ensures { IfOk result (λ m. IsStep (spec.on_top c.old.top.stack (λ v stack. things.cast_next (built_in class) v c.old stack)) m c.new) }
{
    let value = take(&mut c.top.stack);
    let good = is_exception_of(class, &value, &c.world.heap);
    cast_if(alloc, good, value, c)
}

// ---- records and lines

fn record_next(
    alloc: Global,
    schema: &Schema,
    ticket: Ticket,
    object: usize,
    fields: &[usize],
    values: Vec<Value>,
    c: &mut Config,
) -> Result<Moved, NoMemory>
    requires { c.old.top.pc + 1 < 2 ^ 64 }
    ensures { IfOk result (λ m. IsStep (things.record_next (record { schema = schema.now; ticket = ticket }) object (things.paired fields.now values.items) c.old c.old.top.stack) m c.new) }
{
    let pairs = pair_count(fields, values.as_slice());
    match charge_record(pairs, c) {
        Some(moved) => Ok(moved),
        None => {
            let cells = new_cells(alloc, schema.objects.get(object), fields, values)?;
            let record = Record {
                object,
                cells,
                selected: None,
            };
            made_next(Thing::Record(record), c)
        }
    }
}

/// Takes a value for each of these fields and puts a new record of the object.
pub fn act_record(
    alloc: Global,
    schema: &Schema,
    ticket: Ticket,
    object: usize,
    fields: &[usize],
    c: &mut Config,
) -> Result<Moved, NoMemory>
    requires { c.old.top.pc + 1 < 2 ^ 64 }
    ensures { IfOk result (λ m. IsStep (spec.on_taken (length fields.now) c.old.top.stack (λ vs stack. things.record_next (record { schema = schema.now; ticket = ticket }) object (things.paired fields.now vs) c.old stack)) m c.new) }
{
    let values = take_values(alloc, fields.len(), &mut c.top.stack)?;
    record_next(alloc, schema, ticket, object, fields, values, c)
}

// The text of a value, which is charged before it is made.
fn text_charged(
    alloc: Global,
    image: &Image,
    schema: &Schema,
    value: &Value,
    c: &mut Config,
) -> Result<Result<Text, Moved>, NoMemory>
    ensures { IfOk result (λ made. ChargesText (text_of schema.now image.now.names c.old.world.heap value.now) c.old made c.new) }
{
    let names = image.names.as_slice();
    let meter = &mut c.world.txn.meter;
    match charged_text(alloc, schema, names, &c.world.heap, value, meter)? {
        Ok(text) => Ok(Ok(text)),
        Err(limit) => Ok(Err(limited(limit, c))),
    }
}

fn print_next(
    alloc: Global,
    image: &Image,
    schema: &Schema,
    ticket: Ticket,
    value: &Value,
    c: &mut Config,
) -> Result<Moved, NoMemory>
    requires { c.old.top.pc + 1 < 2 ^ 64 }
    ensures { IfOk result (λ m. IsStep (things.print_next (record { schema = schema.now; ticket = ticket }) image.now value.now c.old c.old.top.stack) m c.new) }
{
    match text_charged(alloc, image, schema, value, c)? {
        Err(over) => Ok(over),
        Ok(text) => {
            c.world.debug.push(text)?;
            next_with(Value::Plain(Cell::Null), c)
        }
    }
}

/// Takes a value, prints its text, which is charged first, and puts null.
pub fn act_print(
    alloc: Global,
    image: &Image,
    schema: &Schema,
    ticket: Ticket,
    c: &mut Config,
) -> Result<Moved, NoMemory>
    requires { c.old.top.pc + 1 < 2 ^ 64 }
    ensures { IfOk result (λ m. IsStep (spec.on_top c.old.top.stack (λ v stack. things.print_next (record { schema = schema.now; ticket = ticket }) image.now v c.old stack)) m c.new) }
{
    let value = take(&mut c.top.stack);
    print_next(alloc, image, schema, ticket, &value, c)
}
