// What things are.

ghost use Rattle.std.specs.Prelude.{◌≡◌, eqb, IfOk};
ghost use Rattle.std.specs.List.{list_any};
ghost use Rattle.std.specs.Option.{option_copied};
ghost use Rattle.apex_meaning.specs.Exceptions.{kind_of_thing, is_built_in as built_in};
ghost use Rattle.stack_code.specs.Calls.{fits_or};
ghost use Rattle.stack_code.specs.Things as things;
ghost use Rattle.program_things.specs.Kinds as spec;

use apex_num::{Cell, NoMemory, Text};
use builtin_table::ExceptionClass;
use stack_code::{ClassCode, Image};
use std::alloc::Global;
use txn_heap::{Heap, Thing, Value};

/// What a thing is as code sees it: an exception of a built-in class, an instance of a declared one, or neither.
#[derive(Clone, Copy, PartialEq, Eq, Drop)]
pub enum ThingKind {
    BuiltIn(ExceptionClass),
    Declared(usize),
    Nothing,
}

/// What a thing is.
pub fn kind_of(thing: Option<&Thing>) -> ThingKind
    ensures { spec.as_kind result ≡ kind_of_thing (option_copied thing.entry) }
{
    match thing {
        Some(Thing::Instance(instance)) => ThingKind::Declared(instance.class),
        Some(Thing::Exception(exception)) => ThingKind::BuiltIn(exception.class),
        _ => ThingKind::Nothing,
    }
}

/// What the thing is that a value names.
pub fn kind_named(on: &Value, heap: &Heap) -> ThingKind
    ensures { spec.as_kind result ≡ spec.kind_at on.now heap.now }
{
    match on {
        Value::Plain(_) => ThingKind::Nothing,
        Value::Object(thing) => kind_of(heap.get(*thing)),
    }
}

// A name of a class; none has no bytes.
fn name_or(alloc: Global, name: Option<&Text>) -> Result<Text, NoMemory>
    ensures { IfOk result (λ t. t ≡ things.bytes_or (option_copied name.entry)) }
{
    match name {
        Some(name) => name.copy(),
        None => Text::from_str(alloc, ""),
    }
}

/// The name of the class of a thing of this kind.
pub fn name_of_kind(alloc: Global, image: &Image, kind: ThingKind) -> Result<Text, NoMemory>
    ensures { IfOk result (λ t. t ≡ things.name_of_kind image.now (spec.as_kind kind)) }
{
    match kind {
        ThingKind::BuiltIn(class) => Text::from_str(alloc, class.name()),
        ThingKind::Declared(class) => name_or(alloc, image.names.get(class)),
        ThingKind::Nothing => Text::from_str(alloc, ""),
    }
}

/// Whether exceptions of this kind are of a built-in class.
pub fn is_built_in(class: ExceptionClass, kind: ThingKind) -> bool
    ensures { result ≡ built_in class (spec.as_kind kind) }
{
    match kind {
        ThingKind::BuiltIn(of) => class.name() == of.name(),
        _ => false,
    }
}

// Whether instances of a class are of another one.
fn fits_class(code: Option<&ClassCode>, class: usize) -> bool
    ensures { result ≡ list_any (eqb class) (fits_or (option_copied code.entry)) }
{
    match code {
        None => false,
        Some(code) => is_among(class, code.fits.as_slice()),
    }
}

fn is_class(class: usize, other: usize) -> bool
    ensures { result ≡ eqb class other }
{
    class == other
}

fn is_among(class: usize, classes: &[usize]) -> bool
    ensures { result ≡ list_any (eqb class) classes.now }
{
    for other in classes {
        if is_class(class, *other) {
            return true;
        }
    }
    false
}

/// Whether instances of this kind are of a declared class or interface.
pub fn is_declared(image: &Image, class: usize, kind: ThingKind) -> bool
    ensures { result ≡ things.is_declared image.now class (spec.as_kind kind) }
{
    match kind {
        ThingKind::Declared(own) => fits_class(image.classes.get(own), class),
        _ => false,
    }
}

// The message of an exception.
fn message_of(thing: Option<&Thing>) -> Result<Option<Cell>, NoMemory>
    ensures { IfOk result (λ m. m ≡ spec.message_in (option_copied thing.entry)) }
{
    match thing {
        Some(Thing::Instance(instance)) => Ok(Some(instance.message.copy()?)),
        Some(Thing::Exception(exception)) => Ok(Some(exception.message.copy()?)),
        _ => Ok(None),
    }
}

/// The message of the exception that a value names; none where it names none.
pub fn message_named(on: &Value, heap: &Heap) -> Result<Option<Cell>, NoMemory>
    ensures { IfOk result (λ m. m ≡ spec.message_at on.now heap.now) }
{
    match on {
        Value::Plain(_) => Ok(None),
        Value::Object(thing) => message_of(heap.get(*thing)),
    }
}
