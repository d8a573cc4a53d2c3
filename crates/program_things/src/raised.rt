// What is thrown, and how it is told.

ghost use Rattle.std.specs.Prelude.{◌≡◌, IfOk};
ghost use Rattle.std.specs.Option.{option_copied};
ghost use Rattle.apex_meaning.specs.Exceptions as exceptions;
ghost use Rattle.program_things.specs.Kinds.{as_kind};

use crate::kinds::{ThingKind, kind_of};
use activations::Raised;
use apex_num::{Cell, NoMemory, Text};
use std::alloc::Global;
use txn_heap::{Heap, Thing};

/// What was thrown.
pub fn kind_raised(raised: &Raised, heap: &Heap) -> ThingKind
    ensures { as_kind result ≡ exceptions.kind_of raised.now heap.now }
{
    match raised {
        Raised::Platform(thrown) => ThingKind::BuiltIn(thrown.class()),
        Raised::Made(thing) => kind_of(heap.get(*thing)),
    }
}

// A message as it is told: null as a null is.
fn message_text(alloc: Global, message: &Cell) -> Result<Text, NoMemory>
    ensures { IfOk result (λ t. t ≡ exceptions.message_text message.now) }
{
    match message {
        Cell::Text(text) => text.copy(),
        _ => Text::from_str(alloc, "null"),
    }
}

fn message_of(alloc: Global, thing: Option<&Thing>) -> Result<Text, NoMemory>
    ensures { IfOk result (λ t. t ≡ exceptions.message_text (exceptions.message_of_thing (option_copied thing.entry))) }
{
    match thing {
        Some(Thing::Instance(instance)) => message_text(alloc, &instance.message),
        Some(Thing::Exception(exception)) => message_text(alloc, &exception.message),
        _ => Text::from_str(alloc, "null"),
    }
}

/// The message of what was thrown, as it is told.
pub fn message_told(alloc: Global, raised: &Raised, heap: &Heap) -> Result<Text, NoMemory>
    ensures { IfOk result (λ t. t ≡ exceptions.message_told raised.now heap.now) }
{
    match raised {
        Raised::Platform(thrown) => thrown.message(alloc),
        Raised::Made(thing) => message_of(alloc, heap.get(*thing)),
    }
}
