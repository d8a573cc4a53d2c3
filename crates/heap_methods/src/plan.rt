// What a method is to do.

ghost use Rattle.std.specs.Prelude.{◌≡◌, ◌++◌, IfOk, codes};
ghost use Rattle.std.specs.Fmt.{signed_decimal};
ghost use Rattle.heap_methods.specs.Outcomes as outcome;
ghost use Rattle.heap_methods.specs.Plans.{FailsBy};

use apex_num::{Cell, Text};
use builtin_table::{BuiltinEnd, ExceptionClass, text_of};
use std::alloc::{AllocError, Global};
use txn_heap::{Change, Thing, Value};

/// What a method does, found without a change.
#[derive(Drop)]
pub enum Plan {
    /// It answers.
    Tells(Value),
    /// It answers the texts of its list with this one between each two.
    Joins(Text),
    /// Its thing changes, and it answers.
    Changes(Change, Value),
    /// Another thing comes in the place of its own, and it answers.
    Replaces(Thing, Value),
    /// It answers a new thing.
    Makes(Thing),
}

pub type Planned = Result<Plan, BuiltinEnd>;

pub(crate) fn null_object(alloc: Global) -> BuiltinEnd
    ensures { FailsBy outcome.null_object result }
{
    match Text::from_str(alloc, "Attempt to de-reference a null object") {
        Ok(message) => BuiltinEnd::Throw(ExceptionClass::NullPointer, message),
        Err(_) => BuiltinEnd::NoMemory,
    }
}

pub(crate) fn read_only(alloc: Global) -> BuiltinEnd
    ensures { FailsBy outcome.read_only result }
{
    match Text::from_str(alloc, "Record is read-only") {
        Ok(message) => BuiltinEnd::Throw(ExceptionClass::Final, message),
        Err(_) => BuiltinEnd::NoMemory,
    }
}

fn joined(alloc: Global, front: &str, text: &str) -> Result<Text, AllocError>
    ensures { IfOk result (λ t. t ≡ front.now ++ text.now) }
{
    let mut message = String::from_str(alloc, front)?;
    message.push_str(text)?;
    Text::from_string(alloc, message)
}

fn bounds_message(alloc: Global, n: i64) -> Result<Text, AllocError>
    ensures { IfOk result (λ t. t ≡ codes "List index out of bounds: " ++ signed_decimal n) }
{
    let number = text_of(alloc, &Cell::Whole(n))?;
    joined(alloc, "List index out of bounds: ", number.as_str())
}

pub(crate) fn out_of_bounds(alloc: Global, n: i64) -> BuiltinEnd
    ensures { FailsBy (outcome.out_of_bounds n) result }
{
    match bounds_message(alloc, n) {
        Ok(message) => BuiltinEnd::Throw(ExceptionClass::List, message),
        Err(_) => BuiltinEnd::NoMemory,
    }
}
