// Built-in exceptions.

ghost use Rattle.std.specs.Prelude.{◌≡◌};
ghost use Rattle.std.specs.Prelude.{◌++◌, IfOk};
ghost use Rattle.builtin_table.specs.Answers.{class_name, Throws, Fails, out_of_range, null_object, invalid_date, invalid_conversion};

use apex_num::Text;
use std::alloc::{AllocError, Global};

/// A built-in exception class, a child of `Exception`. `LimitException` and `AssertException` can't be caught.
#[derive(Clone, Copy, PartialEq, Eq, Drop)]
pub enum ExceptionClass {
    Math,
    NullPointer,
    List,
    Query,
    SObject,
    Final,
    String,
    Type,
    Dml,
    Limit,
    Assert,
}

impl ExceptionClass {
    /// The name of the class, as `getTypeName` answers it.
    pub fn name(self) -> &'static str
        ensures { result.now ≡ class_name self }
    {
        match self {
            ExceptionClass::Math => "MathException",
            ExceptionClass::NullPointer => "NullPointerException",
            ExceptionClass::List => "ListException",
            ExceptionClass::Query => "QueryException",
            ExceptionClass::SObject => "SObjectException",
            ExceptionClass::Final => "FinalException",
            ExceptionClass::String => "StringException",
            ExceptionClass::Type => "TypeException",
            ExceptionClass::Dml => "DmlException",
            ExceptionClass::Limit => "LimitException",
            ExceptionClass::Assert => "AssertException",
        }
    }
}

/// Why a built-in method has no answer.
#[derive(Drop)]
pub enum BuiltinEnd {
    /// An exception of this class with this message.
    Throw(ExceptionClass, Text),
    NoMemory,
}

impl From<AllocError> for BuiltinEnd {
    ghost use Rattle.std.specs.Prelude.{◌≡◌};
    ghost use Rattle.builtin_table.specs.declared.exception.BuiltinEnd.TheVariants.{NoMemory};

    ghost from_gives = { λ _ e. e ≡ NoMemory };

    fn from(_: AllocError) -> BuiltinEnd {
        BuiltinEnd::NoMemory
    }
}

/// An exception with this message.
pub(crate) fn thrown(alloc: Global, class: ExceptionClass, message: &str) -> BuiltinEnd
    ensures { Fails (Throws class message.now) result }
{
    match Text::from_str(alloc, message) {
        Ok(message) => BuiltinEnd::Throw(class, message),
        Err(_) => BuiltinEnd::NoMemory,
    }
}

fn joined(alloc: Global, front: &str, text: &str) -> Result<Text, AllocError>
    ensures { IfOk result (λ t. t ≡ front.now ++ text.now) }
{
    let mut message = String::from_str(alloc, front)?;
    message.push_str(text)?;
    Text::from_string(alloc, message)
}

/// An exception whose message is these two texts.
pub(crate) fn thrown_with(
    alloc: Global,
    class: ExceptionClass,
    front: &str,
    text: &str,
) -> BuiltinEnd
    ensures { Fails (Throws class (front.now ++ text.now)) result }
{
    match joined(alloc, front, text) {
        Ok(message) => BuiltinEnd::Throw(class, message),
        Err(_) => BuiltinEnd::NoMemory,
    }
}

pub(crate) fn out_of_range(alloc: Global) -> BuiltinEnd
    ensures { Fails out_of_range result }
{
    thrown(alloc, ExceptionClass::Math, "Out of range")
}

pub(crate) fn null_object(alloc: Global) -> BuiltinEnd
    ensures { Fails null_object result }
{
    thrown(
        alloc,
        ExceptionClass::NullPointer,
        "Attempt to de-reference a null object",
    )
}

pub(crate) fn invalid_date(alloc: Global) -> BuiltinEnd
    ensures { Fails invalid_date result }
{
    thrown(alloc, ExceptionClass::Type, "Invalid date")
}

/// What a method throws at arguments that aren't of its types.
pub(crate) fn invalid_conversion(alloc: Global) -> BuiltinEnd
    ensures { Fails invalid_conversion result }
{
    thrown(alloc, ExceptionClass::Type, "Invalid conversion")
}
