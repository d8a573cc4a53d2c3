// How built-in methods are called.

ghost use Rattle.std.specs.Prelude.{◌≡◌};
ghost use Rattle.builtin_signatures.specs.Statics as spec;

use builtin_table::{Builtin, ListMethod, PlatformMethod};

fn is_static_platform(which: PlatformMethod) -> bool
    ensures { result ≡ spec.is_static_platform which }
{
    match which {
        PlatformMethod::Message
        | PlatformMethod::TypeName
        | PlatformMethod::IsSuccess
        | PlatformMethod::ResultId
        | PlatformMethod::Errors
        | PlatformMethod::ErrorMessage
        | PlatformMethod::StatusCode
        | PlatformMethod::AddError => false,
        _ => true,
    }
}

/// Whether a built-in method is called on a type, and not on a value of it.
pub fn is_static(which: Builtin) -> bool
    ensures { result ≡ spec.is_static which }
{
    match which {
        Builtin::Nullable(_)
        | Builtin::TextOf
        | Builtin::Read(_)
        | Builtin::Math(_)
        | Builtin::NewDate
        | Builtin::DaysInMonth
        | Builtin::IsLeapYear
        | Builtin::NewMoment
        | Builtin::Join => true,
        Builtin::Platform(which) => is_static_platform(which),
        _ => false,
    }
}

/// Whether a method of a List is there for primitive items alone.
pub fn wants_primitive_items(which: Builtin) -> bool
    ensures { result ≡ spec.wants_primitive_items which }
{
    match which {
        Builtin::List(ListMethod::Contains | ListMethod::IndexOf | ListMethod::Sort) => true,
        _ => false,
    }
}
