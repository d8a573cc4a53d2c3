// Built-in methods.

ghost use Rattle.std.specs.Prelude.{◌≡◌, IfOk};
ghost use Rattle.static_types.specs.declared.kind.ValueType.TheViews.{out-ValueType};
ghost use Rattle.method_calls.specs.BuiltinUses as spec;

use apex_num::NoMemory;
use apex_text::Name;
use builtin_names::signature;
use builtin_signatures::{is_static, wants_primitive_items};
use builtin_table::Builtin;
use static_types::{PlatformType, Primitive, TypeName, ValueType};
use std::alloc::Global;
use typed_values::Space;

/// How a name and a number of arguments may be used as those of a built-in method.
#[derive(Clone, Copy, Drop)]
pub enum BuiltinUse {
    Unknown,
    /// There is a method of the name, and none with so many parameters.
    WrongCount,
    Found(Builtin),
}

/// What a built-in method is called on.
#[derive(Clone, Copy, Drop)]
pub enum Target {
    OnType,
    /// A value, and whether it is a list of primitives, which is searched and sorted.
    OnValue(bool),
}

// No method takes more arguments.
const COUNTS: [usize; 7] = [0, 1, 2, 3, 4, 5, 6];

fn is_for(on: Target, builtin: Builtin) -> bool
    ensures { result ≡ spec.is_for on builtin }
{
    match on {
        Target::OnType => is_static(builtin),
        Target::OnValue(sorts) => {
            !is_static(builtin) && (sorts || !wants_primitive_items(builtin))
        }
    }
}

// The method, if it is called so.
fn called(kind: &Name, method: &Name, count: usize, on: Target) -> Option<Builtin>
    ensures { result ≡ spec.called kind.now method.now count on }
{
    match signature(kind, method, count) {
        Some(builtin) => {
            if is_for(on, builtin) {
                Some(builtin)
            } else {
                None
            }
        }
        None => None,
    }
}

fn called_with_any(kind: &Name, method: &Name, counts: &[usize], on: Target) -> bool
    ensures { result ≡ spec.called_with_any kind.now method.now counts.now on }
{
    for count in counts {
        if called(kind, method, *count, on).is_some() {
            return true;
        }
    }
    false
}

fn use_of(kind: &Name, method: &Name, count: usize, on: Target) -> BuiltinUse
    ensures { result ≡ spec.use_of kind.now method.now count on }
{
    if let Some(builtin) = called(kind, method, count, on) {
        return BuiltinUse::Found(builtin);
    }
    if called_with_any(kind, method, &COUNTS, on) {
        BuiltinUse::WrongCount
    } else {
        BuiltinUse::Unknown
    }
}

/// How a built-in type's method is used that is called on a value, or on the type itself. The type is told by its word in
/// the table of methods.
pub fn builtin_use(
    alloc: Global,
    kind: &str,
    method: &Name,
    count: usize,
    on: Target,
) -> Result<BuiltinUse, NoMemory>
    ensures { IfOk result (λ u. u ≡ spec.builtin_use kind.now method.now count on) }
{
    let kind = Name::of(alloc, kind.as_bytes())?;
    Ok(use_of(&kind, method, count, on))
}

/// What is unknown for one number of arguments is so for every number.
pub fn laws_of_numbers()
    ensures { spec.UnknownForAll }
{}

fn primitive_word(p: Primitive) -> &'static str
    ensures { result.now ≡ spec.primitive_word p }
{
    match p {
        Primitive::Boolean => "boolean",
        Primitive::Integer => "integer",
        Primitive::Long => "long",
        Primitive::Decimal => "decimal",
        Primitive::String => "string",
        Primitive::Id => "id",
        Primitive::Date => "date",
        Primitive::Datetime => "datetime",
    }
}

fn platform_word(kind: PlatformType) -> &'static str
    ensures { result.now ≡ spec.platform_word kind }
{
    match kind {
        PlatformType::Savepoint => "savepoint",
        PlatformType::SaveResult => "database.saveresult",
        PlatformType::DeleteResult => "database.deleteresult",
        PlatformType::UpsertResult => "database.upsertresult",
        PlatformType::Error => "database.error",
    }
}

/// The word of a type in the table of methods; classes have none there.
pub fn type_word(kind: &ValueType) -> &'static str
    ensures { result.now ≡ spec.type_word (out-ValueType kind.now) }
{
    match kind {
        ValueType::Primitive(p) => primitive_word(*p),
        ValueType::List(_) => "list",
        ValueType::Set(_) => "set",
        ValueType::Map(..) => "map",
        ValueType::Record(_) => "sobject",
        ValueType::Class(_) => "",
        ValueType::AnyException | ValueType::Exception(_) => "exception",
        ValueType::Platform(kind) => platform_word(*kind),
    }
}

fn named_word(named: TypeName) -> &'static str
    ensures { result.now ≡ spec.named_word named }
{
    match named {
        TypeName::Primitive(p) => primitive_word(p),
        _ => "",
    }
}

/// The word of what stands before a dot in the table of methods.
pub fn space_word(space: Space) -> &'static str
    ensures { result.now ≡ spec.space_word space }
{
    match space {
        Space::Named(named) => named_word(named),
        Space::Database => "database",
        Space::Math => "math",
        Space::Limits => "limits",
        Space::UserInfo => "userinfo",
        Space::Class(_) | Space::Record(_) | Space::System | Space::Trigger => "",
    }
}
