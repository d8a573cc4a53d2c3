// Types by their names.

ghost use Rattle.std.specs.Prelude.{◌≡◌, map};
ghost use Rattle.static_types.specs.Names as spec;

use crate::kind::{PlatformType, Primitive};
use apex_text::Name;
use builtin_table::ExceptionClass;

/// What a name that stands alone, or behind `System.`, says of a type.
#[derive(Clone, Copy, PartialEq, Eq, Drop)]
pub enum TypeName {
    Primitive(Primitive),
    /// `Double`, which isn't had.
    Double,
    List,
    Set,
    Map,
    Savepoint,
    /// `Exception`
    AnyException,
    Exception(ExceptionClass),
}

/// A name in small letters, and what it says.
#[derive(Clone, Copy, Drop)]
pub struct NameRow<A> {
    pub name: &'static str,
    pub says: A,
}

// Rows, each on a line: a name, and what it says.
macro_rules! name_rows {
    ($($name:expr => $says:expr),+ $(,)?) => {
        [$(NameRow { name: $name, says: $says }),+]
    };
}

// The names that stand alone, or behind `System.`.
fn type_rows() -> [NameRow<TypeName>; 25]
    ensures { map spec.shown result ≡ spec.type_names }
{
    name_rows! {
        "boolean" => TypeName::Primitive(Primitive::Boolean),
        "integer" => TypeName::Primitive(Primitive::Integer),
        "long" => TypeName::Primitive(Primitive::Long),
        "decimal" => TypeName::Primitive(Primitive::Decimal),
        "string" => TypeName::Primitive(Primitive::String),
        "id" => TypeName::Primitive(Primitive::Id),
        "date" => TypeName::Primitive(Primitive::Date),
        "datetime" => TypeName::Primitive(Primitive::Datetime),
        "double" => TypeName::Double,
        "list" => TypeName::List,
        "set" => TypeName::Set,
        "map" => TypeName::Map,
        "savepoint" => TypeName::Savepoint,
        "exception" => TypeName::AnyException,
        "mathexception" => TypeName::Exception(ExceptionClass::Math),
        "nullpointerexception" => TypeName::Exception(ExceptionClass::NullPointer),
        "listexception" => TypeName::Exception(ExceptionClass::List),
        "queryexception" => TypeName::Exception(ExceptionClass::Query),
        "sobjectexception" => TypeName::Exception(ExceptionClass::SObject),
        "finalexception" => TypeName::Exception(ExceptionClass::Final),
        "stringexception" => TypeName::Exception(ExceptionClass::String),
        "typeexception" => TypeName::Exception(ExceptionClass::Type),
        "dmlexception" => TypeName::Exception(ExceptionClass::Dml),
        "limitexception" => TypeName::Exception(ExceptionClass::Limit),
        "assertexception" => TypeName::Exception(ExceptionClass::Assert),
    }
}

// The names that stand behind `Database.`.
fn platform_rows() -> [NameRow<PlatformType>; 4]
    ensures { map spec.shown result ≡ spec.platform_names }
{
    name_rows! {
        "saveresult" => PlatformType::SaveResult,
        "deleteresult" => PlatformType::DeleteResult,
        "upsertresult" => PlatformType::UpsertResult,
        "error" => PlatformType::Error,
    }
}

// What the row with this name says.
fn said<A: Copy>(rows: &[NameRow<A>], name: &[u8]) -> Option<A>
    ensures { result ≡ spec.said (map spec.shown rows.now) name.now }
{
    for one in rows {
        if one.name.as_bytes() == name {
            return Some(one.says);
        }
    }
    None
}

/// What a name says of a type where it stands alone, or behind `System.`.
pub fn type_name(name: &Name) -> Option<TypeName>
    ensures { result ≡ spec.said spec.type_names name.now }
{
    said(&type_rows(), name.bytes())
}

/// What a name says of a type where it stands behind `Database.`.
pub fn platform_type(name: &Name) -> Option<PlatformType>
    ensures { result ≡ spec.said spec.platform_names name.now }
{
    said(&platform_rows(), name.bytes())
}
