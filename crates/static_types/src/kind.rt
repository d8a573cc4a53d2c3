// Types.

ghost use Rattle.std.specs.Prelude.{◌≡◌, IfOk};
ghost use Rattle.static_types.specs.Types as spec;

use apex_list::Boxed;
use apex_num::NoMemory;
use builtin_table::ExceptionClass;

/// A primitive type.
#[derive(Clone, Copy, Debug, PartialEq, Eq, Hash, Drop)]
pub enum Primitive {
    Boolean,
    /// 32 bits.
    Integer,
    /// 64 bits.
    Long,
    /// Millionths.
    Decimal,
    String,
    Id,
    Date,
    Datetime,
}

/// A type of what the platform answers.
#[derive(Clone, Copy, Debug, PartialEq, Eq, Hash, Drop)]
pub enum PlatformType {
    Savepoint,
    SaveResult,
    DeleteResult,
    UpsertResult,
    /// `Database.Error`
    Error,
}

/// A type that a variable may have.
#[derive(Drop)]
pub enum ValueType {
    Primitive(Primitive),
    List(Boxed<ValueType>),
    Set(Primitive),
    /// The type of the keys, and that of the values.
    Map(Primitive, Boxed<ValueType>),
    /// A record of the object with this number.
    Record(usize),
    /// The class or interface with this number.
    Class(usize),
    /// `Exception`, the ancestor of all exceptions.
    AnyException,
    /// A built-in child of `Exception`.
    Exception(ExceptionClass),
    Platform(PlatformType),
}

impl ValueType {
    /// An equal type.
    #[cycle(copy_type)]
    pub fn copy(&self) -> Result<ValueType, NoMemory>
        ensures { IfOk result (λ c. c ≡ self.now) }
    {
        match self {
            ValueType::Primitive(p) => Ok(ValueType::Primitive(*p)),
            ValueType::List(item) => {
                let copied = item.get().copy()?;
                Ok(ValueType::List(Boxed::new(item.allocator(), copied)?))
            }
            ValueType::Set(p) => Ok(ValueType::Set(*p)),
            ValueType::Map(key, value) => {
                let copied = value.get().copy()?;
                Ok(ValueType::Map(*key, Boxed::new(value.allocator(), copied)?))
            }
            ValueType::Record(n) => Ok(ValueType::Record(*n)),
            ValueType::Class(n) => Ok(ValueType::Class(*n)),
            ValueType::AnyException => Ok(ValueType::AnyException),
            ValueType::Exception(class) => Ok(ValueType::Exception(*class)),
            ValueType::Platform(kind) => Ok(ValueType::Platform(*kind)),
        }
    }

    /// Whether two types are equal.
    #[cycle(same_type)]
    pub fn same(&self, other: &ValueType) -> bool
        ensures { result ≡ spec.same self.now other.now }
    {
        match (self, other) {
            (ValueType::Primitive(a), ValueType::Primitive(b)) => a == b,
            (ValueType::List(a), ValueType::List(b)) => a.get().same(b.get()),
            (ValueType::Set(a), ValueType::Set(b)) => a == b,
            (ValueType::Map(k, a), ValueType::Map(l, b)) => k == l && a.get().same(b.get()),
            (ValueType::Record(a), ValueType::Record(b)) => a == b,
            (ValueType::Class(a), ValueType::Class(b)) => a == b,
            (ValueType::AnyException, ValueType::AnyException) => true,
            (ValueType::Exception(a), ValueType::Exception(b)) => a == b,
            (ValueType::Platform(a), ValueType::Platform(b)) => a == b,
            _ => false,
        }
    }
}
