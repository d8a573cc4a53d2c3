// Fault words, and faults with their places.

ghost use Rattle.std.specs.Prelude.{◌≡◌, IfOk};

use apex_num::{NoMemory, Text};

/// What is wrong with a text, a bundle, a schema, a seed or a request.
#[derive(Clone, Copy, Debug, PartialEq, Eq, Drop)]
pub enum FaultWord {
    NotUtf8,
    BadChar,
    OpenText,
    OpenComment,
    WideLiteral,
    Expected,
    TooDeep,
    MixedAndOr,
    LockedOrder,
    TooManyLevels,
    UnknownType,
    DoubleRefused,
    UnknownName,
    NotVisible,
    Duplicate,
    WrongType,
    WrongArguments,
    NotWritable,
    BadParent,
    MissingMethod,
    NoReturn,
    MisplacedJump,
    BadQuery,
    BadTrigger,
    BadName,
    BadPrefix,
    UnknownRole,
    RoleLoop,
    UnknownObject,
    TooManyMasters,
    MasterLoop,
    BadLength,
    BadRollup,
    BadRule,
    UnknownField,
    BadCell,
    BadId,
    Missing,
    UnknownRow,
    NotJson,
    UnknownKey,
    WrongKind,
    BadValue,
    TooMany,
    NotYet,
}

/// A fault, and the place where it stands, as it is printed.
#[derive(Debug, Drop)]
pub struct Fault {
    pub place: Text,
    pub word: FaultWord,
}

impl Fault {
    /// An equal fault.
    pub fn copy(&self) -> Result<Fault, NoMemory>
        ensures { IfOk result (λ c. c ≡ self.now) }
    {
        Ok(Fault {
            place: self.place.copy()?,
            word: self.word,
        })
    }
}
