// Words that are printed.

ghost use Rattle.std.specs.Prelude.{◌≡◌};
ghost use Rattle.reply_text.specs.Lines.{kind_word, word_text};

use apex_num::LimitKind;
use fault_words::FaultWord;

/// The word of a limit.
pub fn limit_word(kind: LimitKind) -> &'static [u8]
    ensures { result.now ≡ kind_word kind }
{
    match kind {
        LimitKind::Queries => b"queries",
        LimitKind::Rows => b"rows",
        LimitKind::Dml => b"dml",
        LimitKind::Saved => b"saved",
        LimitKind::Depth => b"depth",
        LimitKind::Steps => b"steps",
        LimitKind::Alloc => b"alloc",
        LimitKind::Calls => b"calls",
    }
}

/// The word of a fault, as it is printed.
pub fn word(word: FaultWord) -> &'static [u8]
    ensures { result.now ≡ word_text word }
{
    match word {
        FaultWord::NotUtf8 => b"NotUtf8",
        FaultWord::BadChar => b"BadChar",
        FaultWord::OpenText => b"OpenText",
        FaultWord::OpenComment => b"OpenComment",
        FaultWord::WideLiteral => b"WideLiteral",
        FaultWord::Expected => b"Expected",
        FaultWord::TooDeep => b"TooDeep",
        FaultWord::MixedAndOr => b"MixedAndOr",
        FaultWord::LockedOrder => b"LockedOrder",
        FaultWord::TooManyLevels => b"TooManyLevels",
        FaultWord::UnknownType => b"UnknownType",
        FaultWord::DoubleRefused => b"DoubleRefused",
        FaultWord::UnknownName => b"UnknownName",
        FaultWord::NotVisible => b"NotVisible",
        FaultWord::Duplicate => b"Duplicate",
        FaultWord::WrongType => b"WrongType",
        FaultWord::WrongArguments => b"WrongArguments",
        FaultWord::NotWritable => b"NotWritable",
        FaultWord::BadParent => b"BadParent",
        FaultWord::MissingMethod => b"MissingMethod",
        FaultWord::NoReturn => b"NoReturn",
        FaultWord::MisplacedJump => b"MisplacedJump",
        FaultWord::BadQuery => b"BadQuery",
        FaultWord::BadTrigger => b"BadTrigger",
        FaultWord::BadName => b"BadName",
        FaultWord::BadPrefix => b"BadPrefix",
        FaultWord::UnknownRole => b"UnknownRole",
        FaultWord::RoleLoop => b"RoleLoop",
        FaultWord::UnknownObject => b"UnknownObject",
        FaultWord::TooManyMasters => b"TooManyMasters",
        FaultWord::MasterLoop => b"MasterLoop",
        FaultWord::BadLength => b"BadLength",
        FaultWord::BadRollup => b"BadRollup",
        FaultWord::BadRule => b"BadRule",
        FaultWord::UnknownField => b"UnknownField",
        FaultWord::BadCell => b"BadCell",
        FaultWord::BadId => b"BadId",
        FaultWord::Missing => b"Missing",
        FaultWord::UnknownRow => b"UnknownRow",
        FaultWord::NotJson => b"NotJson",
        FaultWord::UnknownKey => b"UnknownKey",
        FaultWord::WrongKind => b"WrongKind",
        FaultWord::BadValue => b"BadValue",
        FaultWord::TooMany => b"TooMany",
        FaultWord::NotYet => b"NotYet",
    }
}
