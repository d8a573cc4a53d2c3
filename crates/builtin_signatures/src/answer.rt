// What built-in methods answer.

ghost use Rattle.std.specs.Prelude.{◌≡◌};
ghost use Rattle.builtin_signatures.specs.Answers as spec;

use builtin_table::{
    Builtin, DateMethod, DecimalMethod, ListMethod, MapMethod, MomentMethod, PlatformMethod,
    ReadMethod, SetMethod, TextMethod, TextsMethod,
};
use static_types::{PlatformType, Primitive};

/// What a built-in method answers.
#[derive(Clone, Copy, Debug, PartialEq, Eq, Hash, Drop)]
pub enum Answer {
    Nothing,
    Is(Primitive),
    /// The widest type of its arguments.
    Widest,
    /// An item of the List.
    Item,
    /// A value of the Map.
    Value,
    /// A collection of the receiver's type.
    Same,
    /// A Set of the Map's keys.
    Keys,
    /// A List of the Map's values.
    Values,
    /// A `List<Database.Error>`.
    Errors,
    /// One result for a record, and a List of them for a List.
    Results(PlatformType),
    Savepoint,
}

const TEXT: Answer = Answer::Is(Primitive::String);

const INTEGER: Answer = Answer::Is(Primitive::Integer);

const TRUTH: Answer = Answer::Is(Primitive::Boolean);

fn text_answer(which: TextMethod) -> Answer
    ensures { result ≡ spec.text_answer which }
{
    match which {
        TextMethod::Length => INTEGER,
        TextMethod::IsNumeric => TRUTH,
        TextMethod::ToLowerCase
        | TextMethod::ToUpperCase
        | TextMethod::Capitalize
        | TextMethod::Uncapitalize
        | TextMethod::Trim
        | TextMethod::Reverse => TEXT,
    }
}

fn texts_answer(which: TextsMethod) -> Answer
    ensures { result ≡ spec.texts_answer which }
{
    match which {
        TextsMethod::Contains
        | TextsMethod::StartsWith
        | TextsMethod::EndsWith
        | TextsMethod::Equals
        | TextsMethod::EqualsIgnoreCase => TRUTH,
        TextsMethod::IndexOf
        | TextsMethod::LastIndexOf
        | TextsMethod::CompareTo
        | TextsMethod::CountMatches => INTEGER,
        TextsMethod::Remove
        | TextsMethod::RemoveStart
        | TextsMethod::RemoveEnd
        | TextsMethod::SubstringBefore
        | TextsMethod::SubstringAfter => TEXT,
    }
}

fn read_answer(which: ReadMethod) -> Primitive
    ensures { result ≡ spec.read_answer which }
{
    match which {
        ReadMethod::Integer => Primitive::Integer,
        ReadMethod::Long => Primitive::Long,
        ReadMethod::Decimal => Primitive::Decimal,
        ReadMethod::Date => Primitive::Date,
        ReadMethod::Moment => Primitive::Datetime,
        ReadMethod::Id => Primitive::Id,
    }
}

fn decimal_answer(which: DecimalMethod) -> Primitive
    ensures { result ≡ spec.decimal_answer which }
{
    match which {
        DecimalMethod::IntValue => Primitive::Integer,
        DecimalMethod::LongValue | DecimalMethod::Round => Primitive::Long,
        DecimalMethod::Abs => Primitive::Decimal,
        DecimalMethod::ToPlainString => Primitive::String,
    }
}

fn date_answer(which: DateMethod) -> Primitive
    ensures { result ≡ spec.date_answer which }
{
    match which {
        DateMethod::Year | DateMethod::Month | DateMethod::Day | DateMethod::DaysBetween => {
            Primitive::Integer
        }
        DateMethod::ToStartOfMonth
        | DateMethod::AddDays
        | DateMethod::AddMonths
        | DateMethod::AddYears => Primitive::Date,
    }
}

fn moment_answer(which: MomentMethod) -> Primitive
    ensures { result ≡ spec.moment_answer which }
{
    match which {
        MomentMethod::GetTime => Primitive::Long,
        MomentMethod::Date => Primitive::Date,
        MomentMethod::Year
        | MomentMethod::Month
        | MomentMethod::Day
        | MomentMethod::Hour
        | MomentMethod::Minute
        | MomentMethod::Second => Primitive::Integer,
        MomentMethod::AddDays
        | MomentMethod::AddHours
        | MomentMethod::AddMinutes
        | MomentMethod::AddSeconds => Primitive::Datetime,
    }
}

fn list_answer(which: ListMethod) -> Answer
    ensures { result ≡ spec.list_answer which }
{
    match which {
        ListMethod::Add
        | ListMethod::Insert
        | ListMethod::AddAll
        | ListMethod::Set
        | ListMethod::Clear
        | ListMethod::Sort => Answer::Nothing,
        ListMethod::Get | ListMethod::Remove => Answer::Item,
        ListMethod::Size | ListMethod::IndexOf => INTEGER,
        ListMethod::IsEmpty | ListMethod::Contains => TRUTH,
        ListMethod::Clone => Answer::Same,
    }
}

fn set_answer(which: SetMethod) -> Answer
    ensures { result ≡ spec.set_answer which }
{
    match which {
        SetMethod::Clear => Answer::Nothing,
        SetMethod::Size => INTEGER,
        SetMethod::Clone => Answer::Same,
        SetMethod::Add
        | SetMethod::AddAll
        | SetMethod::Remove
        | SetMethod::RemoveAll
        | SetMethod::RetainAll
        | SetMethod::Contains
        | SetMethod::ContainsAll
        | SetMethod::IsEmpty => TRUTH,
    }
}

fn map_answer(which: MapMethod) -> Answer
    ensures { result ≡ spec.map_answer which }
{
    match which {
        MapMethod::Put | MapMethod::Remove | MapMethod::Get => Answer::Value,
        MapMethod::PutAll | MapMethod::Clear => Answer::Nothing,
        MapMethod::ContainsKey | MapMethod::IsEmpty => TRUTH,
        MapMethod::KeySet => Answer::Keys,
        MapMethod::Values => Answer::Values,
        MapMethod::Size => INTEGER,
        MapMethod::Clone => Answer::Same,
    }
}

fn platform_answer(which: PlatformMethod) -> Answer
    ensures { result ≡ spec.platform_answer which }
{
    match which {
        PlatformMethod::Today => Answer::Is(Primitive::Date),
        PlatformMethod::Now => Answer::Is(Primitive::Datetime),
        PlatformMethod::Message
        | PlatformMethod::TypeName
        | PlatformMethod::ErrorMessage
        | PlatformMethod::StatusCode => TEXT,
        PlatformMethod::IsSuccess => TRUTH,
        PlatformMethod::ResultId | PlatformMethod::UserId => Answer::Is(Primitive::Id),
        PlatformMethod::Errors => Answer::Errors,
        PlatformMethod::AddError | PlatformMethod::Rollback => Answer::Nothing,
        PlatformMethod::Insert
        | PlatformMethod::InsertWith
        | PlatformMethod::Update
        | PlatformMethod::UpdateWith => Answer::Results(PlatformType::SaveResult),
        PlatformMethod::Delete | PlatformMethod::DeleteWith => {
            Answer::Results(PlatformType::DeleteResult)
        }
        PlatformMethod::Upsert | PlatformMethod::UpsertWith => {
            Answer::Results(PlatformType::UpsertResult)
        }
        PlatformMethod::SetSavepoint => Answer::Savepoint,
        PlatformMethod::Queries
        | PlatformMethod::QueryRows
        | PlatformMethod::DmlStatements
        | PlatformMethod::DmlRows
        | PlatformMethod::LimitQueries
        | PlatformMethod::LimitQueryRows
        | PlatformMethod::LimitDmlStatements
        | PlatformMethod::LimitDmlRows => INTEGER,
    }
}

/// What a built-in method answers.
pub fn answer_of(which: Builtin) -> Answer
    ensures { result ≡ spec.answer_of which }
{
    match which {
        Builtin::Text(which) => text_answer(which),
        Builtin::Texts(which) => texts_answer(which),
        Builtin::IndexOfFrom | Builtin::DaysInMonth => INTEGER,
        Builtin::TextAt(_)
        | Builtin::SubstringTo
        | Builtin::Mid
        | Builtin::Replace
        | Builtin::TextOf
        | Builtin::Join => TEXT,
        Builtin::Nullable(_) | Builtin::IsLeapYear => TRUTH,
        Builtin::Read(which) => Answer::Is(read_answer(which)),
        Builtin::Math(_) => Answer::Widest,
        Builtin::Decimal(which) => Answer::Is(decimal_answer(which)),
        Builtin::SetScale => Answer::Is(Primitive::Decimal),
        Builtin::Date(which) => Answer::Is(date_answer(which)),
        Builtin::NewDate => Answer::Is(Primitive::Date),
        Builtin::Moment(which) => Answer::Is(moment_answer(which)),
        Builtin::NewMoment => Answer::Is(Primitive::Datetime),
        Builtin::List(which) => list_answer(which),
        Builtin::Set(which) => set_answer(which),
        Builtin::Map(which) => map_answer(which),
        Builtin::Platform(which) => platform_answer(which),
    }
}
