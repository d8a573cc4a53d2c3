// What built-in methods take.

ghost use Rattle.std.specs.Prelude.{◌≡◌, length, slice_get};
ghost use Rattle.builtin_signatures.specs.Dues as spec;

use builtin_table::{
    Builtin, DateMethod, ListMethod, MapMethod, MathMethod, MomentMethod, PlatformMethod, SetMethod,
};
use static_types::Primitive;

/// What an argument has to fit.
#[derive(Clone, Copy, Debug, PartialEq, Eq, Hash, Drop)]
pub enum Due {
    Is(Primitive),
    /// A value of any primitive type.
    Plain,
    /// An Integer, a Long or a Decimal.
    Number,
    /// An Integer or a Long.
    Whole,
    /// An item of the List or Set.
    Item,
    /// A key of the Map.
    Key,
    /// A value of the Map.
    Value,
    /// A collection of the receiver's type.
    Same,
    /// A List or a Set of the receiver's items.
    Items,
    /// A `List<String>`.
    Texts,
    /// A record, or a List of records.
    Records,
    Savepoint,
}

/// What all arguments have to fit, in their order.
#[derive(Clone, Copy, Debug, PartialEq, Eq, Hash, Drop)]
pub enum Dues {
    None,
    One(Due),
    Two(Due, Due),
    /// So many Integers.
    Integers(usize),
}

const TEXT: Due = Due::Is(Primitive::String);

const INTEGER: Due = Due::Is(Primitive::Integer);

fn math_dues(which: MathMethod) -> Dues
    ensures { result ≡ spec.math_dues which }
{
    match which {
        MathMethod::Abs | MathMethod::AbsInteger | MathMethod::Signum => Dues::One(Due::Number),
        MathMethod::Max | MathMethod::Min => Dues::Two(Due::Number, Due::Number),
        MathMethod::Mod => Dues::Two(Due::Whole, Due::Whole),
    }
}

fn date_dues(which: DateMethod) -> Dues
    ensures { result ≡ spec.date_dues which }
{
    match which {
        DateMethod::Year | DateMethod::Month | DateMethod::Day | DateMethod::ToStartOfMonth => {
            Dues::None
        }
        DateMethod::AddDays | DateMethod::AddMonths | DateMethod::AddYears => Dues::One(INTEGER),
        DateMethod::DaysBetween => Dues::One(Due::Is(Primitive::Date)),
    }
}

fn moment_dues(which: MomentMethod) -> Dues
    ensures { result ≡ spec.moment_dues which }
{
    match which {
        MomentMethod::AddDays
        | MomentMethod::AddHours
        | MomentMethod::AddMinutes
        | MomentMethod::AddSeconds => Dues::One(INTEGER),
        MomentMethod::GetTime
        | MomentMethod::Date
        | MomentMethod::Year
        | MomentMethod::Month
        | MomentMethod::Day
        | MomentMethod::Hour
        | MomentMethod::Minute
        | MomentMethod::Second => Dues::None,
    }
}

fn list_dues(which: ListMethod) -> Dues
    ensures { result ≡ spec.list_dues which }
{
    match which {
        ListMethod::Add | ListMethod::Contains | ListMethod::IndexOf => Dues::One(Due::Item),
        ListMethod::Insert | ListMethod::Set => Dues::Two(INTEGER, Due::Item),
        ListMethod::AddAll => Dues::One(Due::Same),
        ListMethod::Get | ListMethod::Remove => Dues::One(INTEGER),
        ListMethod::Size
        | ListMethod::IsEmpty
        | ListMethod::Clear
        | ListMethod::Clone
        | ListMethod::Sort => Dues::None,
    }
}

fn set_dues(which: SetMethod) -> Dues
    ensures { result ≡ spec.set_dues which }
{
    match which {
        SetMethod::Add | SetMethod::Remove | SetMethod::Contains => Dues::One(Due::Item),
        SetMethod::AddAll => Dues::One(Due::Items),
        SetMethod::RemoveAll | SetMethod::RetainAll | SetMethod::ContainsAll => {
            Dues::One(Due::Same)
        }
        SetMethod::Size | SetMethod::IsEmpty | SetMethod::Clear | SetMethod::Clone => Dues::None,
    }
}

fn map_dues(which: MapMethod) -> Dues
    ensures { result ≡ spec.map_dues which }
{
    match which {
        MapMethod::Put => Dues::Two(Due::Key, Due::Value),
        MapMethod::Remove | MapMethod::Get | MapMethod::ContainsKey => Dues::One(Due::Key),
        MapMethod::PutAll => Dues::One(Due::Same),
        MapMethod::KeySet
        | MapMethod::Values
        | MapMethod::Size
        | MapMethod::IsEmpty
        | MapMethod::Clear
        | MapMethod::Clone => Dues::None,
    }
}

fn platform_dues(which: PlatformMethod) -> Dues
    ensures { result ≡ spec.platform_dues which }
{
    match which {
        PlatformMethod::AddError => Dues::One(TEXT),
        PlatformMethod::Insert
        | PlatformMethod::Update
        | PlatformMethod::Delete
        | PlatformMethod::Upsert => Dues::One(Due::Records),
        PlatformMethod::InsertWith
        | PlatformMethod::UpdateWith
        | PlatformMethod::DeleteWith
        | PlatformMethod::UpsertWith => Dues::Two(Due::Records, Due::Is(Primitive::Boolean)),
        PlatformMethod::Rollback => Dues::One(Due::Savepoint),
        _ => Dues::None,
    }
}

/// What the arguments of a built-in method have to fit, its receiver apart.
pub fn dues_of(which: Builtin) -> Dues
    ensures { result ≡ spec.dues_of which }
{
    match which {
        Builtin::Text(_) => Dues::None,
        Builtin::Texts(_) | Builtin::Nullable(_) | Builtin::Read(_) => Dues::One(TEXT),
        Builtin::TextAt(_) | Builtin::SetScale | Builtin::IsLeapYear => Dues::One(INTEGER),
        Builtin::IndexOfFrom => Dues::Two(TEXT, INTEGER),
        Builtin::SubstringTo | Builtin::Mid | Builtin::DaysInMonth => Dues::Integers(2),
        Builtin::Replace => Dues::Two(TEXT, TEXT),
        Builtin::TextOf => Dues::One(Due::Plain),
        Builtin::Math(which) => math_dues(which),
        Builtin::Decimal(_) => Dues::None,
        Builtin::Date(which) => date_dues(which),
        Builtin::NewDate => Dues::Integers(3),
        Builtin::Moment(which) => moment_dues(which),
        Builtin::NewMoment => Dues::Integers(6),
        Builtin::Join => Dues::Two(Due::Texts, TEXT),
        Builtin::List(which) => list_dues(which),
        Builtin::Set(which) => set_dues(which),
        Builtin::Map(which) => map_dues(which),
        Builtin::Platform(which) => platform_dues(which),
    }
}

impl Dues {
    /// How many arguments there are.
    pub fn count(self) -> usize
        ensures { result ≡ length (spec.each self) }
    {
        match self {
            Dues::None => 0,
            Dues::One(_) => 1,
            Dues::Two(..) => 2,
            Dues::Integers(count) => count,
        }
    }

    /// What the argument at this place has to fit; `None` behind the last one.
    pub fn at(self, i: usize) -> Option<Due>
        ensures { result ≡ slice_get (spec.each self) i }
    {
        match self {
            Dues::None => None,
            Dues::One(due) => { if i == 0 { Some(due) } else { None } }
            Dues::Two(one, other) => {
                if i == 0 {
                    Some(one)
                } else if i == 1 {
                    Some(other)
                } else {
                    None
                }
            }
            Dues::Integers(count) => { if i < count { Some(INTEGER) } else { None } }
        }
    }
}
