// The methods on primitives, by what they take.

/// A method of a String that takes nothing else.
#[derive(Clone, Copy, PartialEq, Eq, Drop)]
pub enum TextMethod {
    Length,
    ToLowerCase,
    ToUpperCase,
    Capitalize,
    Uncapitalize,
    Trim,
    Reverse,
    IsNumeric,
}

/// A method of a String that takes a String.
#[derive(Clone, Copy, PartialEq, Eq, Drop)]
pub enum TextsMethod {
    Contains,
    StartsWith,
    EndsWith,
    IndexOf,
    LastIndexOf,
    Equals,
    EqualsIgnoreCase,
    CompareTo,
    Remove,
    RemoveStart,
    RemoveEnd,
    CountMatches,
    SubstringBefore,
    SubstringAfter,
}

/// A method of a String that takes an Integer.
#[derive(Clone, Copy, PartialEq, Eq, Drop)]
pub enum TextAtMethod {
    Substring,
    Left,
    Right,
    Repeat,
    LeftPad,
    RightPad,
}

/// A static method of String that takes a String or null.
#[derive(Clone, Copy, PartialEq, Eq, Drop)]
pub enum NullableMethod {
    IsBlank,
    IsNotBlank,
    IsEmpty,
    IsNotEmpty,
}

/// A static `valueOf` that reads a String.
#[derive(Clone, Copy, PartialEq, Eq, Drop)]
pub enum ReadMethod {
    /// `Integer.valueOf`.
    Integer,
    /// `Long.valueOf`.
    Long,
    /// `Decimal.valueOf`.
    Decimal,
    /// `Date.valueOf`.
    Date,
    /// `Datetime.valueOfGmt`.
    Moment,
    /// `Id.valueOf`.
    Id,
}

/// A method of Math.
#[derive(Clone, Copy, PartialEq, Eq, Drop)]
pub enum MathMethod {
    /// `abs` of Longs and Decimals.
    Abs,
    /// `abs` of Integers, whose smallest is its own.
    AbsInteger,
    Signum,
    Max,
    Min,
    Mod,
}

/// A method of a Decimal, or `intValue` of a Long.
#[derive(Clone, Copy, PartialEq, Eq, Drop)]
pub enum DecimalMethod {
    /// Of a Long it is what 32 bits hold.
    IntValue,
    LongValue,
    Round,
    Abs,
    ToPlainString,
}

/// A method of a Date.
#[derive(Clone, Copy, PartialEq, Eq, Drop)]
pub enum DateMethod {
    Year,
    Month,
    Day,
    ToStartOfMonth,
    AddDays,
    AddMonths,
    AddYears,
    DaysBetween,
}

/// A method of a Datetime.
#[derive(Clone, Copy, PartialEq, Eq, Drop)]
pub enum MomentMethod {
    GetTime,
    Date,
    Year,
    Month,
    Day,
    Hour,
    Minute,
    Second,
    AddDays,
    AddHours,
    AddMinutes,
    AddSeconds,
}

/// A method of a List. A position counts from 0.
#[derive(Clone, Copy, PartialEq, Eq, Drop)]
pub enum ListMethod {
    Add,
    /// `add(n, x)`.
    Insert,
    AddAll,
    Get,
    Set,
    Remove,
    Size,
    IsEmpty,
    Clear,
    Clone,
    Contains,
    IndexOf,
    Sort,
}

/// A method of a Set.
#[derive(Clone, Copy, PartialEq, Eq, Drop)]
pub enum SetMethod {
    Add,
    AddAll,
    Remove,
    RemoveAll,
    RetainAll,
    Contains,
    ContainsAll,
    Size,
    IsEmpty,
    Clear,
    Clone,
}

/// A method of a Map.
#[derive(Clone, Copy, PartialEq, Eq, Drop)]
pub enum MapMethod {
    Put,
    Remove,
    PutAll,
    Get,
    ContainsKey,
    KeySet,
    Values,
    Size,
    IsEmpty,
    Clear,
    Clone,
}

/// A method that asks the transaction, or one of an exception, a result, an error or a record.
#[derive(Clone, Copy, PartialEq, Eq, Drop)]
pub enum PlatformMethod {
    /// `Date.today()`.
    Today,
    /// `Datetime.now()`.
    Now,
    /// `getMessage()` of an exception.
    Message,
    /// `getTypeName()`.
    TypeName,
    /// `isSuccess()` of a result.
    IsSuccess,
    /// `getId()` of a result.
    ResultId,
    /// `getErrors()` of a result.
    Errors,
    /// `getMessage()` of an error.
    ErrorMessage,
    /// `getStatusCode()` of an error.
    StatusCode,
    /// `addError(String)` of a record.
    AddError,
    Queries,
    QueryRows,
    DmlStatements,
    DmlRows,
    LimitQueries,
    LimitQueryRows,
    LimitDmlStatements,
    LimitDmlRows,
    UserId,
    /// `Database.insert(x)`.
    Insert,
    /// `Database.insert(x, allOrNone)`.
    InsertWith,
    Update,
    UpdateWith,
    Delete,
    DeleteWith,
    Upsert,
    UpsertWith,
    SetSavepoint,
    Rollback,
}

/// A method of the platform, found once by its type, its name and the number of its arguments.
#[derive(Clone, Copy, PartialEq, Eq, Drop)]
pub enum Builtin {
    Text(TextMethod),
    Texts(TextsMethod),
    TextAt(TextAtMethod),
    /// `indexOf(t, n)`.
    IndexOfFrom,
    /// `substring(n, m)`.
    SubstringTo,
    /// `mid(n, m)`.
    Mid,
    /// `replace(t, u)`.
    Replace,
    Nullable(NullableMethod),
    /// `String.valueOf(x)`.
    TextOf,
    Read(ReadMethod),
    Math(MathMethod),
    Decimal(DecimalMethod),
    /// `setScale(n)`.
    SetScale,
    Date(DateMethod),
    /// `Date.newInstance(y, m, d)`.
    NewDate,
    /// `Date.daysInMonth(y, m)`.
    DaysInMonth,
    /// `Date.isLeapYear(y)`.
    IsLeapYear,
    Moment(MomentMethod),
    /// `Datetime.newInstanceGmt(y, m, d, h, mi, s)`.
    NewMoment,
    /// `String.join(list, t)`.
    Join,
    List(ListMethod),
    Set(SetMethod),
    Map(MapMethod),
    Platform(PlatformMethod),
}
