// The methods, a row each.

ghost use Rattle.std.specs.Prelude.{◌≡◌, map};
ghost use Rattle.builtin_names.specs.Names as spec;

use crate::table::MethodRow;
use builtin_table::{
    Builtin, DateMethod, DecimalMethod, ListMethod, MapMethod, MathMethod, MomentMethod,
    NullableMethod, PlatformMethod, ReadMethod, SetMethod, TextAtMethod, TextMethod, TextsMethod,
};

macro_rules! rows {
    ($($kind:literal $name:literal $count:literal $builtin:expr;)*) => {
        [$(MethodRow { kind: $kind, name: $name, count: $count, builtin: $builtin }),*]
    };
}

// The methods of texts.
pub(crate) fn text_rows() -> [MethodRow; 38]
    ensures { map spec.form result ≡ spec.text_methods }
{
    rows![
        "string" "capitalize" 0 Builtin::Text(TextMethod::Capitalize);
        "string" "compareto" 1 Builtin::Texts(TextsMethod::CompareTo);
        "string" "contains" 1 Builtin::Texts(TextsMethod::Contains);
        "string" "countmatches" 1 Builtin::Texts(TextsMethod::CountMatches);
        "string" "endswith" 1 Builtin::Texts(TextsMethod::EndsWith);
        "string" "equals" 1 Builtin::Texts(TextsMethod::Equals);
        "string" "equalsignorecase" 1 Builtin::Texts(TextsMethod::EqualsIgnoreCase);
        "string" "indexof" 1 Builtin::Texts(TextsMethod::IndexOf);
        "string" "indexof" 2 Builtin::IndexOfFrom;
        "string" "isblank" 1 Builtin::Nullable(NullableMethod::IsBlank);
        "string" "isempty" 1 Builtin::Nullable(NullableMethod::IsEmpty);
        "string" "isnotblank" 1 Builtin::Nullable(NullableMethod::IsNotBlank);
        "string" "isnotempty" 1 Builtin::Nullable(NullableMethod::IsNotEmpty);
        "string" "isnumeric" 0 Builtin::Text(TextMethod::IsNumeric);
        "string" "join" 2 Builtin::Join;
        "string" "lastindexof" 1 Builtin::Texts(TextsMethod::LastIndexOf);
        "string" "left" 1 Builtin::TextAt(TextAtMethod::Left);
        "string" "leftpad" 1 Builtin::TextAt(TextAtMethod::LeftPad);
        "string" "length" 0 Builtin::Text(TextMethod::Length);
        "string" "mid" 2 Builtin::Mid;
        "string" "remove" 1 Builtin::Texts(TextsMethod::Remove);
        "string" "removeend" 1 Builtin::Texts(TextsMethod::RemoveEnd);
        "string" "removestart" 1 Builtin::Texts(TextsMethod::RemoveStart);
        "string" "repeat" 1 Builtin::TextAt(TextAtMethod::Repeat);
        "string" "replace" 2 Builtin::Replace;
        "string" "reverse" 0 Builtin::Text(TextMethod::Reverse);
        "string" "right" 1 Builtin::TextAt(TextAtMethod::Right);
        "string" "rightpad" 1 Builtin::TextAt(TextAtMethod::RightPad);
        "string" "startswith" 1 Builtin::Texts(TextsMethod::StartsWith);
        "string" "substring" 1 Builtin::TextAt(TextAtMethod::Substring);
        "string" "substring" 2 Builtin::SubstringTo;
        "string" "substringafter" 1 Builtin::Texts(TextsMethod::SubstringAfter);
        "string" "substringbefore" 1 Builtin::Texts(TextsMethod::SubstringBefore);
        "string" "tolowercase" 0 Builtin::Text(TextMethod::ToLowerCase);
        "string" "touppercase" 0 Builtin::Text(TextMethod::ToUpperCase);
        "string" "trim" 0 Builtin::Text(TextMethod::Trim);
        "string" "uncapitalize" 0 Builtin::Text(TextMethod::Uncapitalize);
        "string" "valueof" 1 Builtin::TextOf;
    ]
}

// The methods of numbers.
pub(crate) fn number_rows() -> [MethodRow; 16]
    ensures { map spec.form result ≡ spec.number_methods }
{
    rows![
        "decimal" "abs" 0 Builtin::Decimal(DecimalMethod::Abs);
        "decimal" "intvalue" 0 Builtin::Decimal(DecimalMethod::IntValue);
        "decimal" "longvalue" 0 Builtin::Decimal(DecimalMethod::LongValue);
        "decimal" "round" 0 Builtin::Decimal(DecimalMethod::Round);
        "decimal" "setscale" 1 Builtin::SetScale;
        "decimal" "toplainstring" 0 Builtin::Decimal(DecimalMethod::ToPlainString);
        "decimal" "valueof" 1 Builtin::Read(ReadMethod::Decimal);
        "id" "valueof" 1 Builtin::Read(ReadMethod::Id);
        "integer" "valueof" 1 Builtin::Read(ReadMethod::Integer);
        "long" "intvalue" 0 Builtin::Decimal(DecimalMethod::IntValue);
        "long" "valueof" 1 Builtin::Read(ReadMethod::Long);
        "math" "abs" 1 Builtin::Math(MathMethod::Abs);
        "math" "max" 2 Builtin::Math(MathMethod::Max);
        "math" "min" 2 Builtin::Math(MathMethod::Min);
        "math" "mod" 2 Builtin::Math(MathMethod::Mod);
        "math" "signum" 1 Builtin::Math(MathMethod::Signum);
    ]
}

// The methods of dates and moments.
pub(crate) fn date_rows() -> [MethodRow; 28]
    ensures { map spec.form result ≡ spec.date_methods }
{
    rows![
        "date" "adddays" 1 Builtin::Date(DateMethod::AddDays);
        "date" "addmonths" 1 Builtin::Date(DateMethod::AddMonths);
        "date" "addyears" 1 Builtin::Date(DateMethod::AddYears);
        "date" "day" 0 Builtin::Date(DateMethod::Day);
        "date" "daysbetween" 1 Builtin::Date(DateMethod::DaysBetween);
        "date" "daysinmonth" 2 Builtin::DaysInMonth;
        "date" "isleapyear" 1 Builtin::IsLeapYear;
        "date" "month" 0 Builtin::Date(DateMethod::Month);
        "date" "newinstance" 3 Builtin::NewDate;
        "date" "today" 0 Builtin::Platform(PlatformMethod::Today);
        "date" "tostartofmonth" 0 Builtin::Date(DateMethod::ToStartOfMonth);
        "date" "valueof" 1 Builtin::Read(ReadMethod::Date);
        "date" "year" 0 Builtin::Date(DateMethod::Year);
        "datetime" "adddays" 1 Builtin::Moment(MomentMethod::AddDays);
        "datetime" "addhours" 1 Builtin::Moment(MomentMethod::AddHours);
        "datetime" "addminutes" 1 Builtin::Moment(MomentMethod::AddMinutes);
        "datetime" "addseconds" 1 Builtin::Moment(MomentMethod::AddSeconds);
        "datetime" "dategmt" 0 Builtin::Moment(MomentMethod::Date);
        "datetime" "daygmt" 0 Builtin::Moment(MomentMethod::Day);
        "datetime" "gettime" 0 Builtin::Moment(MomentMethod::GetTime);
        "datetime" "hourgmt" 0 Builtin::Moment(MomentMethod::Hour);
        "datetime" "minutegmt" 0 Builtin::Moment(MomentMethod::Minute);
        "datetime" "monthgmt" 0 Builtin::Moment(MomentMethod::Month);
        "datetime" "newinstancegmt" 6 Builtin::NewMoment;
        "datetime" "now" 0 Builtin::Platform(PlatformMethod::Now);
        "datetime" "secondgmt" 0 Builtin::Moment(MomentMethod::Second);
        "datetime" "valueofgmt" 1 Builtin::Read(ReadMethod::Moment);
        "datetime" "yeargmt" 0 Builtin::Moment(MomentMethod::Year);
    ]
}

// The methods of collections.
pub(crate) fn collection_rows() -> [MethodRow; 35]
    ensures { map spec.form result ≡ spec.collection_methods }
{
    rows![
        "list" "add" 1 Builtin::List(ListMethod::Add);
        "list" "add" 2 Builtin::List(ListMethod::Insert);
        "list" "addall" 1 Builtin::List(ListMethod::AddAll);
        "list" "clear" 0 Builtin::List(ListMethod::Clear);
        "list" "clone" 0 Builtin::List(ListMethod::Clone);
        "list" "contains" 1 Builtin::List(ListMethod::Contains);
        "list" "get" 1 Builtin::List(ListMethod::Get);
        "list" "indexof" 1 Builtin::List(ListMethod::IndexOf);
        "list" "isempty" 0 Builtin::List(ListMethod::IsEmpty);
        "list" "remove" 1 Builtin::List(ListMethod::Remove);
        "list" "set" 2 Builtin::List(ListMethod::Set);
        "list" "size" 0 Builtin::List(ListMethod::Size);
        "list" "sort" 0 Builtin::List(ListMethod::Sort);
        "map" "clear" 0 Builtin::Map(MapMethod::Clear);
        "map" "clone" 0 Builtin::Map(MapMethod::Clone);
        "map" "containskey" 1 Builtin::Map(MapMethod::ContainsKey);
        "map" "get" 1 Builtin::Map(MapMethod::Get);
        "map" "isempty" 0 Builtin::Map(MapMethod::IsEmpty);
        "map" "keyset" 0 Builtin::Map(MapMethod::KeySet);
        "map" "put" 2 Builtin::Map(MapMethod::Put);
        "map" "putall" 1 Builtin::Map(MapMethod::PutAll);
        "map" "remove" 1 Builtin::Map(MapMethod::Remove);
        "map" "size" 0 Builtin::Map(MapMethod::Size);
        "map" "values" 0 Builtin::Map(MapMethod::Values);
        "set" "add" 1 Builtin::Set(SetMethod::Add);
        "set" "addall" 1 Builtin::Set(SetMethod::AddAll);
        "set" "clear" 0 Builtin::Set(SetMethod::Clear);
        "set" "clone" 0 Builtin::Set(SetMethod::Clone);
        "set" "contains" 1 Builtin::Set(SetMethod::Contains);
        "set" "containsall" 1 Builtin::Set(SetMethod::ContainsAll);
        "set" "isempty" 0 Builtin::Set(SetMethod::IsEmpty);
        "set" "remove" 1 Builtin::Set(SetMethod::Remove);
        "set" "removeall" 1 Builtin::Set(SetMethod::RemoveAll);
        "set" "retainall" 1 Builtin::Set(SetMethod::RetainAll);
        "set" "size" 0 Builtin::Set(SetMethod::Size);
    ]
}

// The methods of the platform.
pub(crate) fn platform_rows() -> [MethodRow; 33]
    ensures { map spec.form result ≡ spec.platform_methods }
{
    rows![
        "database" "delete" 1 Builtin::Platform(PlatformMethod::Delete);
        "database" "delete" 2 Builtin::Platform(PlatformMethod::DeleteWith);
        "database.deleteresult" "geterrors" 0 Builtin::Platform(PlatformMethod::Errors);
        "database.deleteresult" "getid" 0 Builtin::Platform(PlatformMethod::ResultId);
        "database.deleteresult" "issuccess" 0 Builtin::Platform(PlatformMethod::IsSuccess);
        "database.error" "getmessage" 0 Builtin::Platform(PlatformMethod::ErrorMessage);
        "database.error" "getstatuscode" 0 Builtin::Platform(PlatformMethod::StatusCode);
        "database" "insert" 1 Builtin::Platform(PlatformMethod::Insert);
        "database" "insert" 2 Builtin::Platform(PlatformMethod::InsertWith);
        "database" "rollback" 1 Builtin::Platform(PlatformMethod::Rollback);
        "database.saveresult" "geterrors" 0 Builtin::Platform(PlatformMethod::Errors);
        "database.saveresult" "getid" 0 Builtin::Platform(PlatformMethod::ResultId);
        "database.saveresult" "issuccess" 0 Builtin::Platform(PlatformMethod::IsSuccess);
        "database" "setsavepoint" 0 Builtin::Platform(PlatformMethod::SetSavepoint);
        "database" "update" 1 Builtin::Platform(PlatformMethod::Update);
        "database" "update" 2 Builtin::Platform(PlatformMethod::UpdateWith);
        "database" "upsert" 1 Builtin::Platform(PlatformMethod::Upsert);
        "database" "upsert" 2 Builtin::Platform(PlatformMethod::UpsertWith);
        "database.upsertresult" "geterrors" 0 Builtin::Platform(PlatformMethod::Errors);
        "database.upsertresult" "getid" 0 Builtin::Platform(PlatformMethod::ResultId);
        "database.upsertresult" "issuccess" 0 Builtin::Platform(PlatformMethod::IsSuccess);
        "exception" "getmessage" 0 Builtin::Platform(PlatformMethod::Message);
        "exception" "gettypename" 0 Builtin::Platform(PlatformMethod::TypeName);
        "limits" "getdmlrows" 0 Builtin::Platform(PlatformMethod::DmlRows);
        "limits" "getdmlstatements" 0 Builtin::Platform(PlatformMethod::DmlStatements);
        "limits" "getlimitdmlrows" 0 Builtin::Platform(PlatformMethod::LimitDmlRows);
        "limits" "getlimitdmlstatements" 0 Builtin::Platform(PlatformMethod::LimitDmlStatements);
        "limits" "getlimitqueries" 0 Builtin::Platform(PlatformMethod::LimitQueries);
        "limits" "getlimitqueryrows" 0 Builtin::Platform(PlatformMethod::LimitQueryRows);
        "limits" "getqueries" 0 Builtin::Platform(PlatformMethod::Queries);
        "limits" "getqueryrows" 0 Builtin::Platform(PlatformMethod::QueryRows);
        "sobject" "adderror" 1 Builtin::Platform(PlatformMethod::AddError);
        "userinfo" "getuserid" 0 Builtin::Platform(PlatformMethod::UserId);
    ]
}
