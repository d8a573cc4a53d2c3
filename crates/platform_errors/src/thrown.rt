// What the platform throws.

ghost use Rattle.std.specs.Prelude.{◌≡◌, ◌++◌, codes, IfOk};
ghost use Rattle.std.specs.Fmt.{signed_decimal};
ghost use Rattle.builtin_table.specs.Shown.{shown};
ghost use Rattle.platform_errors.specs.Messages as spec;

use crate::record::{RecordError, joined};
use apex_num::{Cell, Id, NoMemory, Text};
use apex_requests::Op;
use builtin_table::{ExceptionClass, text_of};
use std::alloc::{AllocError, Global};

/// An exception that the platform throws. `LimitException` and `AssertException`, which have other messages, aren't among
/// them. Positions count from 0.
#[derive(Drop)]
pub enum Thrown {
    /// A quotient or a rest by 0.
    DivideByZero,
    /// A number out of the range of its type.
    OutOfRange,
    /// A use of null.
    NullObject,
    /// A position outside a list.
    OutOfBounds(i64),
    /// Two records of a list have one Id.
    DuplicateId(Id),
    /// A list has one record twice.
    DuplicateRecord,
    /// A query for one record finds none.
    NoRows,
    /// A query for one record finds more.
    ManyRows,
    /// LIMIT or OFFSET is null or negative.
    InvalidLimit,
    /// A field, of the object, that the query of its record didn't select.
    NotQueried(Text, Text),
    /// A change of a record, or a list of records, that can't be changed.
    ReadOnly,
    /// `addError` where it has no place.
    NoErrors,
    /// A text that is no Id.
    InvalidId(Text),
    /// A part of a text that isn't there.
    Position,
    /// A text that is no number.
    InvalidNumber(Text),
    /// No date or moment of the years 1 to 9999.
    InvalidDate,
    /// A cast to another class.
    InvalidConversion,
    /// A savepoint that isn't there any more.
    InvalidSavepoint,
    /// A statement, with the place of its first record that failed, and why.
    Dml(Op, i64, RecordError),
    /// What a built-in method of a value throws: the class and the message.
    Builtin(ExceptionClass, Text),
}

fn op_name(op: Op) -> &'static str
    ensures { result.now ≡ spec.op_name op }
{
    match op {
        Op::Insert => "Insert",
        Op::Update => "Update",
        Op::Delete => "Delete",
        Op::Upsert => "Upsert",
    }
}

// A text and the text of a value behind it.
fn joined_value(alloc: Global, front: &str, value: &Cell) -> Result<Text, AllocError>
    ensures { IfOk result (λ t. t ≡ front.now ++ shown value.now) }
{
    let text = text_of(alloc, value)?;
    joined(alloc, front, text.as_str())
}

// The object and its field, with a dot between them.
fn not_queried(alloc: Global, object: &Text, field: &Text) -> Result<Text, AllocError>
    ensures { IfOk result (λ t. t ≡ spec.not_queried object.now field.now) }
{
    let name = joined(alloc, ".", field.as_str())?;
    let path = joined(alloc, object.as_str(), name.as_str())?;
    joined(
        alloc,
        "SObject row was retrieved via SOQL without querying the requested field: ",
        path.as_str(),
    )
}

// The code of an error, and its message.
fn told(alloc: Global, error: &RecordError) -> Result<Text, AllocError>
    ensures { IfOk result (λ t. t ≡ spec.code error.now ++ (codes ", " ++ spec.error_message error.now)) }
{
    let message = error.message(alloc)?;
    let behind = joined(alloc, ", ", message.as_str())?;
    joined(alloc, error.code(), behind.as_str())
}

fn number(alloc: Global, n: i64) -> Result<Text, AllocError>
    ensures { IfOk result (λ t. t ≡ signed_decimal n) }
{
    text_of(alloc, &Cell::Whole(n))
}

// The place of a record, and why it failed.
fn at_row(alloc: Global, row: i64, error: &RecordError) -> Result<Text, AllocError>
    ensures { IfOk result (λ t. t ≡ spec.at_row row error.now) }
{
    let told = told(alloc, error)?;
    let why = joined(alloc, "; first error: ", told.as_str())?;
    let number = number(alloc, row)?;
    joined(alloc, number.as_str(), why.as_str())
}

fn failed(alloc: Global, op: Op, row: i64, error: &RecordError) -> Result<Text, AllocError>
    ensures { IfOk result (λ t. t ≡ spec.failed op row error.now) }
{
    let at = at_row(alloc, row, error)?;
    let behind = joined(alloc, " failed. First exception on row ", at.as_str())?;
    joined(alloc, op_name(op), behind.as_str())
}

impl Thrown {
    /// The class.
    pub fn class(&self) -> ExceptionClass
        ensures { result ≡ spec.class self.now }
    {
        match self {
            Thrown::DivideByZero | Thrown::OutOfRange => ExceptionClass::Math,
            Thrown::NullObject => ExceptionClass::NullPointer,
            Thrown::OutOfBounds(_) | Thrown::DuplicateId(_) | Thrown::DuplicateRecord => {
                ExceptionClass::List
            }
            Thrown::NoRows | Thrown::ManyRows | Thrown::InvalidLimit => ExceptionClass::Query,
            Thrown::NotQueried(_, _) => ExceptionClass::SObject,
            Thrown::ReadOnly | Thrown::NoErrors => ExceptionClass::Final,
            Thrown::InvalidId(_) | Thrown::Position => ExceptionClass::String,
            Thrown::InvalidNumber(_)
            | Thrown::InvalidDate
            | Thrown::InvalidConversion
            | Thrown::InvalidSavepoint => ExceptionClass::Type,
            Thrown::Dml(_, _, _) => ExceptionClass::Dml,
            Thrown::Builtin(class, _) => *class,
        }
    }

    /// The message, as `getMessage` answers it. Want of memory is the only error.
    pub fn message(&self, alloc: Global) -> Result<Text, NoMemory>
        ensures { IfOk result (λ t. t ≡ spec.message self.now) }
    {
        match self {
            Thrown::DivideByZero => Text::from_str(alloc, "Divide by 0"),
            Thrown::OutOfRange => Text::from_str(alloc, "Out of range"),
            Thrown::NullObject => Text::from_str(alloc, "Attempt to de-reference a null object"),
            Thrown::OutOfBounds(n) => {
                joined_value(alloc, "List index out of bounds: ", &Cell::Whole(*n))
            }
            Thrown::DuplicateId(id) => joined_value(
                alloc,
                "Duplicate id in list: ",
                &Cell::Id(*id),
            ),
            Thrown::DuplicateRecord => Text::from_str(alloc, "Duplicate record in list"),
            Thrown::NoRows => {
                Text::from_str(alloc, "List has no rows for assignment to SObject")
            }
            Thrown::ManyRows => {
                Text::from_str(alloc, "List has more than 1 row for assignment to SObject")
            }
            Thrown::InvalidLimit => Text::from_str(alloc, "Invalid limit"),
            Thrown::NotQueried(object, field) => not_queried(alloc, object, field),
            Thrown::ReadOnly => Text::from_str(alloc, "Record is read-only"),
            Thrown::NoErrors => Text::from_str(alloc, "SObject row does not allow errors"),
            Thrown::InvalidId(text) => joined(alloc, "Invalid id: ", text.as_str()),
            Thrown::Position => Text::from_str(alloc, "Position out of bounds"),
            Thrown::InvalidNumber(text) => joined(alloc, "Invalid number: ", text.as_str()),
            Thrown::InvalidDate => Text::from_str(alloc, "Invalid date"),
            Thrown::InvalidConversion => Text::from_str(alloc, "Invalid conversion"),
            Thrown::InvalidSavepoint => Text::from_str(alloc, "Invalid savepoint"),
            Thrown::Dml(op, row, error) => failed(alloc, *op, *row, error),
            Thrown::Builtin(_, message) => message.copy(),
        }
    }
}
