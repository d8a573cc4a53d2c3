// What is wrong with a record that is saved.

ghost use Rattle.std.specs.Prelude.{◌≡◌, ◌++◌, codes, IfOk};
ghost use Rattle.platform_errors.specs.Messages as spec;

use apex_num::{NoMemory, Text};
use apex_requests::SaveError;
use std::alloc::{AllocError, Global};

/// What is wrong with a record that is saved. Fields, triggers and classes are named as they were declared.
#[derive(Debug, Drop)]
pub enum RecordError {
    /// A record to insert has an Id.
    IdInInsert,
    /// A record to update or delete has no Id.
    NoId,
    /// There is no row of this Id.
    NoSuchRow,
    /// The user may not change the row.
    NoAccess,
    /// A field names a row that isn't there.
    NoReference(Text),
    /// A field that can't be changed is.
    CannotChange(Text),
    /// A roll-up is no Decimal.
    RollupOutOfRange(Text),
    /// A field that is required is null or empty.
    Required(Text),
    /// A text is longer than its field.
    TooLong(Text),
    /// A row of RowShare has another level than `Read` and `Edit`.
    BadLevel,
    /// A validation rule holds, or a trigger added an error: its message.
    Custom(Text),
    /// Rows that can't go along name the row.
    Referenced,
    /// A trigger, by its name, threw: the class and its message.
    InTrigger(Text, Text, Text),
    /// A save without all or none was tried too often.
    TooManyRetries,
}

/// A text and another behind it.
pub(crate) fn joined(alloc: Global, front: &str, text: &str) -> Result<Text, AllocError>
    ensures { IfOk result (λ t. t ≡ front.now ++ text.now) }
{
    let mut line = String::from_str(alloc, front)?;
    line.push_str(text)?;
    Text::from_string(alloc, line)
}

/// Three texts, one behind the other, with a sign between them.
pub(crate) fn parted(
    alloc: Global,
    first: &str,
    second: &str,
    third: &str,
) -> Result<Text, AllocError>
    ensures { IfOk result (λ t. t ≡ first.now ++ (codes ": " ++ (second.now ++ (codes ": " ++ third.now)))) }
{
    let end = joined(alloc, ": ", third)?;
    let middle = joined(alloc, second, end.as_str())?;
    let behind = joined(alloc, ": ", middle.as_str())?;
    joined(alloc, first, behind.as_str())
}

impl RecordError {
    /// The code, as `getStatusCode` answers it.
    pub fn code(&self) -> &'static str
        ensures { result.now ≡ spec.code self.now }
    {
        match self {
            RecordError::IdInInsert => "INVALID_FIELD_FOR_INSERT_UPDATE",
            RecordError::NoId => "MISSING_ARGUMENT",
            RecordError::NoSuchRow => "ENTITY_IS_DELETED",
            RecordError::NoAccess => "INSUFFICIENT_ACCESS_OR_READONLY",
            RecordError::NoReference(_) => "INVALID_CROSS_REFERENCE_KEY",
            RecordError::CannotChange(_) | RecordError::RollupOutOfRange(_) => {
                "FIELD_INTEGRITY_EXCEPTION"
            }
            RecordError::Required(_) => "REQUIRED_FIELD_MISSING",
            RecordError::TooLong(_) => "STRING_TOO_LONG",
            RecordError::BadLevel => "INVALID_OR_NULL_FOR_RESTRICTED_PICKLIST",
            RecordError::Custom(_) => "FIELD_CUSTOM_VALIDATION_EXCEPTION",
            RecordError::Referenced => "DELETE_FAILED",
            RecordError::InTrigger(_, _, _) => "CANNOT_INSERT_UPDATE_ACTIVATE_ENTITY",
            RecordError::TooManyRetries => "TOO_MANY_RETRIES",
        }
    }

    /// The message, as `getMessage` of an error answers it.
    pub fn message(&self, alloc: Global) -> Result<Text, NoMemory>
        ensures { IfOk result (λ t. t ≡ spec.error_message self.now) }
    {
        match self {
            RecordError::IdInInsert => Text::from_str(alloc, "cannot specify Id in an insert"),
            RecordError::NoId => Text::from_str(alloc, "Id not specified"),
            RecordError::NoSuchRow => Text::from_str(alloc, "no such row"),
            RecordError::NoAccess => Text::from_str(alloc, "insufficient access"),
            RecordError::NoReference(field) => joined(alloc, "no such row: ", field.as_str()),
            RecordError::CannotChange(field) => joined(alloc, "cannot change: ", field.as_str()),
            RecordError::RollupOutOfRange(field) => {
                joined(alloc, "out of range: ", field.as_str())
            }
            RecordError::Required(field) => joined(alloc, "required: ", field.as_str()),
            RecordError::TooLong(field) => joined(alloc, "too long: ", field.as_str()),
            RecordError::BadLevel => Text::from_str(alloc, "bad value: Level"),
            RecordError::Custom(message) => message.copy(),
            RecordError::Referenced => Text::from_str(alloc, "row is referenced"),
            RecordError::InTrigger(trigger, class, message) => {
                parted(alloc, trigger.as_str(), class.as_str(), message.as_str())
            }
            RecordError::TooManyRetries => Text::from_str(alloc, "too many retries"),
        }
    }

    /// The error of a result: code and message.
    pub fn save_error(&self, alloc: Global) -> Result<SaveError, NoMemory>
        ensures { IfOk result (λ e. (e.code ≡ spec.code self.now) × (e.message ≡ spec.error_message self.now)) }
    {
        Ok(SaveError {
            code: Text::from_str(alloc, self.code())?,
            message: self.message(alloc)?,
        })
    }
}
