// The value of one field.

ghost use Rattle.std.specs.Prelude.{◌≡◌, IfOk};

use crate::dec::Dec;
use crate::id::Id;
use crate::text::{NoMemory, Text};

/// A value that a field, a variable or a condition may have.
#[derive(Debug, PartialEq, Eq, Hash, Drop)]
pub enum Cell {
    /// No value.
    Null,
    /// The value of a Checkbox, a Boolean.
    Bool(bool),
    /// An Integer or a Long; no field of a row has it.
    Whole(i64),
    /// A Decimal.
    Num(Dec),
    /// A text.
    Text(Text),
    /// The Id of a record.
    Id(Id),
    /// A date: the days from 1970-01-01.
    Day(i32),
    /// A moment: the seconds from 1970-01-01T00:00:00Z.
    Moment(i64),
}

impl Cell {
    /// An equal cell; a text is shared. It fails only where 2^63 copies of a text are alive.
    pub fn copy(&self) -> Result<Cell, NoMemory>
        ensures { IfOk result (λ cell. cell ≡ self.now) }
    {
        Ok(match self {
            Cell::Null => Cell::Null,
            Cell::Bool(b) => Cell::Bool(*b),
            Cell::Whole(n) => Cell::Whole(*n),
            Cell::Num(d) => Cell::Num(*d),
            Cell::Text(text) => Cell::Text(text.copy()?),
            Cell::Id(id) => Cell::Id(*id),
            Cell::Day(n) => Cell::Day(*n),
            Cell::Moment(n) => Cell::Moment(*n),
        })
    }
}
