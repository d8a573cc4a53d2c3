// A line that has room for so many bytes more.

ghost use Rattle.std.specs.Prelude.{◌≡◌, ◌<◌, ◌+◌, MatchOption};
ghost use Rattle.builtin_table.specs.Shown.{shown};
ghost use Rattle.value_texts.specs.Pieces.{Tells, comma};

use apex_num::Cell;
use builtin_table::text_of;
use std::alloc::{AllocError, Global};

/// A line, and how many bytes more it may have.
#[derive(Drop)]
pub(crate) struct Line {
    pub text: String,
    pub left: usize,
}

/// Why a text isn't made.
#[derive(Clone, Copy, PartialEq, Eq, Drop)]
pub(crate) enum TextEnd {
    /// It is longer than the line may be.
    TooLong,
    NoMemory,
}

impl From<AllocError> for TextEnd {
    ghost use Rattle.std.specs.Prelude.{◌≡◌};
    ghost use Rattle.value_texts.specs.declared.line.TextEnd.TheVariants.{NoMemory};

    ghost from_gives = { λ _ e. e ≡ NoMemory };

    fn from(_: AllocError) -> TextEnd {
        TextEnd::NoMemory
    }
}

/// Puts a text behind a line.
pub(crate) fn push(text: &str, line: &mut Line) -> Result<(), TextEnd>
    ensures { Tells text.now line.old line.new result }
{
    match line.left.checked_sub(text.len()) {
        None => Err(TextEnd::TooLong),
        Some(left) => {
            line.text.push_str(text)?;
            line.left = left;
            Ok(())
        }
    }
}

pub(crate) fn push_cell(alloc: Global, cell: &Cell, line: &mut Line) -> Result<(), TextEnd>
    ensures { Tells (shown cell.now) line.old line.new result }
{
    let text = text_of(alloc, cell)?;
    push(text.as_str(), line)
}

/// A comma in front of each but the first one.
pub(crate) fn push_comma(first: bool, line: &mut Line) -> Result<(), TextEnd>
    ensures { Tells (comma first) line.old line.new result }
{
    if first { Ok(()) } else { push(", ", line) }
}
