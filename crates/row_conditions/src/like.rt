// LIKE: `%` is any run of characters, `_` any one, and a backslash takes the next one as it is.

ghost use Rattle.std.specs.Prelude.{◌≡◌, ◌&&◌, ◌∷◌, true, false, reverse, IfOk, OnOk};
ghost use Rattle.std.specs.Str.{chars};
ghost use Rattle.apex_text.specs.Fold.{folded};
ghost use Rattle.row_meaning.specs.Cells.{agrees, cell_like as like, text_like as texts_like};
ghost use Rattle.row_conditions.specs.Pieces.{begun, ended, is_run as run, last_of, meets, piece, pieces, turned};

use apex_num::Cell;
use builtin_table::text_of;
use std::alloc::{AllocError, Global};
use std::mem;

/// What a part of a pattern takes.
#[derive(Clone, Copy, PartialEq, Eq, Drop)]
pub enum Piece {
    /// Any run of characters.
    Run,
    /// Any one character.
    One,
    /// This character.
    Is(char),
}

// The characters of a text.
fn letters(alloc: Global, text: &str) -> Result<Vec<char>, AllocError>
    ensures { IfOk result (λ v. v.items ≡ chars text.now) }
{
    text.chars().collect(alloc)
}

// What a character takes that stands behind no backslash and isn't one.
fn piece_of(c: char) -> Piece
    ensures { result ≡ piece c }
{
    match c {
        '%' => Piece::Run,
        '_' => Piece::One,
        _ => Piece::Is(c),
    }
}

// The parts of a pattern. A backslash at its end is itself.
fn pieces_of(alloc: Global, pattern: &[char]) -> Result<Vec<Piece>, AllocError>
    ensures { IfOk result (λ v. v.items ≡ pieces false pattern.now) }
{
    let mut pieces = Vec::new(alloc);
    let mut escaped = false;
    for c in pattern {
        if escaped {
            pieces.push(Piece::Is(*c))?;
            escaped = false;
        } else if *c == '\\' {
            escaped = true;
        } else {
            pieces.push(piece_of(*c))?;
        }
    }
    if escaped {
        pieces.push(Piece::Is('\\'))?;
    }
    Ok(pieces)
}

// Whether an end of a pattern with this part in front meets an empty text, by whether that end does.
fn meets_nothing(end: bool, part: Piece) -> bool
    ensures { result ≡ (end && run part) }
{
    match part {
        Piece::Run => end,
        Piece::One | Piece::Is(_) => false,
    }
}

// Whether the ends of a pattern, the shortest first, meet an empty text. The parts stand from the last one on.
fn first_column(alloc: Global, parts: &[Piece]) -> Result<Vec<bool>, AllocError>
    ensures { IfOk result (λ v. v.items ≡ true ∷ begun true parts.now) }
{
    let mut column = Vec::new(alloc);
    let mut last = true;
    column.push(last)?;
    for part in parts {
        last = meets_nothing(last, *part);
        column.push(last)?;
    }
    Ok(column)
}

// Whether a part with an end of the pattern behind it meets a text that begins with a character: `below` says it of
// that end and the rest of the text, `last` of that end and the whole text, `own` of both and the rest.
fn meets_here(part: Piece, c: char, below: bool, last: bool, own: bool) -> bool
    ensures { result ≡ ended part c below last own }
{
    match part {
        Piece::Run => last || own,
        Piece::One => below,
        Piece::Is(d) => d == c && below,
    }
}

// The same for a text with one more character in front.
fn next_column(
    parts: &[Piece],
    c: char,
    column: &[bool],
    into: &mut Vec<bool>,
) -> Result<(), AllocError>
    ensures { OnOk result (into.new.items ≡ turned c parts.now column.now) }
{
    into.clear();
    let Some((first, others)) = column.split_first() else {
        return Ok(());
    };
    let mut below = *first;
    let mut rest = others;
    let mut last = false;
    into.push(last)?;
    for part in parts {
        let Some((own, more)) = rest.split_first() else {
            return Ok(());
        };
        last = meets_here(*part, c, below, last, *own);
        below = *own;
        rest = more;
        into.push(last)?;
    }
    Ok(())
}

// What stands at the end of a column.
fn last(column: &[bool]) -> bool
    ensures { result ≡ last_of column.now }
{
    let mut end = false;
    for b in column {
        end = *b;
    }
    end
}

// Whether a text meets a pattern, whose parts stand from the last one on.
fn met(alloc: Global, parts: &[Piece], text: &str) -> Result<bool, AllocError>
    ensures { IfOk result (λ b. b ≡ meets (reverse parts.now) (chars text.now)) }
{
    let mut left = letters(alloc, text)?;
    let mut column = first_column(alloc, parts)?;
    let mut next = Vec::new(alloc);
    while let Some(c) = left.pop() {
        next_column(parts, c, &column, &mut next)?;
        mem::swap(&mut column, &mut next);
    }
    Ok(last(&column))
}

/// Whether a text is like a pattern, without case: `%` in the pattern is any run of characters, `_` any one, and a
/// backslash takes the next one as it is.
pub fn text_like(alloc: Global, text: &str, pattern: &str) -> Result<bool, AllocError>
    ensures { IfOk result (λ b. b ≡ texts_like text.now pattern.now) }
{
    let pattern = pattern.to_ascii_lowercase(alloc)?;
    let pattern = letters(alloc, pattern.as_str())?;
    let mut parts = pieces_of(alloc, pattern.as_slice())?;
    parts.reverse();
    let text = text.to_ascii_lowercase(alloc)?;
    met(alloc, parts.as_slice(), text.as_str())
}

/// Whether a value is like a pattern, an Id by its 18 characters; other values aren't, and nothing is like what is no
/// text.
pub fn cell_like(alloc: Global, value: &Cell, pattern: &Cell) -> Result<bool, AllocError>
    ensures { IfOk result (λ b. b ≡ like value.now pattern.now) }
{
    match (value, pattern) {
        (Cell::Text(text), Cell::Text(pattern)) => {
            text_like(alloc, text.as_str(), pattern.as_str())
        }
        (Cell::Id(_), Cell::Text(pattern)) => {
            let text = text_of(alloc, value)?;
            text_like(alloc, text.as_str(), pattern.as_str())
        }
        _ => Ok(false),
    }
}
