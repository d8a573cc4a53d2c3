// Methods of String.

ghost use Rattle.std.specs.Prelude.{◌≡◌};
ghost use Rattle.builtin_table.specs.Answers.{Answers};
ghost use Rattle.builtin_table.specs.Meanings as spec;

use crate::exception::BuiltinEnd;
use crate::method::{NullableMethod, TextAtMethod, TextMethod, TextsMethod};
use crate::values::{Call, copied, made, part, place};
use apex_num::{Cell, Text};
use std::alloc::Global;
use std::cmp::Ordering;

/// A method of a text alone.
pub(crate) fn text_method(alloc: Global, method: TextMethod, text: &Text) -> Call
    ensures { Answers (spec.text_meaning method text.now) result }
{
    let s = text.as_str();
    match method {
        TextMethod::Length => Ok(Cell::Whole(text.length() as i64)),
        TextMethod::ToLowerCase => made(alloc, s.to_ascii_lowercase(alloc)?),
        TextMethod::ToUpperCase => made(alloc, s.to_ascii_uppercase(alloc)?),
        TextMethod::Capitalize => made(alloc, text_methods::capitalize(alloc, s)?),
        TextMethod::Uncapitalize => made(alloc, text_methods::uncapitalize(alloc, s)?),
        TextMethod::Trim => copied(alloc, text_methods::trim(s)),
        TextMethod::Reverse => made(alloc, text_methods::reverse(alloc, s)?),
        TextMethod::IsNumeric => Ok(Cell::Bool(text_methods::is_numeric(s))),
    }
}

fn compared(order: Ordering) -> i64
    ensures { result ≡ spec.compared order }
{
    match order {
        Ordering::Less => -1,
        Ordering::Equal => 0,
        Ordering::Greater => 1,
    }
}

/// A method of two texts.
pub(crate) fn texts_method(alloc: Global, method: TextsMethod, s: &str, t: &str) -> Call
    ensures { Answers (spec.texts_meaning method s.now t.now) result }
{
    match method {
        TextsMethod::Contains => Ok(Cell::Bool(text_methods::contains(s, t))),
        TextsMethod::StartsWith => Ok(Cell::Bool(text_methods::strip_start(s, t).is_some())),
        TextsMethod::EndsWith => Ok(Cell::Bool(text_methods::strip_end(s, t).is_some())),
        TextsMethod::IndexOf => Ok(place(text_methods::first_index(s, t))),
        TextsMethod::LastIndexOf => Ok(place(text_methods::last_index(s, t))),
        TextsMethod::Equals => Ok(Cell::Bool(s.as_bytes() == t.as_bytes())),
        TextsMethod::EqualsIgnoreCase => Ok(Cell::Bool(s.eq_ignore_ascii_case(t))),
        TextsMethod::CompareTo => Ok(Cell::Whole(compared(s.cmp(t)))),
        TextsMethod::Remove => made(alloc, text_methods::replace(alloc, s, t, "")?),
        TextsMethod::RemoveStart => copied(alloc, text_methods::without_start(s, t)),
        TextsMethod::RemoveEnd => copied(alloc, text_methods::without_end(s, t)),
        TextsMethod::CountMatches => Ok(Cell::Whole(text_methods::count_matches(s, t) as i64)),
        TextsMethod::SubstringBefore => copied(alloc, text_methods::before(s, t)),
        TextsMethod::SubstringAfter => copied(alloc, text_methods::after(s, t)),
    }
}

/// A method of a text and a number.
pub(crate) fn text_at_method(alloc: Global, method: TextAtMethod, s: &Text, n: i64) -> Call
    ensures { Answers (spec.text_at_meaning method s.now n) result }
{
    match method {
        TextAtMethod::Substring => part(alloc, text_methods::part_from(s, n)),
        TextAtMethod::Left => copied(alloc, text_methods::left(s, n)),
        TextAtMethod::Right => copied(alloc, text_methods::right(s, n)),
        TextAtMethod::Repeat => made(alloc, text_methods::repeated(alloc, s.as_str(), n)?),
        TextAtMethod::LeftPad => made(alloc, text_methods::left_pad(alloc, s.as_str(), n)?),
        TextAtMethod::RightPad => made(alloc, text_methods::right_pad(alloc, s.as_str(), n)?),
    }
}

fn is_blank(cell: &Cell) -> bool
    ensures { result ≡ spec.blank cell.now }
{
    match cell {
        Cell::Text(s) => text_methods::is_blank(s.as_str()),
        _ => true,
    }
}

fn is_empty(cell: &Cell) -> bool
    ensures { result ≡ spec.empty cell.now }
{
    match cell {
        Cell::Text(s) => s.bytes().is_empty(),
        _ => true,
    }
}

/// A method of a text or null.
pub(crate) fn nullable_method(method: NullableMethod, cell: &Cell) -> Call
    ensures { Answers (spec.nullable_meaning method cell.now) result }
{
    let holds = match method {
        NullableMethod::IsBlank => is_blank(cell),
        NullableMethod::IsNotBlank => !is_blank(cell),
        NullableMethod::IsEmpty => is_empty(cell),
        NullableMethod::IsNotEmpty => !is_empty(cell),
    };
    Ok(Cell::Bool(holds))
}
