// Values in a formula, without memory of their own.

ghost use Rattle.std.specs.Prelude.{◌≡◌, ◌*◌, pos, ◌||◌, bytes_eq, length};
ghost use Rattle.std.specs.Option.{option_copied};
ghost use Rattle.std.specs.Str.{chars};
ghost use Rattle.apex_num.specs.declared.cell.Cell.TheVariants.{Text as TextCell};
ghost use Rattle.row_meaning.specs.Conds.{or_null};
ghost use Rattle.row_meaning.specs.Rules.{equals, order, reads_as, text_length};
ghost use Rattle.formula_rules.specs.Values.{shows};

use apex_num::{Cell, Id, id_18};
use std::cmp::Ordering;

/// A cell, seen where it lies, or a value that a formula makes.
#[derive(Drop)]
pub enum Value<'a> {
    Null,
    Truth(bool),
    Whole(i64),
    /// Millionths.
    Num(i128),
    Text(&'a [u8]),
    Id(&'a Id),
    Day(i32),
    Moment(i64),
}

/// A cell as a value; none is null.
pub fn seen(cell: Option<&Cell>) -> Value
    ensures { shows result ≡ or_null (option_copied cell.entry) }
{
    match cell {
        None | Some(Cell::Null) => Value::Null,
        Some(Cell::Bool(b)) => Value::Truth(*b),
        Some(Cell::Whole(n)) => Value::Whole(*n),
        Some(Cell::Num(d)) => Value::Num(d.millionths()),
        Some(Cell::Text(text)) => Value::Text(text.bytes()),
        Some(Cell::Id(id)) => Value::Id(id),
        Some(Cell::Day(n)) => Value::Day(*n),
        Some(Cell::Moment(n)) => Value::Moment(*n),
    }
}

// Whether a text is an Id, of 15 or of 18 characters.
fn is_text_of(text: &[u8], id: &Id) -> bool
    ensures { result ≡ reads_as text.now id.now }
{
    text == id.bytes().as_slice() || text == id_18(id).as_slice()
}

/// Whether two values are the same.
pub fn same(a: &Value, b: &Value) -> bool
    ensures { result ≡ equals (shows a.now) (shows b.now) }
{
    match (a, b) {
        (Value::Null, Value::Null) => true,
        (Value::Truth(a), Value::Truth(b)) => *a == *b,
        (Value::Whole(a), Value::Whole(b)) => *a == *b,
        (Value::Num(a), Value::Num(b)) => *a == *b,
        (Value::Text(a), Value::Text(b)) => *a == *b,
        (Value::Id(a), Value::Id(b)) => *a == *b,
        (Value::Id(a), Value::Text(b)) => is_text_of(b, a),
        (Value::Text(a), Value::Id(b)) => is_text_of(a, b),
        (Value::Day(a), Value::Day(b)) => *a == *b,
        (Value::Moment(a), Value::Moment(b)) => *a == *b,
        _ => false,
    }
}

/// How two numbers, dates or moments stand.
pub fn stand(a: &Value, b: &Value) -> Option<Ordering>
    ensures { result ≡ order (shows a.now) (shows b.now) }
{
    match (a, b) {
        (Value::Num(a), Value::Num(b)) => Some(a.cmp(b)),
        (Value::Day(a), Value::Day(b)) => Some(a.cmp(b)),
        (Value::Moment(a), Value::Moment(b)) => Some(a.cmp(b)),
        _ => None,
    }
}

fn count(text: &str) -> usize
    ensures { result ≡ length (chars text.now) }
{
    text.chars().count()
}

/// How many Unicode scalar values a text has; 0 where it is none.
pub fn scalars(cell: Option<&Cell>) -> usize
    ensures { result ≡ text_length (or_null (option_copied cell.entry)) }
{
    match cell {
        Some(Cell::Text(text)) => match str::from_utf8(text.bytes()) {
            Ok(text) => count(text),
            Err(_) => unreachable!(),
        },
        _ => 0,
    }
}
