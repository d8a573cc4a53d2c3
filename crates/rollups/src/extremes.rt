// The least and the greatest number of a field.

ghost use Rattle.std.specs.Prelude.{◌≡◌, int_lt};
ghost use Rattle.row_meaning.specs.Rollups.{chosen, numbers};
ghost use Rattle.rollups.specs.Parts.{after, joined};

use crate::numbers::number_in;
use apex_rows::Row;

// The lesser of what stands before and what is least behind it.
fn lesser(number: Option<i128>, least: Option<i128>) -> Option<i128>
    ensures { result ≡ joined int_lt number least }
{
    match (number, least) {
        (Some(d), Some(e)) => Some(if e < d { e } else { d }),
        (Some(d), None) => Some(d),
        (None, least) => least,
    }
}

// The greater of what stands before and what is greatest behind it.
fn greater(number: Option<i128>, greatest: Option<i128>) -> Option<i128>
    ensures { result ≡ joined after number greatest }
{
    match (number, greatest) {
        (Some(d), Some(e)) => Some(if d < e { e } else { d }),
        (Some(d), None) => Some(d),
        (None, greatest) => greatest,
    }
}

// The least number, none where there is none.
pub(crate) fn least(field: Option<usize>, rows: &[Row]) -> Option<i128>
    ensures { result ≡ chosen int_lt (numbers field rows.now) }
{
    let mut found = None;
    let mut i = rows.len();
    'back: while i > 0 {
        i -= 1;
        found = lesser(number_in(field, &rows[i]), found);
    }
    found
}

// The greatest number, none where there is none.
pub(crate) fn greatest(field: Option<usize>, rows: &[Row]) -> Option<i128>
    ensures { result ≡ chosen after (numbers field rows.now) }
{
    let mut found = None;
    let mut i = rows.len();
    'back: while i > 0 {
        i -= 1;
        found = greater(number_in(field, &rows[i]), found);
    }
    found
}
