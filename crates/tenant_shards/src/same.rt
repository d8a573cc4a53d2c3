// Whether two answers are the same.

ghost use Rattle.std.specs.Prelude.{◌≡◌, MatchBool};

use apex_num::Cell;
use apex_rows::{Answer, Row};

fn same_cell(one: &Cell, other: &Cell) -> bool
    ensures { MatchBool result (one.now ≡ other.now) (one.now ≡ other.now → ⊥) }
{
    match (one, other) {
        (Cell::Null, Cell::Null) => true,
        (Cell::Bool(a), Cell::Bool(b)) => *a == *b,
        (Cell::Whole(a), Cell::Whole(b)) => *a == *b,
        (Cell::Num(a), Cell::Num(b)) => *a == *b,
        (Cell::Text(a), Cell::Text(b)) => a.bytes() == b.bytes(),
        (Cell::Id(a), Cell::Id(b)) => *a == *b,
        (Cell::Day(a), Cell::Day(b)) => *a == *b,
        (Cell::Moment(a), Cell::Moment(b)) => *a == *b,
        _ => false,
    }
}

fn same_cells(one: &[Cell], other: &[Cell]) -> bool
    ensures { MatchBool result (one.now ≡ other.now) (one.now ≡ other.now → ⊥) }
{
    if one.len() != other.len() {
        return false;
    }
    'cells: for k in 0..one.len() {
        if !same_cell(&one[k], &other[k]) {
            return false;
        }
    }
    true
}

fn same_row(one: &Row, other: &Row) -> bool
    ensures { MatchBool result (one.now ≡ other.now) (one.now ≡ other.now → ⊥) }
{
    one.object == other.object
        && one.id == other.id
        && same_cells(one.cells.as_slice(), other.cells.as_slice())
}

fn same_rows(one: &[Row], other: &[Row]) -> bool
    ensures { MatchBool result (one.now ≡ other.now) (one.now ≡ other.now → ⊥) }
{
    if one.len() != other.len() {
        return false;
    }
    'rows: for k in 0..one.len() {
        if !same_row(&one[k], &other[k]) {
            return false;
        }
    }
    true
}

/// Whether two answers are the same.
pub fn same_answer(one: &Answer, other: &Answer) -> bool
    ensures { MatchBool result (one.now ≡ other.now) (one.now ≡ other.now → ⊥) }
{
    match (one, other) {
        (Answer::Rows(one), Answer::Rows(other)) => same_rows(one.as_slice(), other.as_slice()),
        (Answer::Granted, Answer::Granted) => true,
        (Answer::Rows(_), Answer::Granted) | (Answer::Granted, Answer::Rows(_)) => false,
    }
}
