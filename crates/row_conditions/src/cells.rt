// How two values stand.

ghost use Rattle.std.specs.Prelude.{◌≡◌, IfOk};
ghost use Rattle.apex_text.specs.Fold.{folded};
ghost use Rattle.row_meaning.specs.Cells.{bytes_cmp, cell_cmp, compares as compared, is_null as null, same_cell};

use crate::like::cell_like;
use apex_num::Cell;
use apex_rows::CondOp;
use std::alloc::{AllocError, Global};
use std::cmp::Ordering;

// The order of two texts by their bytes, without case.
fn folded_order(a: &[u8], b: &[u8]) -> Ordering
    ensures { result ≡ bytes_cmp (folded a.now) (folded b.now) }
{
    let (mut left, mut right) = (a, b);
    'bytes: while let Some((x, xs)) = left.split_first() {
        let Some((y, ys)) = right.split_first() else {
            return Ordering::Greater;
        };
        let order = x.to_ascii_lowercase().cmp(&y.to_ascii_lowercase());
        if order != Ordering::Equal {
            return order;
        }
        left = xs;
        right = ys;
    }
    if right.is_empty() {
        Ordering::Equal
    } else {
        Ordering::Less
    }
}

/// How two values of one type stand, texts without case; none for a null and for values of two types.
pub fn compare(a: &Cell, b: &Cell) -> Option<Ordering>
    ensures { result ≡ cell_cmp a.now b.now }
{
    match (a, b) {
        (Cell::Bool(a), Cell::Bool(b)) => Some(a.cmp(b)),
        (Cell::Whole(a), Cell::Whole(b)) => Some(a.cmp(b)),
        (Cell::Num(a), Cell::Num(b)) => Some(a.millionths().cmp(&b.millionths())),
        (Cell::Text(a), Cell::Text(b)) => Some(folded_order(a.bytes(), b.bytes())),
        (Cell::Id(a), Cell::Id(b)) => Some(a.bytes().cmp(&b.bytes())),
        (Cell::Day(a), Cell::Day(b)) => Some(a.cmp(b)),
        (Cell::Moment(a), Cell::Moment(b)) => Some(a.cmp(b)),
        _ => None,
    }
}

fn is_null(cell: &Cell) -> bool
    ensures { result ≡ null cell.now }
{
    match cell {
        Cell::Null => true,
        _ => false,
    }
}

/// Whether two values are the same, texts without case; a null is the same as a null.
pub fn is_same(a: &Cell, b: &Cell) -> bool
    ensures { result ≡ same_cell a.now b.now }
{
    (is_null(a) && is_null(b)) || compare(a, b) == Some(Ordering::Equal)
}

/// Whether two values stand so.
pub fn compares(alloc: Global, op: CondOp, a: &Cell, b: &Cell) -> Result<bool, AllocError>
    ensures { IfOk result (λ found. found ≡ compared op a.now b.now) }
{
    Ok(match op {
        CondOp::Equal => is_same(a, b),
        CondOp::Differs => !is_same(a, b),
        CondOp::Less => compare(a, b) == Some(Ordering::Less),
        CondOp::AtMost => compare(a, b).is_some_and(|order| order != Ordering::Greater),
        CondOp::More => compare(a, b) == Some(Ordering::Greater),
        CondOp::AtLeast => compare(a, b).is_some_and(|order| order != Ordering::Less),
        CondOp::Like => return cell_like(alloc, a, b),
    })
}
