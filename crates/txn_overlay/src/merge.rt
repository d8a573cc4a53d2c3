// Two lists of rows in the order of their Ids, as one.

ghost use Rattle.std.specs.Prelude.{◌≡◌, ◌∷◌, ◌++◌, IfOk};
ghost use Rattle.row_meaning.specs.Cells.{bytes_cmp};
ghost use Rattle.txn_overlay.specs.Merging.{merge};

use apex_list::Stack;
use apex_num::NoMemory;
use apex_rows::Row;
use std::alloc::Global;
use std::cmp::Ordering;

// The rows, the first one on top.
fn stacked(alloc: Global, rows: Vec<Row>) -> Result<Stack<Row>, NoMemory>
    ensures { IfOk result (λ s. s ≡ rows.items) }
{
    let mut rows = rows;
    let mut stack = Stack::new(alloc);
    while let Some(row) = rows.pop() {
        stack.push(row)?;
    }
    Ok(stack)
}

// The rows with what is left behind them.
fn with_rest(rows: Vec<Row>, first: Row, rest: Stack<Row>) -> Result<Vec<Row>, NoMemory>
    ensures { IfOk result (λ v. v.items ≡ rows.items ++ (first ∷ rest)) }
{
    let mut rows = rows;
    let mut rest = rest;
    rows.push(first)?;
    while let Some(row) = rest.pop() {
        rows.push(row)?;
    }
    Ok(rows)
}

fn order(a: &Row, b: &Row) -> Ordering
    ensures { result ≡ bytes_cmp a.now.id b.now.id }
{
    a.id.bytes().cmp(&b.id.bytes())
}

/// The rows of both lists in rising order of their Ids, where each list is in that order; of two with one Id, that of
/// the first.
pub fn merge_rows(alloc: Global, own: Vec<Row>, others: Vec<Row>) -> Result<Vec<Row>, NoMemory>
    ensures { IfOk result (λ v. v.items ≡ merge own.items others.items) }
{
    let mut rows = Vec::with_capacity(alloc, own.len().saturating_add(others.len()))?;
    let mut own = stacked(alloc, own)?;
    let mut others = stacked(alloc, others)?;
    let mut one = own.pop();
    let mut other = others.pop();
    loop {
        match (one, other) {
            (Some(a), Some(b)) => match order(&a, &b) {
                Ordering::Less => {
                    rows.push(a)?;
                    one = own.pop();
                    other = Some(b);
                }
                Ordering::Equal => {
                    rows.push(a)?;
                    one = own.pop();
                    other = others.pop();
                }
                Ordering::Greater => {
                    rows.push(b)?;
                    one = Some(a);
                    other = others.pop();
                }
            },
            (Some(a), None) => return with_rest(rows, a, own),
            (None, Some(b)) => return with_rest(rows, b, others),
            (None, None) => return Ok(rows),
        }
    }
}
