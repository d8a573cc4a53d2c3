// LIMIT and OFFSET.

ghost use Rattle.std.specs.Prelude.{◌≡◌, IfOk};
ghost use Rattle.row_meaning.specs.Queries as spec;
ghost use Rattle.query_rows.specs.Cuts.{cut_of};

use crate::conds::value_at;
use crate::order::in_order;
use crate::reader::Reader;
use apex_num::{Cell, NoMemory};
use apex_rows::{Bind, Query, Row, Term};
use std::alloc::Global;

// The number that a value is, where it is one.
fn whole_of(cell: &Cell) -> Option<usize>
    ensures { result ≡ spec.whole_of cell.now }
{
    match cell {
        Cell::Whole(n) if *n >= 0 => Some(*n as usize),
        _ => None,
    }
}

/// The number of rows that a term of LIMIT or OFFSET says; none where there is none, and where its value is no number.
pub fn count_of(binds: &[Bind], term: &Option<Term>) -> Option<usize>
    ensures { result ≡ spec.count_of binds.now term.now }
{
    match term {
        Some(term) => {
            let null = Cell::Null;
            whole_of(value_at(binds, term, &null))
        }
        None => None,
    }
}

// The rows without the first ones.
fn skipped(count: Option<usize>, rows: Vec<Row>) -> Result<Vec<Row>, NoMemory>
    ensures { IfOk result (λ v. v.items ≡ spec.skipped count rows.items) }
{
    let mut rows = rows;
    match count {
        Some(n) => {
            let at = n.min(rows.len());
            rows.split_off(at)
        }
        None => Ok(rows),
    }
}

// So many rows at the most.
fn limited(count: Option<usize>, rows: Vec<Row>) -> Vec<Row>
    ensures { result.items ≡ spec.limited count rows.items }
{
    let mut rows = rows;
    if let Some(n) = count {
        rows.truncate(n);
    }
    rows
}

/// The rows that a query takes of these: in the order of its keys and then of their Ids, without the first OFFSET ones, and
/// LIMIT at the most.
pub fn cut(
    alloc: Global,
    reader: &Reader<'_>,
    binds: &[Bind],
    query: &Query,
    rows: Vec<Row>,
) -> Result<Vec<Row>, NoMemory>
    ensures { IfOk result (λ v. v.items ≡ cut_of reader.now binds.now query.now rows.items) }
{
    let sorted = in_order(alloc, reader, query.keys.as_slice(), rows)?;
    let rest = skipped(count_of(binds, &query.offset), sorted)?;
    Ok(limited(count_of(binds, &query.limit), rest))
}
