// What holds of a row with its parents.

ghost use Rattle.std.specs.Prelude.{◌≡◌, Some, IfOk, map};
ghost use Rattle.std.specs.List.{list_all, list_any};
ghost use Rattle.apex_num.specs.declared.cell.Cell.TheVariants as TheCell;
ghost use Rattle.apex_rows.specs.declared.query.Cond.{Cond as TheCond};
ghost use Rattle.row_meaning.specs.Cells.{compares as compared, same_cell};
ghost use Rattle.row_meaning.specs.Conds as spec;
ghost use Rattle.row_meaning.specs.Conds.{term_value, terms_values};
ghost use Rattle.query_rows.specs.Read.{value_of};

use crate::reader::Reader;
use apex_list::Items;
use apex_num::Cell;
use apex_rows::{Bind, Cond, CondOp, Path, Row, Term, Terms};
use row_conditions::{cell_like, compare, is_same};
use std::alloc::{AllocError, Global};
use std::cmp::Ordering;

// The value of a bind that is no list.
fn one_of<'t>(bind: &'t Bind, null: &'t Cell) -> &'t Cell
    requires { null.now ≡ TheCell.Null }
    ensures { result.now ≡ spec.one_of (Some bind.now) }
{
    match bind {
        Bind::One(cell) => cell,
        Bind::Many(_) => null,
    }
}

/// The value of a term.
pub fn value_at<'t>(binds: &'t [Bind], term: &'t Term, null: &'t Cell) -> &'t Cell
    requires { null.now ≡ TheCell.Null }
    ensures { result.now ≡ term_value binds.now term.now }
{
    match term {
        Term::Given(cell) => cell,
        Term::Bound(n) => match binds.get(*n) {
            Some(bind) => one_of(bind, null),
            None => null,
        },
    }
}

// Whether two values stand so.
fn compares(alloc: Global, op: CondOp, a: &Cell, b: &Cell) -> Result<bool, AllocError>
    ensures { IfOk result (λ found. found ≡ compared op a.now b.now) }
{
    Ok(match op {
        CondOp::Equal => is_same(a, b),
        CondOp::Differs => !is_same(a, b),
        CondOp::Less => compare(a, b) == Some(Ordering::Less),
        CondOp::AtMost => compare(a, b).is_some_and(|order| order != Ordering::Greater),
        CondOp::More => compare(a, b) == Some(Ordering::Greater),
        CondOp::AtLeast => compare(a, b).is_some_and(|order| order != Ordering::Less),
        CondOp::Like => return cell_like(alloc, a, b),
    })
}

// Whether a value is one of these terms.
fn is_term(a: &Cell, binds: &[Bind], terms: &[Term]) -> bool
    ensures { result ≡ list_any (same_cell a.now) (map (term_value binds.now) terms.now) }
{
    let null = Cell::Null;
    for term in terms {
        if is_same(a, value_at(binds, term, &null)) {
            return true;
        }
    }
    false
}

// Whether a value is one of these.
fn is_one(a: &Cell, cells: &[Cell]) -> bool
    ensures { result ≡ list_any (same_cell a.now) cells.now }
{
    for cell in cells {
        if is_same(a, cell) {
            return true;
        }
    }
    false
}

// Whether a value is that of a bind, or one of its list.
fn is_bound(a: &Cell, bind: &Bind) -> bool
    ensures { result ≡ list_any (same_cell a.now) (spec.all_of (Some bind.now)) }
{
    match bind {
        Bind::Many(cells) => is_one(a, cells.as_slice()),
        Bind::One(cell) => is_same(a, cell),
    }
}

fn is_in(a: &Cell, binds: &[Bind], terms: &Terms) -> bool
    ensures { result ≡ list_any (same_cell a.now) (terms_values binds.now terms.now) }
{
    match terms {
        Terms::Given(list) => is_term(a, binds, list.as_slice()),
        Terms::Bound(n) => match binds.get(*n) {
            Some(bind) => is_bound(a, bind),
            None => false,
        },
    }
}

fn compare_holds(
    alloc: Global,
    reader: &Reader<'_>,
    binds: &[Bind],
    path: &Path,
    op: CondOp,
    term: &Term,
    row: &Row,
) -> Result<bool, AllocError>
    ensures { IfOk result (λ found. found ≡ compared op (value_of reader.now row.now path.now) (term_value binds.now term.now)) }
{
    let null = Cell::Null;
    compares(
        alloc,
        op,
        reader.value(row, path, &null),
        value_at(binds, term, &null),
    )
}

/// Whether a condition holds of a row, whose parents are known, where its binds have these values.
#[cycle(conditions)]
pub fn holds(
    alloc: Global,
    reader: &Reader<'_>,
    binds: &[Bind],
    cond: &Cond,
    row: &Row,
) -> Result<bool, AllocError>
    ensures { IfOk result (λ found. found ≡ spec.holds binds.now (value_of reader.now row.now) cond.now) }
{
    match cond {
        Cond::All(conds) => all_hold(alloc, reader, binds, conds, row),
        Cond::Any(conds) => one_holds(alloc, reader, binds, conds, row),
        Cond::Not(inner) => Ok(!holds(alloc, reader, binds, inner.get(), row)?),
        Cond::Compare(path, op, term) => {
            compare_holds(alloc, reader, binds, path, *op, term, row)
        }
        Cond::Within(path, negated, terms) => {
            let null = Cell::Null;
            Ok(is_in(reader.value(row, path, &null), binds, terms) != *negated)
        }
    }
}

#[cycle(conditions)]
fn all_hold(
    alloc: Global,
    reader: &Reader<'_>,
    binds: &[Bind],
    conds: &Items<Cond>,
    row: &Row,
) -> Result<bool, AllocError>
    ensures { IfOk result (λ found. found ≡ list_all (λ (c : TheCond). spec.holds binds.now (value_of reader.now row.now) c) conds.now) }
{
    for cond in conds.as_slice() {
        if !holds(alloc, reader, binds, cond, row)? {
            return Ok(false);
        }
    }
    Ok(true)
}

#[cycle(conditions)]
fn one_holds(
    alloc: Global,
    reader: &Reader<'_>,
    binds: &[Bind],
    conds: &Items<Cond>,
    row: &Row,
) -> Result<bool, AllocError>
    ensures { IfOk result (λ found. found ≡ list_any (λ (c : TheCond). spec.holds binds.now (value_of reader.now row.now) c) conds.now) }
{
    for cond in conds.as_slice() {
        if holds(alloc, reader, binds, cond, row)? {
            return Ok(true);
        }
    }
    Ok(false)
}
