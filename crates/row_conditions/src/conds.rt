// Conditions are made ready for many rows.

ghost use Rattle.std.specs.Prelude.{◌≡◌, IfOk};
ghost use Rattle.apex_rows.specs.declared.query.Cond.TheVariants as TheCond;
ghost use Rattle.row_meaning.specs.Conds.{holds_of};
ghost use Rattle.row_conditions.specs.Prepared.{IsPrepared, AreAllPrepared};

use crate::prepared::PreparedCond;
use crate::values::{set_of, value_at};
use apex_list::{Boxed, Items};
use apex_num::{Cell, NoMemory};
use apex_rows::{Bind, Cond, CondOp, Path, Row, Term, Terms};
use std::alloc::{AllocError, Global};

fn prepare_compare(
    binds: &[Bind],
    path: &Path,
    op: CondOp,
    term: &Term,
) -> Result<PreparedCond, NoMemory>
    ensures { IfOk result (IsPrepared binds.now (TheCond.Compare path.now op term.now)) }
{
    let null = Cell::Null;
    let path = path.copy()?;
    let value = value_at(binds, term, &null).copy()?;
    Ok(PreparedCond::Compare(path, op, value))
}

fn prepare_within(
    alloc: Global,
    binds: &[Bind],
    path: &Path,
    negated: bool,
    terms: &Terms,
) -> Result<PreparedCond, NoMemory>
    ensures { IfOk result (IsPrepared binds.now (TheCond.Within path.now negated terms.now)) }
{
    let path = path.copy()?;
    let set = set_of(alloc, binds, terms)?;
    Ok(PreparedCond::Within(path, negated, set))
}

/// A condition, made ready once for many rows, where its binds have these values.
#[cycle(preparing)]
pub fn prepare(alloc: Global, binds: &[Bind], cond: &Cond) -> Result<PreparedCond, NoMemory>
    ensures { IfOk result (IsPrepared binds.now cond.now) }
{
    match cond {
        Cond::All(conds) => Ok(PreparedCond::All(prepare_each(alloc, binds, conds)?)),
        Cond::Any(conds) => Ok(PreparedCond::Any(prepare_each(alloc, binds, conds)?)),
        Cond::Not(inner) => {
            let inner = prepare(alloc, binds, inner.get())?;
            Ok(PreparedCond::Not(Boxed::new(alloc, inner)?))
        }
        Cond::Compare(path, op, term) => prepare_compare(binds, path, *op, term),
        Cond::Within(path, negated, terms) => prepare_within(alloc, binds, path, *negated, terms),
    }
}

#[cycle(preparing)]
fn prepare_each(
    alloc: Global,
    binds: &[Bind],
    conds: &Items<Cond>,
) -> Result<Items<PreparedCond>, NoMemory>
    ensures { IfOk result (AreAllPrepared binds.now conds.now) }
{
    let mut all = Items::new(alloc);
    for cond in conds.as_slice() {
        all.push(prepare(alloc, binds, cond)?)?;
    }
    Ok(all)
}

/// Whether a condition of a question holds of one row of its object. Such a condition has no binds. What asks it of many rows
/// prepares it once.
pub fn holds(alloc: Global, cond: &Cond, row: &Row) -> Result<bool, AllocError>
    ensures { IfOk result (λ found. found ≡ holds_of cond.now row.now) }
{
    prepare(alloc, &[], cond)?.holds(alloc, row)
}
