// Rows that are kept.

ghost use Rattle.std.specs.Prelude.{◌≡◌, filter, IfOk};
ghost use Rattle.apex_rows.specs.declared.row.Row.{Row as TheRow};
ghost use Rattle.row_meaning.specs.Conds as spec;
ghost use Rattle.row_meaning.specs.Queries.{is_visible};
ghost use Rattle.row_access.specs.Views.{access_of};
ghost use Rattle.query_rows.specs.Read.{value_of};

use crate::conds::holds;
use crate::reader::Reader;
use apex_num::NoMemory;
use apex_rows::{Bind, Cond, Row};
use row_access::Viewer;
use std::alloc::Global;

/// The rows for which a condition holds.
pub fn sift(
    alloc: Global,
    reader: &Reader<'_>,
    binds: &[Bind],
    cond: &Cond,
    rows: Vec<Row>,
) -> Result<Vec<Row>, NoMemory>
    ensures { IfOk result (λ v. v.items ≡ filter (λ (r : TheRow). spec.holds binds.now (value_of reader.now r) cond.now) rows.items) }
{
    let mut kept = Vec::with_capacity(alloc, rows.len())?;
    for row in rows {
        if holds(alloc, reader, binds, cond, &row)? {
            kept.push(row)?;
        }
    }
    Ok(kept)
}

/// The rows that a user sees.
pub fn seen_by(alloc: Global, viewer: &Viewer<'_>, rows: Vec<Row>) -> Result<Vec<Row>, NoMemory>
    ensures { IfOk result (λ v. v.items ≡ filter (λ (r : TheRow). is_visible (access_of viewer.now r)) rows.items) }
{
    let mut kept = Vec::with_capacity(alloc, rows.len())?;
    for row in rows {
        if viewer.sees(&row) {
            kept.push(row)?;
        }
    }
    Ok(kept)
}
