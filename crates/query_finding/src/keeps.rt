// The rows that a query keeps of those that it read.

ghost use Rattle.std.specs.Prelude.{◌≡◌, Some, filter, IfOk};
ghost use Rattle.save_statements.specs.Records.{names_one};
ghost use Rattle.query_finding.specs.Steps.{kept, test_of};

use answer_replay::IdSet;
use apex_list::Items;
use apex_num::NoMemory;
use apex_rows::{Bind, Query, Row};
use apex_schema::Schema;
use query_rows::{Known, Reader, sift};
use std::alloc::Global;

// The rows that name one of these Ids by a field.
fn naming(alloc: Global, field: usize, ids: &IdSet, rows: Items<Row>) -> Result<Vec<Row>, NoMemory>
    ensures { IfOk result (λ v. v.items ≡ filter (names_one field ids.now) rows) }
{
    let mut kept = Vec::new(alloc);
    for row in rows.into_vec() {
        if ids.names(&row, field) {
            kept.push(row)?;
        }
    }
    Ok(kept)
}

// The rows that name one of these Ids by a field, or all of them where no field is given.
fn tested(
    alloc: Global,
    under: Option<usize>,
    ids: &IdSet,
    rows: Items<Row>,
) -> Result<Vec<Row>, NoMemory>
    ensures { IfOk result (λ v. v.items ≡ filter (test_of under ids.now) rows) }
{
    match under {
        Some(field) => naming(alloc, field, ids, rows),
        None => Ok(rows.into_vec()),
    }
}

/// The rows that meet the whole condition of a query, over the rows that are known, and that name one of these Ids by a field,
/// where one is given.
pub fn keep(
    alloc: Global,
    schema: &Schema,
    binds: &[Bind],
    query: &Query,
    under: Option<usize>,
    ids: &IdSet,
    known: &Known,
    rows: Items<Row>,
) -> Result<Items<Row>, NoMemory>
    ensures { IfOk result (λ rs. rs ≡ kept schema.now binds.now query.now (test_of under ids.now) rows known.now) }
{
    let tested = tested(alloc, under, ids, rows)?;
    let reader = Reader::new(schema, known);
    Ok(Items::of(sift(alloc, &reader, binds, &query.cond, tested)?))
}
