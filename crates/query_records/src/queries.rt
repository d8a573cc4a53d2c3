// Queries with what their records know.

ghost use Rattle.std.specs.Prelude.{◌≡◌, map, IfOk};
ghost use Rattle.query_records.specs.Shapes as spec;

use crate::shape::{ChildShape, FoundShape, Queried};
use crate::shaping::shape_of;
use crate::ways::with_ids;
use apex_list::{Boxed, Items};
use apex_num::NoMemory;
use apex_rows::{Query, SubQuery};
use std::alloc::Global;

// A query with the Ids over its own rows.
fn with_own(alloc: Global, query: &Query) -> Result<Query, NoMemory>
    ensures { IfOk result (λ q. q ≡ spec.with_own query.now) }
{
    let paths = with_ids(alloc, &query.paths)?;
    let mut own = query.copy()?;
    own.paths = paths;
    Ok(own)
}

// Subqueries with the Ids over their rows.
fn children_with(alloc: Global, children: &[SubQuery]) -> Result<Items<SubQuery>, NoMemory>
    ensures { IfOk result (λ all. all ≡ map spec.child_with children.now) }
{
    let mut all = Items::new(alloc);
    for child in children {
        all.push(SubQuery {
            lookup: child.lookup,
            query: with_own(alloc, &child.query)?,
        })?;
    }
    Ok(all)
}

// A query with the Ids over its rows and those of its subqueries.
fn query_with(alloc: Global, query: &Query) -> Result<Boxed<Query>, NoMemory>
    ensures { IfOk result (λ q. q ≡ spec.query_with query.now) }
{
    let children = children_with(alloc, query.children.as_slice())?;
    let mut with = with_own(alloc, query)?;
    with.children = children;
    Boxed::new(alloc, with)
}

fn child_shapes(alloc: Global, children: &[SubQuery]) -> Result<Items<ChildShape>, NoMemory>
    ensures { IfOk result (λ all. all ≡ map spec.child_shape children.now) }
{
    let mut all = Items::new(alloc);
    for child in children {
        all.push(ChildShape {
            object: child.query.object,
            lookup: child.lookup,
            row: shape_of(alloc, child.query.paths.as_slice())?,
        })?;
    }
    Ok(all)
}

/// A query that finds the Ids of the rows over its rows too, and what its records know.
pub fn queried(alloc: Global, query: &Query) -> Result<Queried, NoMemory>
    ensures { IfOk result (λ q. q ≡ spec.queried query.now) }
{
    let row = shape_of(alloc, query.paths.as_slice())?;
    let children = child_shapes(alloc, query.children.as_slice())?;
    Ok(Queried {
        query: query_with(alloc, query)?,
        shape: FoundShape { row, children },
    })
}
