// The parents that paths follow.

ghost use Rattle.std.specs.Prelude.{◌≡◌, ◌∷◌, [], map, IfOk, OnOk};
ghost use Rattle.std.specs.List.{flat_map};
ghost use Rattle.apex_rows.specs.declared.query.SortKey.{SortKey as TheKey};
ghost use Rattle.query_meaning.specs.Parents as spec;
ghost use Rattle.query_meaning.specs.Parents.{cond_paths, followed};
ghost use Rattle.query_questions.specs.Ways.{leading, with_ways};

use crate::ways::Way;
use apex_list::Items;
use apex_num::{NoMemory, copy_values};
use apex_rows::{Cond, Path, Query, SortKey};
use apex_schema::Schema;
use indexmap::IndexSet;
use query_rows::object_leads;
use std::alloc::{AllocError, Global};

// With a parent, where it isn't there.
fn add(ways: &mut IndexSet<Way>, path: Path) -> Result<(), NoMemory>
    ensures { OnOk result (ways.new.keys ≡ with_ways ways.old.keys (path ∷ [])) }
{
    ways.insert(Way { path }).map_err(AllocError::from)?;
    Ok(())
}

// With those on the way of a path.
fn add_path(alloc: Global, ways: &mut IndexSet<Way>, path: &Path) -> Result<(), NoMemory>
    ensures { OnOk result (ways.new.keys ≡ with_ways ways.old.keys (followed [] path.now.parents)) }
{
    let mut before = Items::new(alloc);
    for field in path.parents.as_slice() {
        add(
            ways,
            Path {
                parents: copy_values(&before)?,
                field: *field,
            },
        )?;
        before.push(*field)?;
    }
    Ok(())
}

fn add_paths(alloc: Global, ways: &mut IndexSet<Way>, paths: &[Path]) -> Result<(), NoMemory>
    ensures { OnOk result (ways.new.keys ≡ with_ways ways.old.keys (leading paths.now)) }
{
    for path in paths {
        add_path(alloc, ways, path)?;
    }
    Ok(())
}

fn add_keys(alloc: Global, ways: &mut IndexSet<Way>, keys: &[SortKey]) -> Result<(), NoMemory>
    ensures { OnOk result (ways.new.keys ≡ with_ways ways.old.keys (leading (map (λ (k : TheKey). k.path) keys.now))) }
{
    for key in keys {
        add_path(alloc, ways, &key.path)?;
    }
    Ok(())
}

// With those of a condition.
#[cycle(conditions)]
fn add_cond(alloc: Global, ways: &mut IndexSet<Way>, cond: &Cond) -> Result<(), NoMemory>
    ensures { OnOk result (ways.new.keys ≡ with_ways ways.old.keys (leading (cond_paths cond.now))) }
{
    match cond {
        Cond::All(conds) => add_conds(alloc, ways, conds),
        Cond::Any(conds) => add_conds(alloc, ways, conds),
        Cond::Not(inner) => add_cond(alloc, ways, inner.get()),
        Cond::Compare(path, _, _) => add_path(alloc, ways, path),
        Cond::Within(path, _, _) => add_path(alloc, ways, path),
    }
}

#[cycle(conditions)]
fn add_conds(alloc: Global, ways: &mut IndexSet<Way>, conds: &Items<Cond>) -> Result<(), NoMemory>
    ensures { OnOk result (ways.new.keys ≡ with_ways ways.old.keys (leading (flat_map cond_paths conds.now))) }
{
    for cond in conds.as_slice() {
        add_cond(alloc, ways, cond)?;
    }
    Ok(())
}

// The parents as a list.
fn listed(alloc: Global, ways: IndexSet<Way>) -> Result<Items<Path>, NoMemory>
    ensures { IfOk result (λ paths. paths ≡ ways.keys) }
{
    let mut paths = Items::new(alloc);
    for way in ways {
        paths.push(way.path)?;
    }
    Ok(paths)
}

/// The parents of a query's rows, in the order in which they come first in the text, each once and behind those on its way. Each is
/// looked up in a hash table.
pub fn parents_of(alloc: Global, query: &Query) -> Result<Items<Path>, NoMemory>
    ensures { IfOk result (λ paths. paths ≡ spec.parents_of query.now) }
{
    let mut ways = IndexSet::new(alloc);
    add_paths(alloc, &mut ways, query.paths.as_slice())?;
    add_cond(alloc, &mut ways, &query.cond)?;
    add_keys(alloc, &mut ways, query.keys.as_slice())?;
    listed(alloc, ways)
}

/// The object of the rows that a followed field of an object names; none where its way leads to none.
pub fn object_over(schema: &Schema, object: usize, path: &Path) -> Option<usize>
    ensures { result ≡ spec.object_over schema.now object path.now }
{
    let mut at = object;
    for field in path.parents.as_slice() {
        at = object_leads(schema, at, *field)?;
    }
    object_leads(schema, at, path.field)
}
