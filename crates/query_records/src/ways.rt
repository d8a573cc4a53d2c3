// The rows over the rows of a query.

ghost use Rattle.std.specs.Prelude.{◌≡◌, ◌++◌, [], map, IfOk, OnOk};
ghost use Rattle.std.specs.List.{list_any};
ghost use Rattle.query_meaning.specs.Parents.{same_path, followed};
ghost use Rattle.query_records.specs.Shapes as spec;
ghost use Rattle.query_records.specs.Ways.{added, with_ways, leading};

use apex_list::Items;
use apex_num::{NoMemory, copy_list, copy_values};
use apex_rows::Path;
use std::alloc::Global;

// Whether the field behind these parents is followed by one of these.
fn is_among(ways: &[Path], parents: &[usize], field: usize) -> bool
    ensures { result ≡ list_any (same_path (record { parents = parents.now; field = field })) ways.now }
{
    for way in ways {
        if parents == way.parents.as_slice() && field == way.field {
            return true;
        }
    }
    false
}

// With the field behind these parents, where it isn't there.
fn add(
    alloc: Global,
    ways: &mut Items<Path>,
    before: &[usize],
    field: usize,
) -> Result<(), NoMemory>
    ensures { OnOk result (ways.new ≡ added ways.old (record { parents = before.now; field = field })) }
{
    if is_among(ways.as_slice(), before, field) {
        return Ok(());
    }
    let parents = Items::from_slice(alloc, before)?;
    ways.push(Path { parents, field })
}

// With those on the way of a path.
fn add_path(alloc: Global, ways: &mut Items<Path>, parents: &[usize]) -> Result<(), NoMemory>
    ensures { OnOk result (ways.new ≡ with_ways ways.old (followed [] parents.now)) }
{
    for i in 0..parents.len() {
        add(alloc, ways, &parents[..i], parents[i])?;
    }
    Ok(())
}

/// The fields that paths follow, in the order in which they come first, each once and behind those on its way.
pub fn ways_of(alloc: Global, paths: &[Path]) -> Result<Items<Path>, NoMemory>
    ensures { IfOk result (λ ways. ways ≡ spec.ways paths.now) }
{
    let mut ways = Items::new(alloc);
    for path in paths {
        add_path(alloc, &mut ways, path.parents.as_slice())?;
    }
    Ok(ways)
}

/// The way on from the row that a followed field names.
pub fn behind(way: &Path) -> Result<Items<usize>, NoMemory>
    ensures { IfOk result (λ on. on ≡ spec.behind way.now) }
{
    let mut on = copy_values(&way.parents)?;
    on.push(way.field)?;
    Ok(on)
}

/// The paths that a query finds: the Ids over its rows, and then what it selects.
pub fn with_ids(alloc: Global, paths: &Items<Path>) -> Result<Items<Path>, NoMemory>
    ensures { IfOk result (λ all. all ≡ spec.with_ids paths.now) }
{
    let ways = ways_of(alloc, paths.as_slice())?;
    let mut all = Items::new(alloc);
    for way in ways.as_slice() {
        let parents = behind(way)?;
        all.push(Path { parents, field: 0 })?;
    }
    all.append(copy_list(paths)?)?;
    Ok(all)
}
