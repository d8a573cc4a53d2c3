// What the records of rows know.

ghost use Rattle.std.specs.Prelude.{◌≡◌, ◌∷◌, ◌+◌, ◌<◌, ◌^◌, length, map, IfOk};
ghost use Rattle.apex_rows.specs.declared.query.Path.{Path as ThePath};
ghost use Rattle.query_records.specs.Shapes as spec;
ghost use Rattle.query_records.specs.Knowing.{over_of};

use crate::shape::{Given, Over, RowShape};
use crate::ways::{behind, ways_of};
use apex_list::Items;
use apex_num::NoMemory;
use apex_rows::Path;
use std::alloc::Global;

// The paths of more than one name.
fn longer(alloc: Global, paths: &[Path]) -> Result<Items<Path>, NoMemory>
    ensures { IfOk result (λ found. found ≡ spec.longer paths.now) }
{
    let mut found = Items::new(alloc);
    for path in paths {
        if !path.parents.is_empty() {
            found.push(path.copy()?)?;
        }
    }
    Ok(found)
}

// The fields of the row itself that are selected, behind the Id.
fn own_fields(alloc: Global, paths: &[Path]) -> Result<Items<usize>, NoMemory>
    ensures { IfOk result (λ own. own ≡ 0 ∷ map (λ (p : ThePath). p.field) (spec.shorter paths.now)) }
{
    let mut own = Items::new(alloc);
    own.push(0)?;
    for path in paths {
        if path.parents.is_empty() {
            own.push(path.field)?;
        }
    }
    Ok(own)
}

// Paths with their places from a number on.
fn numbered(alloc: Global, from: usize, paths: &[Path]) -> Result<Items<(usize, Path)>, NoMemory>
    requires { from + length paths.now < 2 ^ 64 }
    ensures { IfOk result (λ all. all ≡ spec.numbered from paths.now) }
{
    let mut all = Items::new(alloc);
    for i in 0..paths.len() {
        all.push((from + i, paths[i].copy()?))?;
    }
    Ok(all)
}

// The cells that a record knows at the end of a way.
fn cells_at(
    alloc: Global,
    selected: &[(usize, Path)],
    way: &[usize],
) -> Result<Items<Given>, NoMemory>
    ensures { IfOk result (λ cells. cells ≡ spec.cells_at selected.now way.now) }
{
    let mut cells = Items::new(alloc);
    for (place, path) in selected {
        if path.parents.as_slice() == way {
            cells.push(Given {
                field: path.field,
                place: *place,
            })?;
        }
    }
    Ok(cells)
}

// What a record leads to by a followed field, over at most so many fields more.
#[cycle(overs)]
fn over_at(
    alloc: Global,
    most: usize,
    followed: &[(usize, Path)],
    selected: &[(usize, Path)],
    id: usize,
    way: &Path,
) -> Result<Over, NoMemory>
    ensures { IfOk result (λ over. over ≡ over_of most followed.now selected.now (id, way.now)) }
{
    let on = behind(way)?;
    let cells = cells_at(alloc, selected, on.as_slice())?;
    let over = overs_at(alloc, most, followed, selected, on.as_slice())?;
    Ok(Over {
        field: way.field,
        id,
        cells,
        over,
    })
}

// What a record leads to at the end of a way.
#[cycle(overs)]
fn overs_at(
    alloc: Global,
    most: usize,
    followed: &[(usize, Path)],
    selected: &[(usize, Path)],
    way: &[usize],
) -> Result<Items<Over>, NoMemory>
    ensures { IfOk result (λ overs. overs ≡ spec.overs_at most followed.now selected.now way.now) }
{
    let mut overs = Items::new(alloc);
    if most == 0 {
        return Ok(overs);
    }
    for (id, path) in followed {
        if path.parents.as_slice() == way {
            overs.push(over_at(alloc, most - 1, followed, selected, *id, path)?)?;
        }
    }
    Ok(overs)
}

/// What the record of a row knows of the selected paths. The Id is known whether or not it is selected.
pub fn shape_of(alloc: Global, paths: &[Path]) -> Result<RowShape, NoMemory>
    ensures { IfOk result (λ shape. shape ≡ spec.shape_of paths.now) }
{
    let ways = ways_of(alloc, paths)?;
    let longer = longer(alloc, paths)?;
    let followed = numbered(alloc, 0, ways.as_slice())?;
    let selected = numbered(alloc, ways.len(), longer.as_slice())?;
    let over = overs_at(
        alloc,
        ways.len(),
        followed.as_slice(),
        selected.as_slice(),
        &[],
    )?;
    Ok(RowShape {
        own: own_fields(alloc, paths)?,
        over,
    })
}
