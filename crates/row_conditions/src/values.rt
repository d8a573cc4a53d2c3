// The values that terms have.

ghost use Rattle.std.specs.Prelude.{◌≡◌, Some, IfOk, OnOk, ◌||◌, map};
ghost use Rattle.std.specs.List.{list_any};
ghost use Rattle.apex_num.specs.declared.cell.Cell.{Cell as TheCell};
ghost use Rattle.apex_num.specs.declared.cell.Cell.TheVariants.{Null};
ghost use Rattle.row_meaning.specs.Cells.{same_cell};
ghost use Rattle.row_meaning.specs.Conds as spec;
ghost use Rattle.row_meaning.specs.Conds.{term_value, terms_values};
ghost use Rattle.row_conditions.specs.Keys.{has, AreKeysOf};

use crate::cell_set::CellSet;
use apex_num::{Cell, NoMemory};
use apex_rows::{Bind, Term, Terms};
use std::alloc::Global;

// The value of a bind that is no list.
fn one_of<'t>(bind: &'t Bind, null: &'t Cell) -> &'t Cell
    requires { null.now ≡ Null }
    ensures { result.now ≡ spec.one_of (Some bind.now) }
{
    match bind {
        Bind::One(cell) => cell,
        Bind::Many(_) => null,
    }
}

/// The value of a term.
pub fn value_at<'t>(binds: &'t [Bind], term: &'t Term, null: &'t Cell) -> &'t Cell
    requires { null.now ≡ Null }
    ensures { result.now ≡ term_value binds.now term.now }
{
    match term {
        Term::Given(cell) => cell,
        Term::Bound(n) => match binds.get(*n) {
            Some(bind) => one_of(bind, null),
            None => null,
        },
    }
}

// With the values of these terms.
fn add_terms(
    alloc: Global,
    set: &mut CellSet,
    binds: &[Bind],
    terms: &[Term],
) -> Result<(), NoMemory>
    ensures { OnOk result ((c : TheCell) → has set.new c ≡ (has set.old c || list_any (same_cell c) (map (term_value binds.now) terms.now))) }
{
    let null = Cell::Null;
    for term in terms {
        set.add(alloc, value_at(binds, term, &null))?;
    }
    Ok(())
}

// With these values.
fn add_cells(alloc: Global, set: &mut CellSet, cells: &[Cell]) -> Result<(), NoMemory>
    ensures { OnOk result ((c : TheCell) → has set.new c ≡ (has set.old c || list_any (same_cell c) cells.now)) }
{
    for cell in cells {
        set.add(alloc, cell)?;
    }
    Ok(())
}

// With the value of a bind, or those of its list.
fn add_bind(alloc: Global, set: &mut CellSet, bind: &Bind) -> Result<(), NoMemory>
    ensures { OnOk result ((c : TheCell) → has set.new c ≡ (has set.old c || list_any (same_cell c) (spec.all_of (Some bind.now)))) }
{
    match bind {
        Bind::Many(cells) => add_cells(alloc, set, cells.as_slice()),
        Bind::One(cell) => set.add(alloc, cell),
    }
}

/// The set of the values behind IN.
pub fn set_of(alloc: Global, binds: &[Bind], terms: &Terms) -> Result<CellSet, NoMemory>
    ensures { IfOk result (AreKeysOf (terms_values binds.now terms.now)) }
{
    let mut set = CellSet::new(alloc);
    match terms {
        Terms::Given(list) => add_terms(alloc, &mut set, binds, list.as_slice())?,
        Terms::Bound(n) => {
            if let Some(bind) = binds.get(*n) {
                add_bind(alloc, &mut set, bind)?;
            }
        }
    }
    Ok(set)
}
