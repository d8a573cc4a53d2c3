// Conditions that name only fields of the query's own object.

ghost use Rattle.std.specs.Prelude.{◌≡◌, [], ◌∷◌, filter, IfOk};
ghost use Rattle.std.specs.List.{list_all};
ghost use Rattle.row_meaning.specs.Conds as spec;

use apex_list::Items;
use apex_num::NoMemory;
use apex_rows::{Cond, Path};
use std::alloc::Global;

fn is_own(path: &Path) -> bool
    ensures { result ≡ spec.is_own path.now }
{
    path.parents.is_empty()
}

/// Whether a condition names only fields of the query's own object.
#[cycle(locals)]
pub fn is_local(cond: &Cond) -> bool
    ensures { result ≡ spec.is_local cond.now }
{
    match cond {
        Cond::All(conds) => all_local(conds),
        Cond::Any(conds) => all_local(conds),
        Cond::Not(inner) => is_local(inner.get()),
        Cond::Compare(path, _, _) => is_own(path),
        Cond::Within(path, _, _) => is_own(path),
    }
}

#[cycle(locals)]
fn all_local(conds: &Items<Cond>) -> bool
    ensures { result ≡ list_all spec.is_local conds.now }
{
    for cond in conds.as_slice() {
        if !is_local(cond) {
            return false;
        }
    }
    true
}

// Those of these conditions that are local.
fn locals_among(alloc: Global, conds: &[Cond]) -> Result<Items<Cond>, NoMemory>
    ensures { IfOk result (λ all. all ≡ filter spec.is_local conds.now) }
{
    let mut all = Items::new(alloc);
    for cond in conds {
        if is_local(cond) {
            all.push(cond.copy()?)?;
        }
    }
    Ok(all)
}

fn alone(alloc: Global, cond: &Cond) -> Result<Items<Cond>, NoMemory>
    ensures { IfOk result (λ all. all ≡ filter spec.is_local (cond.now ∷ [])) }
{
    let mut all = Items::new(alloc);
    if is_local(cond) {
        all.push(cond.copy()?)?;
    }
    Ok(all)
}

/// The conditions of a query that a store is asked for: of those that have to hold together, the local ones.
pub fn local_part(alloc: Global, cond: &Cond) -> Result<Items<Cond>, NoMemory>
    ensures { IfOk result (λ all. all ≡ spec.local_part cond.now) }
{
    match cond {
        Cond::All(conds) => locals_among(alloc, conds.as_slice()),
        Cond::Any(_) | Cond::Not(_) | Cond::Compare(_, _, _) | Cond::Within(_, _, _) => {
            alone(alloc, cond)
        }
    }
}
