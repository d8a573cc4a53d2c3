// Conditions with the values of their binds in their places.

ghost use Rattle.std.specs.Prelude.{◌≡◌, ◌++◌, Some, map, IfOk};
ghost use Rattle.apex_num.specs.declared.cell.Cell.{Cell as TheCell};
ghost use Rattle.apex_rows.specs.declared.query.Query.TheViews.{out-Query};
ghost use Rattle.row_meaning.specs.Conds.{all_of, term_value, terms_values};
ghost use Rattle.query_meaning.specs.Questions as spec;

use apex_list::{Boxed, Items};
use apex_num::{Cell, NoMemory};
use apex_rows::{Bind, Cond, CondOp, Path, Query, Term, Terms};
use query_rows::value_at;
use row_conditions::local_part;
use std::alloc::Global;

// The value of a term.
fn value_of(binds: &[Bind], term: &Term) -> Result<Cell, NoMemory>
    ensures { IfOk result (λ cell. cell ≡ term_value binds.now term.now) }
{
    let null = Cell::Null;
    value_at(binds, term, &null).copy()
}

// The values of terms.
fn values_of(alloc: Global, binds: &[Bind], terms: &[Term]) -> Result<Items<Term>, NoMemory>
    ensures { IfOk result (λ all. all ≡ map (λ (c : TheCell). Term.Given c) (map (term_value binds.now) terms.now)) }
{
    let mut all = Items::new(alloc);
    for term in terms {
        all.push(Term::Given(value_of(binds, term)?))?;
    }
    Ok(all)
}

// Values as terms.
fn as_terms(alloc: Global, cells: &[Cell]) -> Result<Items<Term>, NoMemory>
    ensures { IfOk result (λ all. all ≡ map (λ (c : TheCell). Term.Given c) cells.now) }
{
    let mut all = Items::new(alloc);
    for cell in cells {
        all.push(Term::Given(cell.copy()?))?;
    }
    Ok(all)
}

// The value of a bind as a term, or those of its list.
fn terms_of(alloc: Global, bind: &Bind) -> Result<Items<Term>, NoMemory>
    ensures { IfOk result (λ all. all ≡ map (λ (c : TheCell). Term.Given c) (all_of (Some bind.now))) }
{
    match bind {
        Bind::Many(cells) => as_terms(alloc, cells.as_slice()),
        Bind::One(cell) => {
            let mut all = Items::new(alloc);
            all.push(Term::Given(cell.copy()?))?;
            Ok(all)
        }
    }
}

// The values behind IN.
fn given_terms(alloc: Global, binds: &[Bind], terms: &Terms) -> Result<Items<Term>, NoMemory>
    ensures { IfOk result (λ all. all ≡ map (λ (c : TheCell). Term.Given c) (terms_values binds.now terms.now)) }
{
    match terms {
        Terms::Given(list) => values_of(alloc, binds, list.as_slice()),
        Terms::Bound(n) => match binds.get(*n) {
            Some(bind) => terms_of(alloc, bind),
            None => Ok(Items::new(alloc)),
        },
    }
}

fn given_compare(binds: &[Bind], path: &Path, op: CondOp, term: &Term) -> Result<Cond, NoMemory>
    ensures { IfOk result (λ c. c ≡ Cond.Compare path.now op (Term.Given (term_value binds.now term.now))) }
{
    let path = path.copy()?;
    Ok(Cond::Compare(path, op, Term::Given(value_of(binds, term)?)))
}

fn given_within(
    alloc: Global,
    binds: &[Bind],
    path: &Path,
    negated: bool,
    terms: &Terms,
) -> Result<Cond, NoMemory>
    ensures { IfOk result (λ c. c ≡ Cond.Within path.now negated (spec.given_terms binds.now terms.now)) }
{
    let path = path.copy()?;
    let terms = given_terms(alloc, binds, terms)?;
    Ok(Cond::Within(path, negated, Terms::Given(terms)))
}

// A condition with the values of its binds in their places.
#[cycle(conditions)]
fn given(alloc: Global, binds: &[Bind], cond: &Cond) -> Result<Cond, NoMemory>
    ensures { IfOk result (λ c. c ≡ spec.given binds.now cond.now) }
{
    match cond {
        Cond::All(conds) => Ok(Cond::All(given_each(alloc, binds, conds)?)),
        Cond::Any(conds) => Ok(Cond::Any(given_each(alloc, binds, conds)?)),
        Cond::Not(inner) => {
            let inner = given(alloc, binds, inner.get())?;
            Ok(Cond::Not(Boxed::new(alloc, inner)?))
        }
        Cond::Compare(path, op, term) => given_compare(binds, path, *op, term),
        Cond::Within(path, negated, terms) => given_within(alloc, binds, path, *negated, terms),
    }
}

#[cycle(conditions)]
fn given_each(alloc: Global, binds: &[Bind], conds: &Items<Cond>) -> Result<Items<Cond>, NoMemory>
    ensures { IfOk result (λ all. all ≡ map (spec.given binds.now) conds.now) }
{
    let mut all = Items::new(alloc);
    for cond in conds.as_slice() {
        all.push(given(alloc, binds, cond)?)?;
    }
    Ok(all)
}

/// What a store is asked for of a condition: what has to hold together and names only fields of the query's own object, with the
/// values of its binds in their places.
pub fn asked(alloc: Global, binds: &[Bind], cond: &Cond) -> Result<Items<Cond>, NoMemory>
    ensures { IfOk result (λ all. all ≡ spec.asked binds.now cond.now) }
{
    let given = Boxed::new(alloc, given(alloc, binds, cond)?)?;
    local_part(alloc, given.get())
}

/// The condition of the Read of a query: further ones, and what a store is asked for of its own.
pub fn reading(
    alloc: Global,
    binds: &[Bind],
    query: &Query,
    further: Items<Cond>,
) -> Result<Boxed<Cond>, NoMemory>
    ensures { IfOk result (λ c. c ≡ Cond.All (further ++ spec.asked binds.now (out-Query query.now).cond)) }
{
    let mut conds = further;
    conds.append(asked(alloc, binds, &query.cond)?)?;
    Boxed::new(alloc, Cond::All(conds))
}
