// Numbers of LIMIT and OFFSET.

ghost use Rattle.std.specs.Prelude.{◌≡◌};
ghost use Rattle.std.specs.List.{list_all};
ghost use Rattle.apex_rows.specs.declared.query.Query.TheViews.{out-SubQuery};
ghost use Rattle.apex_rows.specs.declared.query.SubQuery.{SubQuery as TheSub};
ghost use Rattle.query_meaning.specs.Queries as spec;

use apex_rows::{Bind, Query, SubQuery, Term};
use query_rows::count_of;

fn is_number(binds: &[Bind], term: &Option<Term>) -> bool
    ensures { result ≡ spec.is_number binds.now term.now }
{
    match term {
        Some(_) => count_of(binds, term).is_some(),
        None => true,
    }
}

fn has_numbers(binds: &[Bind], query: &Query) -> bool
    ensures { result ≡ spec.has_numbers binds.now query.now }
{
    is_number(binds, &query.limit) && is_number(binds, &query.offset)
}

fn all_have_numbers(binds: &[Bind], subs: &[SubQuery]) -> bool
    ensures { result ≡ list_all (λ (sub : TheSub). spec.has_numbers binds.now (out-SubQuery sub).query) subs.now }
{
    for sub in subs {
        if !has_numbers(binds, &sub.query) {
            return false;
        }
    }
    true
}

/// Whether each LIMIT and OFFSET of a query and of its subqueries is a number that isn't negative, where there is one.
pub fn all_numbers(binds: &[Bind], query: &Query) -> bool
    ensures { result ≡ spec.all_numbers binds.now query.now }
{
    has_numbers(binds, query) && all_have_numbers(binds, query.children.as_slice())
}
