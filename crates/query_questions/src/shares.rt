// What is shared of rows.

ghost use Rattle.std.specs.Prelude.{◌≡◌, ◌<◌, suc, IfOk};
ghost use Rattle.record_ids.specs.Ids.{most};
ghost use Rattle.save_meaning.specs.Inserts.{ids_of};
ghost use Rattle.store_inquiries.specs.Questions as spec;
ghost use Rattle.query_questions.specs.Reads.{shared_with};

use answer_replay::{IdSet, within};
use apex_list::{Boxed, Items};
use apex_num::{Cell, Id, NoMemory};
use apex_rows::{Cond, CondOp, Path, Row, Term};
use record_ids::user_id;
use std::alloc::Global;

// The rows of RowShare for this user.
fn for_user(alloc: Global, user: usize) -> Cond
    requires { suc user < most }
    ensures { result ≡ shared_with user }
{
    let path = Path {
        parents: Items::new(alloc),
        field: 3,
    };
    Cond::Compare(path, CondOp::Equal, Term::Given(Cell::Id(user_id(user))))
}

/// What is shared with a user of the rows with these Ids, as a condition on rows of RowShare.
pub fn shares_on(alloc: Global, ids: &[Id], user: usize) -> Result<Boxed<Cond>, NoMemory>
    requires { suc user < most }
    ensures { IfOk result (λ c. c ≡ spec.shares_on ids.now user) }
{
    let mut conds = Items::new(alloc);
    conds.push(within(alloc, 2, ids)?)?;
    conds.push(for_user(alloc, user))?;
    Boxed::new(alloc, Cond::All(conds))
}

/// The Ids of rows, rising, each once.
pub fn rising(alloc: Global, rows: &[Row]) -> Result<Items<Id>, NoMemory>
    ensures { IfOk result (λ ids. ids ≡ spec.rising (ids_of rows.now)) }
{
    let ids = IdSet::of_rows(alloc, rows)?;
    ids.items(alloc)
}
