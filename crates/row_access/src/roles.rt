// Roles of users, and roles above roles.

ghost use Rattle.std.specs.Prelude.{◌≡◌, ◌<◌, length, slice_get};
ghost use Rattle.row_meaning.specs.Accesses as spec;
ghost use Rattle.row_meaning.specs.Conds.{cell_of};
ghost use Rattle.record_ids.specs.Ids.{most};
ghost use Rattle.row_access.specs.Ranks.{AllTell, AllTellOf};

use crate::levels::named_in;
use crate::ranks::{Rank, ascend};
use apex_rows::Row;
use apex_schema::{Role, User};
use record_ids::user_number;

/// The role of a user by its number.
pub fn role_at(users: &[User], user: usize) -> Option<usize>
    ensures { result ≡ spec.role_of (slice_get users.now user) }
{
    match users.get(user) {
        Some(user) => user.role,
        None => None,
    }
}

/// The role of the owner of a row; none where the owner is no user.
pub fn owner_role(users: &[User], row: &Row) -> Option<usize>
    requires { length users.now < most }
    ensures { result ≡ spec.role_from 0 users.now (cell_of row.now 1) }
{
    let Some(owner) = named_in(row, 1) else {
        return None;
    };
    match user_number(owner) {
        Some(number) => role_at(users, number),
        None => None,
    }
}

// Whether the wanted role stands above another.
fn is_above(roles: &[Role], ranks: &[Option<Rank>], from: usize, wanted: usize) -> bool
    requires { AllTell roles.now wanted ranks.now }
    ensures { result ≡ spec.is_above (length roles.now) roles.now from wanted }
{
    match ascend(roles, wanted, ranks, from) {
        Rank::After(_) => true,
        Rank::Never | Rank::Far => false,
    }
}

/// Whether a user's role stands above that of an owner. The ranks are those of the user's role.
pub fn has_role_above(
    roles: &[Role],
    ranks: &[Option<Rank>],
    owner: Option<usize>,
    user: Option<usize>,
) -> bool
    requires { AllTellOf roles.now user ranks.now }
    ensures { result ≡ spec.has_role_above roles.now owner user }
{
    match (owner, user) {
        (Some(owner), Some(user)) => is_above(roles, ranks, owner, user),
        _ => false,
    }
}
