// How far a role stands above others.

ghost use Rattle.std.specs.Prelude.{◌≡◌, ◌≤◌, length, slice_get, IfOk};
ghost use Rattle.row_meaning.specs.Accesses as spec;
ghost use Rattle.row_access.specs.Ranks as ranked;
ghost use Rattle.row_access.specs.Ranks.{AllTell, AllTellOf, Tells, known_at};

use apex_num::NoMemory;
use apex_schema::Role;
use std::alloc::Global;

/// How far the wanted role stands above a role.
#[derive(Clone, Copy, Drop)]
pub enum Rank {
    /// It is the one after so many steps up.
    After(usize),
    /// The roles above end without it.
    Never,
    /// It isn't among the roles above, as far as there are roles.
    Far,
}

// The role above a role.
fn parent_of(roles: &[Role], role: usize) -> Option<usize>
    ensures { result ≡ spec.parent_of (slice_get roles.now role) }
{
    match roles.get(role) {
        Some(role) => role.parent,
        None => None,
    }
}

// The rank of a role, where it is known.
fn known(ranks: &[Option<Rank>], role: usize) -> Option<Rank>
    ensures { result ≡ known_at ranks.now role }
{
    match ranks.get(role) {
        Some(rank) => *rank,
        None => None,
    }
}

// The rank of a role from which so many steps lead to one below the wanted role, among so many roles.
fn later(roles: usize, steps: usize, more: usize) -> Rank
    requires { steps ≤ roles }
    ensures { result ≡ ranked.later roles steps more }
{
    if more > roles - steps {
        Rank::Far
    } else {
        Rank::After(steps + more)
    }
}

/// The rank of a role, by the ranks that are known. It goes up until it comes to one of these.
pub fn ascend(roles: &[Role], wanted: usize, ranks: &[Option<Rank>], from: usize) -> Rank
    requires { AllTell roles.now wanted ranks.now }
    ensures { Tells roles.now wanted result from }
{
    let mut at = from;
    let mut steps = 0;
    'up: while steps < roles.len() {
        match known(ranks, at) {
            Some(Rank::After(more)) => return later(roles.len(), steps, more),
            Some(Rank::Never) => return Rank::Never,
            Some(Rank::Far) | None => {}
        }
        let Some(above) = parent_of(roles, at) else {
            return Rank::Never;
        };
        steps += 1;
        if above == wanted {
            return Rank::After(steps);
        }
        at = above;
    }
    Rank::Far
}

// The rank of the role above one with this rank, where it isn't the wanted one.
fn rank_above(rank: Rank) -> Option<Rank>
    ensures { result ≡ ranked.rank_above rank }
{
    match rank {
        Rank::After(steps) => steps.checked_sub(1).map(Rank::After),
        Rank::Never => Some(Rank::Never),
        Rank::Far => None,
    }
}

// Notes the rank of a role and those of the roles above it.
fn note(roles: &[Role], wanted: usize, ranks: &mut [Option<Rank>], from: usize, rank: Rank)
    requires ranks { AllTell roles.now wanted ranks.old }
    requires rank { Tells roles.now wanted rank from }
    ensures { AllTell roles.now wanted ranks.new }
{
    let mut at = from;
    let mut next = rank;
    let mut left = roles.len();
    'up: while left > 0 && at < ranks.len() && known(ranks, at).is_none() {
        left -= 1;
        ranks[at] = Some(next);
        let Some(above) = parent_of(roles, at) else {
            return;
        };
        let Some(rank) = rank_above(next) else {
            return;
        };
        if above == wanted {
            return;
        }
        next = rank;
        at = above;
    }
}

// The ranks of all roles. Each is looked up once, and passed over once more.
fn ranks_of(alloc: Global, roles: &[Role], wanted: usize) -> Result<Vec<Option<Rank>>, NoMemory>
    ensures { IfOk result (λ ranks. AllTell roles.now wanted ranks.items) }
{
    let mut ranks = Vec::new(alloc);
    for _ in roles {
        ranks.push(None)?;
    }
    for i in 0..roles.len() {
        let rank = ascend(roles, wanted, &ranks, i);
        note(roles, wanted, &mut ranks, i, rank);
    }
    Ok(ranks)
}

/// The ranks of all roles, where a role is wanted.
pub fn ranks_if(
    alloc: Global,
    roles: &[Role],
    wanted: Option<usize>,
) -> Result<Vec<Option<Rank>>, NoMemory>
    ensures { IfOk result (λ ranks. AllTellOf roles.now wanted ranks.items) }
{
    match wanted {
        Some(wanted) => ranks_of(alloc, roles, wanted),
        None => Ok(Vec::new(alloc)),
    }
}
