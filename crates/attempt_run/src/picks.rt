// Whose turn it is.

ghost use Rattle.std.specs.Prelude.{◌≡◌, Some, slice_get};
ghost use Rattle.attempt_run.specs.Picks as spec;

use crate::plan::Plan;
use apex_list::Items;
use session_turns::Standing;
use tenant_parts::Session;
use turn_lists::Turn;

/// A place in the order of all sessions, before which each session has closed its requests: sessions open none again, so it only
/// moves on, and whoever looks for the first session that isn't at its end begins there.
#[derive(Clone, Copy, Drop)]
pub struct Cursor {
    pub tenant: usize,
    pub session: usize,
}

// Whether a session has a request that isn't closed.
fn is_unfinished(sessions: &[Session], standings: &[Standing], s: usize) -> bool
    ensures { result ≡ spec.unfinished_of sessions.now standings.now s }
{
    match sessions.get(s) {
        Some(session) => match standings.get(s) {
            Some(standing) => (standing.closed as usize) < session.requests.len(),
            None => false,
        },
        None => false,
    }
}

// The first such session of a tenant, where there is none below a number.
fn first_of(sessions: &[Session], standings: &[Standing], from: usize) -> Option<usize>
    requires { spec.NoneBelow from (spec.unfinished_of sessions.now standings.now) }
    ensures { spec.IsFirst (spec.unfinished_of sessions.now standings.now) result }
{
    'sessions: for s in from..sessions.len() {
        if is_unfinished(sessions, standings, s) {
            return Some(s);
        }
    }
    None
}

// That of a tenant, where it is deployed.
fn first_in(plan: &Option<Plan>, standings: &[Standing], from: usize) -> Option<usize>
    requires { spec.NoneBelow from (spec.unfinished_in (Some plan.now) (Some standings.now)) }
    ensures { spec.IsFirst (spec.unfinished_in (Some plan.now) (Some standings.now)) result }
{
    match plan {
        Some(plan) => first_of(plan.sessions.as_slice(), standings, from),
        None => None,
    }
}

// That of the tenant with a number.
fn first_there(
    plans: &[Option<Plan>],
    all: &[Items<Standing>],
    t: usize,
    from: usize,
) -> Option<usize>
    requires { spec.NoneBelow from (spec.unfinished_in (slice_get plans.now t) (slice_get all.now t)) }
    ensures { spec.IsFirst (spec.unfinished_in (slice_get plans.now t) (slice_get all.now t)) result }
{
    if t < plans.len() && t < all.len() {
        first_in(&plans[t], all[t].as_slice(), from)
    } else {
        None
    }
}

// The place of the first session of all tenants that has a request that isn't closed.
fn found(plans: &[Option<Plan>], all: &[Items<Standing>], cursor: Cursor) -> Option<Cursor>
    requires { spec.HasPassed plans.now all.now cursor }
    ensures { spec.IsFound plans.now all.now result }
{
    let mut from = cursor.session;
    'tenants: for tenant in cursor.tenant..plans.len() {
        match first_there(plans, all, tenant, from) {
            Some(session) => return Some(Cursor { tenant, session }),
            None => from = 0,
        }
    }
    None
}

/// The first session of all tenants that has a request that isn't closed.
pub fn first_of_all(
    plans: &[Option<Plan>],
    all: &[Items<Standing>],
    cursor: &mut Cursor,
) -> Option<(usize, usize)>
    requires { spec.HasPassed plans.now all.now cursor.old }
    ensures first { result ≡ spec.first_of_all 0 plans.now all.now }
    ensures passed { spec.HasPassed plans.now all.now cursor.new }
{
    match found(plans, all, *cursor) {
        Some(first) => {
            *cursor = first;
            Some((first.tenant, first.session))
        }
        None => None,
    }
}

// Whether a session of a tenant has a request that isn't closed.
fn unfinished_in(plans: &[Option<Plan>], all: &[Items<Standing>], t: usize, s: usize) -> bool
    ensures { result ≡ spec.unfinished_in (slice_get plans.now t) (slice_get all.now t) s }
{
    match plans.get(t) {
        Some(Some(plan)) => match all.get(t) {
            Some(standings) => { is_unfinished(plan.sessions.as_slice(), standings.as_slice(), s) }
            None => false,
        },
        Some(None) | None => false,
    }
}

/// The session that makes a turn: the one that the turn names, where it has a request that isn't closed, or the first such one.
pub fn picked(
    plans: &[Option<Plan>],
    all: &[Items<Standing>],
    cursor: &mut Cursor,
    turn: Turn,
) -> Option<(usize, usize)>
    requires { spec.HasPassed plans.now all.now cursor.old }
    ensures picked { result ≡ spec.picked_by plans.now all.now (spec.pick_of turn) }
    ensures passed { spec.HasPassed plans.now all.now cursor.new }
{
    let t = turn.tenant as usize;
    let s = turn.session as usize;
    if unfinished_in(plans, all, t, s) {
        Some((t, s))
    } else {
        first_of_all(plans, all, cursor)
    }
}
