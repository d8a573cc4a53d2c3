// Turns of the sessions of all tenants.

ghost use Rattle.std.specs.Prelude.{◌≡◌, ◌<◌, ◌^◌, true, None, map, slice_get, IfOk, OnOk};
ghost use Rattle.legal_trails.specs.Served.{Stage as TheStage};
ghost use Rattle.tenant_trails.specs.Runs.{Tenant as TheTenant};
ghost use Rattle.std.specs.Prelude.{List, Option as Perhaps};
ghost use Rattle.attempt_run.specs.Picks as picks;
ghost use Rattle.attempt_run.specs.Plans.{ArePlans, IsPlan};
ghost use Rattle.attempt_run.specs.Stages as spec;

use crate::picks::{Cursor, first_of_all, picked};
use crate::plan::Plan;
use apex_list::Items;
use apex_num::NoMemory;
use session_turns::{Standing, turn};
use std::alloc::{AllocError, Global};
use std::mem::replace;
use tenant_shards::Shard;
use turn_lists::Turn;

// The sessions of a tenant, none of which has opened a request.
fn first_in(alloc: Global, plan: &Option<Plan>) -> Result<Items<Standing>, NoMemory>
    ensures { IfOk result (λ standings. standings ≡ spec.first_in plan.now) }
{
    let mut standings = Items::new(alloc);
    if let Some(plan) = plan {
        'sessions: for _ in 0..plan.sessions.len() {
            standings.push(Standing::closed(0))?;
        }
    }
    Ok(standings)
}

// Those of all tenants.
fn first_standings(alloc: Global, plans: &[Option<Plan>]) -> Result<Vec<Items<Standing>>, NoMemory>
    ensures { IfOk result (λ all. all.items ≡ map spec.first_in plans.now) }
{
    let mut all = Vec::new(alloc);
    'plans: for plan in plans {
        all.push(first_in(alloc, plan)?)?;
    }
    Ok(all)
}

// A turn of a session of a tenant, which has a request that isn't closed.
fn turn_in(
    alloc: Global,
    plan: &Plan,
    standings: Items<Standing>,
    shard: &mut Shard,
    t: usize,
    s: usize,
) -> Result<Items<Standing>, NoMemory>
    requires plan { IsPlan plan.now }
    requires placed { spec.HasPlace plan.now standings t shard.old }
    requires unfinished { picks.is_unfinished (slice_get plan.now.sessions s) (slice_get standings s) ≡ true }
    ensures { IfOk result (λ later. spec.TurnsIn plan.now t s standings later shard.old shard.new) }
{
    let mut standings = standings.into_vec();
    let session = &plan.sessions.as_slice()[s];
    turn(
        alloc,
        &plan.schema,
        &plan.image,
        session.requests.as_slice(),
        shard,
        t,
        s as u32,
        &mut standings[s],
    )?;
    Ok(Items::of(standings))
}

// A turn of a session, which has a request that isn't closed.
fn turn_of(
    alloc: Global,
    plans: &[Option<Plan>],
    all: &mut Vec<Items<Standing>>,
    shard: &mut Shard,
    t: usize,
    s: usize,
) -> Result<(), NoMemory>
    requires plans { ArePlans plans.now }
    requires placed { spec.HasStage plans.now all.old.items shard.old }
    requires unfinished { picks.unfinished_in (slice_get plans.now t) (slice_get all.old.items t) s ≡ true }
    ensures turns { OnOk result (spec.TurnsOn plans.now (t, s) all.old.items shard.old all.new.items shard.new) }
    ensures others { OnOk result (picks.OthersStay plans.now (t, s) all.old.items all.new.items) }
    ensures same { OnOk result (spec.SameParts shard.old shard.new) }
{
    match &plans[t] {
        Some(plan) => {
            let standings = replace(&mut all[t], Items::new(alloc));
            let later = turn_in(alloc, plan, standings, shard, t, s)?;
            all[t] = later;
            Ok(())
        }
        None => unreachable!(),
    }
}

// The turn that a list says.
fn turn_listed(
    alloc: Global,
    plans: &[Option<Plan>],
    all: &mut Vec<Items<Standing>>,
    cursor: &mut Cursor,
    shard: &mut Shard,
    listed: Turn,
) -> Result<bool, NoMemory>
    requires plans { ArePlans plans.now }
    requires placed { spec.HasStage plans.now all.old.items shard.old }
    requires passed { picks.HasPassed plans.now all.old.items cursor.old }
    ensures listed { IfOk result (spec.TurnsListed plans.now (picks.pick_of listed) all.old.items shard.old all.new.items shard.new) }
    ensures passed { OnOk result (picks.HasPassed plans.now all.new.items cursor.new) }
    ensures same { OnOk result (spec.SameParts shard.old shard.new) }
{
    match picked(plans, all, cursor, listed) {
        Some((t, s)) => {
            turn_of(alloc, plans, all, shard, t, s)?;
            Ok(true)
        }
        None => Ok(false),
    }
}

// Behind the list sessions run to their ends, the first one first.
fn run_out(
    alloc: Global,
    plans: &[Option<Plan>],
    all: &mut Vec<Items<Standing>>,
    cursor: &mut Cursor,
    shard: &mut Shard,
) -> Result<(), NoMemory>
    requires plans { ArePlans plans.now }
    requires placed { spec.HasStage plans.now all.old.items shard.old }
    requires passed { picks.HasPassed plans.now all.old.items cursor.old }
    ensures ran { OnOk result (spec.RunsOutOn plans.now all.old.items shard.old all.new.items shard.new) }
    ensures same { OnOk result (spec.SameParts shard.old shard.new) }
{
    'turns: for _ in 0..u64::MAX {
        match first_of_all(plans, all, cursor) {
            Some((t, s)) => turn_of(alloc, plans, all, shard, t, s)?,
            None => return Ok(()),
        }
    }
    // (no sessions have so many turns)
    Err(AllocError)
}

// The turns of a list, and those behind it.
fn run_listed(
    alloc: Global,
    plans: &[Option<Plan>],
    all: &mut Vec<Items<Standing>>,
    shard: &mut Shard,
    turns: &[Turn],
) -> Result<(), NoMemory>
    requires plans { ArePlans plans.now }
    requires placed { spec.HasStage plans.now all.old.items shard.old }
    ensures serves { OnOk result (spec.ServesOn plans.now (map picks.pick_of turns.now) all.old.items shard.old all.new.items shard.new) }
    ensures same { OnOk result (spec.SameParts shard.old shard.new) }
{
    let mut cursor = Cursor {
        tenant: 0,
        session: 0,
    };
    'listed: for listed in turns {
        if !turn_listed(alloc, plans, all, &mut cursor, shard, *listed)? {
            return Ok(());
        }
    }
    run_out(alloc, plans, all, &mut cursor, shard)
}

/// Runs the sessions of the tenants of a shard that begins, turn by turn. The plans are those of the tenants of a bundle in their
/// order; there is none where a tenant isn't deployed. Each turn of the list goes to the session that it names where that has a
/// request that isn't closed, and else to the first such session; behind the list sessions run to their ends, the first one first.
/// A session with no open request opens its next one. Otherwise its attempt goes on to its next pause, and that is served; where
/// an answer that the attempt had isn't what the rows answer now, its request begins again, and behind the third time it goes on to
/// its end in one turn. The shard has the same tenants then, in their order. After want of memory it is spent.
pub fn run_turns(
    alloc: Global,
    shard: &mut Shard,
    plans: &[Option<Plan>],
    turns: &[Turn],
) -> Result<(), NoMemory>
    requires plans { ArePlans plans.now }
    requires begins { (tenants : List (Perhaps TheTenant)) × spec.Begins plans.now shard.old tenants }
    ensures served { OnOk result ((tenants : List (Perhaps TheTenant)) → spec.Begins plans.now shard.old tenants → spec.AreServed plans.now tenants (map picks.pick_of turns.now) shard.new) }
    ensures same { OnOk result (spec.SameParts shard.old shard.new) }
{
    let mut all = first_standings(alloc, plans)?;
    run_listed(alloc, plans, &mut all, shard, turns)
}
