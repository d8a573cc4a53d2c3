// Tenants on a shard.

ghost use Rattle.std.specs.Prelude.{◌≡◌, [], replicate, IfOk};
ghost use Rattle.attempt_run.specs.Plans.{ArePlans};
ghost use Rattle.tenant_shards.specs.Shards.{AreOpened, numbers};
ghost use Rattle.tenant_runs.specs.Steps as steps;
ghost use Rattle.tenant_runs.specs.Tenants as spec;

use crate::planned::{images_of, plans_of};
use apex_list::Items;
use apex_num::NoMemory;
use apex_requests::Event;
use attempt_run::{Plan, run_turns};
use legal_trails::laws_of_turns;
use stack_code::Image;
use std::alloc::Global;
use std::mem::replace;
use tenant_parts::TenantPart;
use tenant_shards::{Finished, Shard};
use turn_lists::Turn;

/// What the tenants of a run came to.
#[derive(Drop)]
pub struct Ran {
    /// The compiled code of each tenant's program; none where the tenant isn't deployed.
    pub images: Items<Option<Image>>,
    /// What the sessions of each tenant did.
    pub trails: Items<Items<Event>>,
}

// The tenants that are deployed, with their numbers.
fn numbered(
    alloc: Global,
    parts: Items<Option<TenantPart>>,
) -> Result<Vec<(usize, TenantPart)>, NoMemory>
    ensures { IfOk result (λ all. all.items ≡ steps.numbered 0 parts) }
{
    let mut parts = parts.into_vec();
    let mut all = Vec::new(alloc);
    'tenants: for t in 0..parts.len() {
        if let Some(part) = replace(&mut parts[t], None) {
            all.push((t, part))?;
        }
    }
    Ok(all)
}

// A shard that has them.
fn opened(alloc: Global, parts: Items<Option<TenantPart>>) -> Result<Shard, NoMemory>
    ensures order { IfOk result (λ shard. shard.order ≡ numbers (steps.numbered 0 parts)) }
    ensures opened { IfOk result (λ shard. AreOpened shard (steps.numbered 0 parts)) }
    ensures locks { IfOk result (λ shard. shard.locks ≡ []) }
    ensures entries { IfOk result (λ shard. shard.entries ≡ []) }
{
    let all = numbered(alloc, parts)?;
    Shard::open(alloc, all)
}

// So many trails with no events.
fn empty(alloc: Global, count: usize) -> Result<Items<Items<Event>>, NoMemory>
    ensures { IfOk result (λ trails. trails ≡ replicate count []) }
{
    let mut trails = Items::new(alloc);
    'tenants: for _ in 0..count {
        trails.push(Items::new(alloc))?;
    }
    Ok(trails)
}

// The trails of so many tenants, of which the shard left those that are deployed.
fn dealt(
    alloc: Global,
    count: usize,
    left: Items<Finished>,
) -> Result<Items<Items<Event>>, NoMemory>
    ensures { IfOk result (λ trails. trails ≡ steps.dealt (replicate count []) left) }
{
    let mut trails = empty(alloc, count)?;
    'left: for finished in left.into_vec() {
        let Finished { tenant, trail, .. } = finished;
        if tenant < trails.len() {
            trails.set(tenant, trail);
        }
    }
    Ok(trails)
}

// The trails of tenants that run on one shard, with these plans.
fn trails_of(
    alloc: Global,
    plans: &[Option<Plan>],
    parts: Items<Option<TenantPart>>,
    turns: &[Turn],
) -> Result<Items<Items<Event>>, NoMemory>
    requires plans { ArePlans plans.now }
    requires planned { steps.ArePlanned parts plans.now }
    ensures { IfOk result (λ trails. spec.AreRan parts turns.now (steps.images_in plans.now) trails) }
{
    laws_of_turns();
    let mut shard = opened(alloc, parts)?;
    run_turns(alloc, &mut shard, plans, turns)?;
    dealt(alloc, plans.len(), shard.finish()?)
}

/// Runs tenants turn by turn on one shard: their parts in the order of the bundle, none where one isn't deployed. The program of
/// each is compiled, and its seed stored. The turns of the list are made one behind the other, each by the session that it names
/// where that has a request that isn't closed, and else by the first such session; behind the list sessions run to their ends, the
/// first one first. A save is refused as not built, and so is a block where it comes to a form that isn't.
pub fn run_tenants(
    alloc: Global,
    parts: Items<Option<TenantPart>>,
    turns: &[Turn],
) -> Result<Ran, NoMemory>
    requires { spec.AllHaveRoom parts }
    ensures { IfOk result (λ ran. spec.AreRan parts turns.now ran.images ran.trails) }
{
    let plans = plans_of(alloc, parts.as_slice())?;
    let trails = trails_of(alloc, &plans, parts, turns)?;
    let images = images_of(alloc, plans)?;
    Ok(Ran { images, trails })
}
