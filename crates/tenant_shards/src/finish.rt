// What a shard leaves.

ghost use Rattle.std.specs.Prelude.{◌≡◌, ◌++◌, ◌∷◌, [], ℕ, IfOk, OnOk};
ghost use Rattle.tenant_shards.specs.Finishes.{AreLeft, IsThere, trail_at};
ghost use Rattle.tenant_shards.specs.Tenants.{AreKept, Differ, trail_in};

use crate::kept::{Entry, Kept};
use apex_list::Items;
use apex_num::NoMemory;
use apex_requests::Event;
use std::alloc::{AllocError, Global};
use std::collections::BTreeMap;
use tenant_parts::TenantPart;

/// The part of a tenant, and its trail.
#[derive(Drop)]
pub struct Finished {
    pub tenant: usize,
    pub part: TenantPart,
    pub trail: Items<Event>,
}

// Has a tenant's trail in the map.
fn meet(
    alloc: Global,
    trails: &mut BTreeMap<usize, Items<Event>>,
    tenant: usize,
) -> Result<(), NoMemory>
    ensures there { OnOk result (IsThere tenant trails.new.entries) }
    ensures same { OnOk result ((n : ℕ) → trail_at n trails.new.entries ≡ trail_at n trails.old.entries) }
{
    if trails.contains_key(&tenant) {
        return Ok(());
    }
    match trails.insert(tenant, Items::new(alloc)) {
        Ok(_) => Ok(()),
        Err(_) => Err(AllocError),
    }
}

// An event joins the trail of its tenant.
fn join(
    trails: &mut BTreeMap<usize, Items<Event>>,
    tenant: usize,
    event: Event,
) -> Result<(), NoMemory>
    requires { IsThere tenant trails.old.entries }
    ensures own { OnOk result (trail_at tenant trails.new.entries ≡ trail_at tenant trails.old.entries ++ event ∷ []) }
    ensures others { OnOk result ((other : ℕ) → (other ≡ tenant → ⊥) → trail_at other trails.new.entries ≡ trail_at other trails.old.entries) }
{
    match trails.get_mut(&tenant) {
        Some(trail) => trail.push(event),
        None => unreachable!(),
    }
}

// An entry more.
fn add(
    alloc: Global,
    trails: &mut BTreeMap<usize, Items<Event>>,
    tenant: usize,
    event: Event,
) -> Result<(), NoMemory>
    ensures own { OnOk result (trail_at tenant trails.new.entries ≡ trail_at tenant trails.old.entries ++ event ∷ []) }
    ensures others { OnOk result ((other : ℕ) → (other ≡ tenant → ⊥) → trail_at other trails.new.entries ≡ trail_at other trails.old.entries) }
{
    meet(alloc, trails, tenant)?;
    join(trails, tenant, event)
}

/// The trail of each tenant.
pub fn gathered(
    alloc: Global,
    entries: Vec<Entry>,
) -> Result<BTreeMap<usize, Items<Event>>, NoMemory>
    ensures { IfOk result (λ trails. (n : ℕ) → trail_at n trails.entries ≡ trail_in n entries.items) }
{
    let mut trails = BTreeMap::new(alloc);
    'entries: for entry in entries {
        let Entry { tenant, event } = entry;
        add(alloc, &mut trails, tenant, event)?;
    }
    Ok(trails)
}

// The trail of a tenant leaves the map.
fn take_out(
    alloc: Global,
    trails: &mut BTreeMap<usize, Items<Event>>,
    tenant: usize,
) -> Items<Event>
    ensures own { result ≡ trail_at tenant trails.old.entries }
    ensures others { (other : ℕ) → (other ≡ tenant → ⊥) → trail_at other trails.new.entries ≡ trail_at other trails.old.entries }
{
    match trails.remove(&tenant) {
        Some(trail) => trail,
        None => Items::new(alloc),
    }
}

/// The tenants with these numbers, in this order, each with its trail.
pub fn all_finished(
    alloc: Global,
    order: &[usize],
    mut tenants: BTreeMap<usize, Kept>,
    mut trails: BTreeMap<usize, Items<Event>>,
) -> Result<Items<Finished>, NoMemory>
    requires differ { Differ order.now }
    requires kept { AreKept order.now tenants.entries }
    ensures { IfOk result (AreLeft tenants.entries trails.entries order.now) }
{
    let mut all = Items::new(alloc);
    'order: for i in 0..order.len() {
        let tenant = order[i];
        if let Some(Kept { part, .. }) = tenants.remove(&tenant) {
            let trail = take_out(alloc, &mut trails, tenant);
            all.push(Finished {
                tenant,
                part,
                trail,
            })?;
        }
    }
    Ok(all)
}
