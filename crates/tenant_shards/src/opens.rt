// Shards as they begin.

ghost use Rattle.std.specs.Prelude.{◌≡◌, ◌++◌, ◌∷◌, [], ℕ, None, Some, length, replicate, OnOk};
ghost use Rattle.record_store.specs.Heaps.{rows_in};
ghost use Rattle.row_meaning.specs.Stores.{taken};
ghost use Rattle.session_states.specs.States.{fresh};
ghost use Rattle.tenant_shards.specs.Parts.{seeded};
ghost use Rattle.tenant_shards.specs.Tenants.{kept_at};

use crate::kept::Kept;
use apex_list::Items;
use apex_num::{NoMemory, copy_list};
use apex_rows::{Row, Writes};
use record_store::Store;
use session_states::Sessions;
use std::alloc::{AllocError, Global};
use std::collections::BTreeMap;
use tenant_parts::TenantPart;

// The rows of a seed come into the store, as those of a tenant.
fn put_seed(
    store: &mut Store,
    alloc: Global,
    tenant: usize,
    seed: &Items<Row>,
) -> Result<(), NoMemory>
    ensures own { OnOk result (rows_in tenant store.new.tenants ≡ taken (record { puts = seed.now; drops = [] }) (rows_in tenant store.old.tenants)) }
    ensures others { (other : ℕ) → (other ≡ tenant → ⊥) → rows_in other store.new.tenants ≡ rows_in other store.old.tenants }
{
    let writes = Writes {
        puts: copy_list(seed)?,
        drops: Items::new(alloc),
    };
    store.reserve(tenant, &writes)?;
    store.apply(tenant, writes);
    Ok(())
}

/// A tenant comes in: none of its sessions has opened a request, and its rows are those of its seed.
pub fn come_in(
    alloc: Global,
    tenants: &mut BTreeMap<usize, Kept>,
    store: &mut Store,
    tenant: usize,
    part: TenantPart,
) -> Result<(), NoMemory>
    requires { rows_in tenant store.old.tenants ≡ [] }
    ensures kept { OnOk result (kept_at tenant tenants.new.entries ≡ Some (record { part = part; sessions = replicate (length part.sessions) fresh })) }
    ensures rows { OnOk result (rows_in tenant store.new.tenants ≡ seeded part.seed) }
    ensures others { OnOk result ((other : ℕ) → (other ≡ tenant → ⊥) → kept_at other tenants.new.entries ≡ kept_at other tenants.old.entries) }
    ensures other_rows { OnOk result ((other : ℕ) → (other ≡ tenant → ⊥) → rows_in other store.new.tenants ≡ rows_in other store.old.tenants) }
{
    put_seed(store, alloc, tenant, &part.seed)?;
    let sessions = Sessions::new(alloc, part.sessions.len())?;
    match tenants.insert(tenant, Kept { part, sessions }) {
        Ok(_) => Ok(()),
        Err(_) => Err(AllocError),
    }
}

/// One number more.
pub fn push_number(order: &mut Vec<usize>, tenant: usize) -> Result<(), NoMemory>
    ensures { OnOk result (order.new.items ≡ order.old.items ++ tenant ∷ []) }
{
    order.push(tenant)?;
    Ok(())
}
