// What is kept of tenants, and what happens to their requests.

ghost use Rattle.std.specs.Prelude.{◌≡◌, ◌++◌, ◌∷◌, ◌<◌, [], ℕ, slice_get, OnOk, OnErr};
ghost use Rattle.std.specs.Vec.{vec_len, vec_capacity};
ghost use Rattle.session_states.specs.States.{IsThere};
ghost use Rattle.legal_trails.specs.Legal.{Session as TheSession};
ghost use Rattle.tenant_shards.specs.Changes.{changed};
ghost use Rattle.tenant_shards.specs.Tenants as spec;

use crate::change::Change;
use apex_num::NoMemory;
use apex_requests::{Event, EventKind};
use session_states::Sessions;
use std::collections::BTreeMap;
use tenant_parts::TenantPart;

/// What is kept of a tenant beside its rows.
#[derive(Drop)]
pub struct Kept {
    pub part: TenantPart,
    pub sessions: Sessions,
}

/// An event, with the number of its tenant.
#[derive(Drop)]
pub struct Entry {
    pub tenant: usize,
    pub event: Event,
}

// One session changes.
fn change(kept: &mut Kept, session: u32, how: Change) -> Result<(), NoMemory>
    requires { IsThere kept.old.sessions session }
    ensures ok { OnOk result ((at : TheSession) → slice_get kept.old.sessions session ≡ Some at → kept.new.sessions ≡ changed how session kept.old.sessions at) }
    ensures err { OnErr result (kept.new ≡ kept.old) }
    ensures part { kept.new.part ≡ kept.old.part }
{
    match how {
        Change::Starts => {
            kept.sessions.start(session);
            Ok(())
        }
        Change::Grabs => kept.sessions.grab(session),
        Change::Restarts => kept.sessions.restart(session),
        Change::Closes(wrote) => kept.sessions.close(session, wrote),
    }
}

// The session of a tenant changes.
fn change_in(
    tenants: &mut BTreeMap<usize, Kept>,
    tenant: usize,
    session: u32,
    how: Change,
) -> Result<(), NoMemory>
    requires { IsThere (spec.sessions_at tenant tenants.old.entries) session }
    ensures ok { OnOk result ((at : TheSession) → slice_get (spec.sessions_at tenant tenants.old.entries) session ≡ Some at → spec.sessions_at tenant tenants.new.entries ≡ changed how session (spec.sessions_at tenant tenants.old.entries) at) }
    ensures err { OnErr result (spec.kept_at tenant tenants.new.entries ≡ spec.kept_at tenant tenants.old.entries) }
    ensures part { spec.part_at tenant tenants.new.entries ≡ spec.part_at tenant tenants.old.entries }
    ensures others { (other : ℕ) → (other ≡ tenant → ⊥) → spec.kept_at other tenants.new.entries ≡ spec.kept_at other tenants.old.entries }
{
    match tenants.get_mut(&tenant) {
        Some(kept) => change(kept, session, how),
        None => unreachable!(),
    }
}

// The last entry.
fn put(entries: &mut Vec<Entry>, tenant: usize, session: u32, kind: EventKind)
    requires { vec_len entries.old < vec_capacity entries.old }
    ensures { entries.new.items ≡ entries.old.items ++ record { tenant = tenant; event = record { session = session; kind = kind } } ∷ [] }
{
    entries.push_reserved(Entry {
        tenant,
        event: Event { session, kind },
    });
}

/// An event happens: its session changes, and it is the last entry. After want of memory nothing has changed.
pub fn happen(
    tenants: &mut BTreeMap<usize, Kept>,
    entries: &mut Vec<Entry>,
    tenant: usize,
    session: u32,
    how: Change,
    kind: EventKind,
) -> Result<(), NoMemory>
    requires { IsThere (spec.sessions_at tenant tenants.old.entries) session }
    ensures ok { OnOk result ((at : TheSession) → slice_get (spec.sessions_at tenant tenants.old.entries) session ≡ Some at → spec.sessions_at tenant tenants.new.entries ≡ changed how session (spec.sessions_at tenant tenants.old.entries) at) }
    ensures entry { OnOk result (entries.new.items ≡ entries.old.items ++ record { tenant = tenant; event = record { session = session; kind = kind } } ∷ []) }
    ensures err { OnErr result (spec.kept_at tenant tenants.new.entries ≡ spec.kept_at tenant tenants.old.entries) }
    ensures none { OnErr result (entries.new.items ≡ entries.old.items) }
    ensures part { spec.part_at tenant tenants.new.entries ≡ spec.part_at tenant tenants.old.entries }
    ensures others { (other : ℕ) → (other ≡ tenant → ⊥) → spec.kept_at other tenants.new.entries ≡ spec.kept_at other tenants.old.entries }
{
    entries.reserve(1)?;
    change_in(tenants, tenant, session, how)?;
    put(entries, tenant, session, kind);
    Ok(())
}

/// The number of the request that a session of a tenant would open next.
pub fn next_in(tenants: &BTreeMap<usize, Kept>, tenant: usize, session: u32) -> u32
    requires { IsThere (spec.sessions_at tenant tenants.now.entries) session }
    ensures { (at : TheSession) → slice_get (spec.sessions_at tenant tenants.now.entries) session ≡ Some at → result ≡ at.closed }
{
    match tenants.get(&tenant) {
        Some(kept) => kept.sessions.next(session),
        None => unreachable!(),
    }
}
