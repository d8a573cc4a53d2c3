// The rows of all tenants.

ghost use Rattle.std.specs.Prelude.{◌≡◌, ◌+◌, ◌-◌, ◌^◌, ℕ, [], min, OnOk, OnErr, IfOk};
ghost use Rattle.row_meaning.specs.Stores.{taken};
ghost use Rattle.record_store.specs.Places.{HasRoom, answer_to, rows_of};
ghost use Rattle.record_store.specs.Heaps.{IsThere, SamePlaces, SameRows, places_of, rows_in};

use crate::rows::TenantRows;
use apex_num::NoMemory;
use apex_rows::{Answer, Question, Writes};
use std::alloc::{AllocError, Global};
use std::collections::BTreeMap;
use std::marker::Model;

/// The rows of tenants, by the numbers of these, and how many questions were answered.
#[derive(Drop)]
pub struct Store {
    alloc: Global,
    tenants: BTreeMap<usize, TenantRows>,
    asked: u64,
}

impl Model for Store {
    ghost use Rattle.record_store.specs.Heaps.{Stored};

    ghost Value = { Stored };

    ghost view = { λ s. record { tenants = s.tenants.entries; asked = s.asked } };
}

// Has a tenant's rows in the map.
fn meet(
    alloc: Global,
    tenants: &mut BTreeMap<usize, TenantRows>,
    tenant: usize,
) -> Result<(), NoMemory>
    ensures there { OnOk result (IsThere tenant tenants.new.entries) }
    ensures places { SamePlaces tenants.old.entries tenants.new.entries }
{
    if tenants.contains_key(&tenant) {
        return Ok(());
    }
    match tenants.insert(tenant, TenantRows::new(alloc)) {
        Ok(_) => Ok(()),
        Err(_) => Err(AllocError),
    }
}

// Has a tenant's rows take writes.
fn apply_in(tenants: &mut BTreeMap<usize, TenantRows>, tenant: usize, writes: Writes)
    requires { HasRoom writes.puts (places_of tenant tenants.old.entries) }
    ensures own { rows_of (places_of tenant tenants.new.entries) ≡ taken writes (rows_of (places_of tenant tenants.old.entries)) }
    ensures others { (other : ℕ) → (other ≡ tenant → ⊥) → places_of other tenants.new.entries ≡ places_of other tenants.old.entries }
{
    if let Some(rows) = tenants.get_mut(&tenant) {
        rows.apply(writes);
    }
}

// Has a tenant's rows make room for writes.
fn reserve_in(
    tenants: &mut BTreeMap<usize, TenantRows>,
    tenant: usize,
    writes: &Writes,
) -> Result<(), NoMemory>
    ensures ready { OnOk result (IsThere tenant tenants.old.entries → HasRoom writes.entry.now.puts (places_of tenant tenants.new.entries)) }
    ensures rows { SameRows tenants.old.entries tenants.new.entries }
{
    match tenants.get_mut(&tenant) {
        Some(rows) => rows.reserve(writes),
        None => Ok(()),
    }
}

impl Store {
    /// No rows, and nothing asked; takes no memory.
    pub fn new(alloc: Global) -> Store
        ensures { result ≡ record { tenants = []; asked = 0 } }
    {
        Store {
            alloc,
            tenants: BTreeMap::new(alloc),
            asked: 0,
        }
    }

    // What a tenant's rows answer.
    fn answer_of(&self, tenant: usize, question: &Question) -> Result<Answer, NoMemory>
        ensures { IfOk result (λ a. a ≡ answer_to (rows_in tenant self.now.tenants) question.now) }
    {
        match self.tenants.get(&tenant) {
            Some(rows) => rows.answer(question),
            None => TenantRows::new(self.alloc).answer(question),
        }
    }

    /// What a tenant's rows answer. The store counts the questions that it answered, and changes nothing else.
    pub fn answer(&mut self, tenant: usize, question: &Question) -> Result<Answer, NoMemory>
        ensures answer { IfOk result (λ a. a ≡ answer_to (rows_in tenant self.old.tenants) question.now) }
        ensures tenants { self.new.tenants ≡ self.old.tenants }
        ensures asked { OnOk result (self.new.asked ≡ min (self.old.asked + 1) (2 ^ 64 - 1)) }
        ensures err { OnErr result (self.new.asked ≡ self.old.asked) }
    {
        let answer = self.answer_of(tenant, question)?;
        self.asked = self.asked.saturating_add(1);
        Ok(answer)
    }

    /// Makes room for a tenant's writes, so that `apply` can take them. No row of any tenant changes, also where memory is
    /// wanted.
    pub fn reserve(&mut self, tenant: usize, writes: &Writes) -> Result<(), NoMemory>
        ensures ready { OnOk result (HasRoom writes.entry.now.puts (places_of tenant self.new.tenants)) }
        ensures rows { SameRows self.old.tenants self.new.tenants }
        ensures asked { self.new.asked ≡ self.old.asked }
    {
        meet(self.alloc, &mut self.tenants, tenant)?;
        reserve_in(&mut self.tenants, tenant, writes)
    }

    /// Takes a tenant's writes, for which room was made; no other tenant's rows change. It takes no memory.
    pub fn apply(&mut self, tenant: usize, writes: Writes)
        requires { HasRoom writes.puts (places_of tenant self.old.tenants) }
        ensures own { rows_in tenant self.new.tenants ≡ taken writes (rows_in tenant self.old.tenants) }
        ensures others { (other : ℕ) → (other ≡ tenant → ⊥) → rows_in other self.new.tenants ≡ rows_in other self.old.tenants }
        ensures asked { self.new.asked ≡ self.old.asked }
    {
        apply_in(&mut self.tenants, tenant, writes);
    }
}
