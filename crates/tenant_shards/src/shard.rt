// Shards.

ghost use Rattle.std.specs.Prelude.{◌≡◌, [], length, IfOk, MatchResult};
ghost use Rattle.apex_rows.specs.declared.query.Answer.TheVariants.{Rows};
ghost use Rattle.record_store.specs.Heaps.{rows_in};
ghost use Rattle.record_store.specs.Places.{answer_to};
ghost use Rattle.row_locks.specs.Locks.{holder_of};
ghost use Rattle.row_locks.specs.Holders.{FirstHeld, NoneHeld};
ghost use Rattle.legal_trails.specs.Legal.{some_writes};
ghost use Rattle.tenant_shards.specs.Finishes.{AreFinished};
ghost use Rattle.tenant_shards.specs.Logs as logs;
ghost use Rattle.tenant_shards.specs.Tenants.{Differ};
ghost use Rattle.tenant_shards.specs.Shards as spec;

use crate::change::Change;
use crate::finish::{Finished, all_finished, gathered};
use crate::kept::{Entry, Kept, happen, next_in};
use crate::log::Log;
use crate::opens::{come_in, push_number};
use crate::stale::first_stale;
use apex_list::Items;
use apex_num::{Id, NoMemory};
use apex_requests::{EventKind, Reply};
use apex_rows::{Answer, Question, Row, Writes};
use record_store::Store;
use row_locks::Locks;
use std::alloc::Global;
use std::collections::BTreeMap;
use std::marker::Model;
use tenant_parts::TenantPart;

/// How a call for rows is met.
#[derive(Clone, Copy, Debug, PartialEq, Eq, Drop)]
pub enum Grabbed {
    /// The rows answer something else now to what was asked at this place of the log; nothing changed.
    Stale(usize),
    /// The first of the rows that another session holds, and that session; the request is closed.
    Held { row: Id, holder: u32 },
    /// The rows are the session's own.
    Granted,
}

/// How the end of a request is met.
#[derive(Clone, Copy, Debug, PartialEq, Eq, Drop)]
pub enum Ended {
    /// The rows answer something else now to what was asked at this place of the log; nothing changed.
    Stale(usize),
    /// The request is closed.
    Closed,
}

/// Some tenants by their numbers: their parts, their sessions, their rows, which rows are held, and what happened.
#[derive(Drop)]
pub struct Shard {
    alloc: Global,
    order: Vec<usize>,
    tenants: BTreeMap<usize, Kept>,
    store: Store,
    locks: Locks,
    entries: Vec<Entry>,
}

impl Model for Shard {
    ghost use Rattle.std.specs.Coded.{codes};
    ghost use Rattle.tenant_shards.specs.Shards.{Shared, IsSound};
    ghost use Rattle.tenant_parts.specs.contracts.part.TenantPart as part;

    ghost Value = { Shared };

    ghost coded = { Prim.hlevel (codes, part.the_row.coded) };

    ghost view = { λ s. record { order = s.order.items; tenants = s.tenants.entries; rows = s.store.tenants; locks = s.locks.locks; entries = s.entries.items } };

    ghost invariant = { λ s. IsSound (record { order = s.order.items; tenants = s.tenants.entries; rows = s.store.tenants; locks = s.locks.locks; entries = s.entries.items }) };
}

fn has_writes(writes: &Writes) -> bool
    ensures { result ≡ some_writes writes.now }
{
    !writes.puts.is_empty() || !writes.drops.is_empty()
}

impl Shard {
    /// These tenants by their numbers: the rows of each are those of its seed, and none of its sessions has opened a request.
    pub fn open(alloc: Global, parts: Vec<(usize, TenantPart)>) -> Result<Shard, NoMemory>
        requires { Differ (spec.numbers parts.items) }
        ensures order { IfOk result (λ shard. shard.order ≡ spec.numbers parts.items) }
        ensures opened { IfOk result (λ shard. spec.AreOpened shard parts.items) }
        ensures locks { IfOk result (λ shard. shard.locks ≡ []) }
        ensures entries { IfOk result (λ shard. shard.entries ≡ []) }
    {
        let mut order = Vec::new(alloc);
        let mut tenants = BTreeMap::new(alloc);
        let mut store = Store::new(alloc);
        'parts: for (tenant, part) in parts {
            come_in(alloc, &mut tenants, &mut store, tenant, part)?;
            push_number(&mut order, tenant)?;
        }
        Ok(Shard {
            alloc,
            order,
            tenants,
            store,
            locks: Locks::new(alloc),
            entries: Vec::new(alloc),
        })
    }

    /// A session of a tenant opens its next request, whose number is answered. After want of memory nothing has changed.
    pub fn start(&mut self, tenant: usize, session: u32) -> Result<u32, NoMemory>
        requires { spec.MayStart self.old tenant session }
        ensures starts { MatchResult result (λ i. spec.StartsSo tenant session i self.old self.new) (λ _. spec.Stays tenant self.old self.new) }
        ensures keeps { spec.Keeps tenant self.old self.new }
    {
        let request = next_in(&self.tenants, tenant, session);
        happen(
            &mut self.tenants,
            &mut self.entries,
            tenant,
            session,
            Change::Starts,
            EventKind::Start(request),
        )?;
        Ok(request)
    }

    /// What a tenant's rows answer to a question for rows. Nothing of the shard changes.
    pub fn read(&mut self, tenant: usize, question: &Question) -> Result<Items<Row>, NoMemory>
        requires { logs.AsksRows question.now }
        ensures rows { IfOk result (λ rows. Rows rows ≡ answer_to (rows_in tenant self.old.rows) question.now) }
        ensures same { self.new ≡ self.old }
    {
        match self.store.answer(tenant, question)? {
            Answer::Rows(rows) => Ok(rows),
            Answer::Granted => unreachable!(),
        }
    }

    // Another session holds a row of the list, and the request is closed.
    fn refuse(
        &mut self,
        tenant: usize,
        session: u32,
        log: &Log,
        ids: &[Id],
        first: (Id, u32),
    ) -> Result<Grabbed, NoMemory>
        requires may { spec.MayGrab self.old tenant session log.now ids.now }
        requires current { logs.IsCurrent (rows_in tenant self.old.rows) log.now }
        requires first { FirstHeld (holder_of tenant self.old.locks) session ids.now first.0 first.1 }
        ensures grabbed { MatchResult result (spec.GrabsSo tenant session log.now ids.now self.old self.new) (λ _. spec.Stays tenant self.old self.new) }
        ensures keeps { spec.Keeps tenant self.old self.new }
    {
        let (row, holder) = first;
        happen(
            &mut self.tenants,
            &mut self.entries,
            tenant,
            session,
            Change::Closes(false),
            EventKind::Refuse { row, holder },
        )?;
        self.locks.free(tenant, session);
        Ok(Grabbed::Held { row, holder })
    }

    // No other session holds a row of the list, and the session holds them.
    fn grant(
        &mut self,
        tenant: usize,
        session: u32,
        log: &Log,
        ids: &[Id],
    ) -> Result<Grabbed, NoMemory>
        requires may { spec.MayGrab self.old tenant session log.now ids.now }
        requires current { logs.IsCurrent (rows_in tenant self.old.rows) log.now }
        requires none { NoneHeld (holder_of tenant self.old.locks) session ids.now }
        ensures grabbed { MatchResult result (spec.GrabsSo tenant session log.now ids.now self.old self.new) (λ _. spec.Stays tenant self.old self.new) }
        ensures keeps { spec.Keeps tenant self.old self.new }
    {
        self.locks.reserve(ids.len())?;
        happen(
            &mut self.tenants,
            &mut self.entries,
            tenant,
            session,
            Change::Grabs,
            EventKind::Grab,
        )?;
        self.locks.grab(tenant, session, ids);
        Ok(Grabbed::Granted)
    }

    // The log is compared with the rows as they are.
    fn compare(&mut self, tenant: usize, log: &Log) -> Result<Option<usize>, NoMemory>
        requires { length log.now.asked ≡ length log.now.answers }
        ensures tells { IfOk result (logs.Tells (rows_in tenant self.old.rows) log.now) }
        ensures same { self.new ≡ self.old }
    {
        first_stale(&mut self.store, tenant, log)
    }

    /// A session of a tenant asks for rows alone. First the log of its attempt is compared with the rows as they are, and the
    /// place of the first question is answered to which they answer something else now. Otherwise, where another session holds
    /// one of the rows, the first of them is answered with that session, and the request is closed. Otherwise the session holds
    /// them. After want of memory nothing has changed.
    pub fn grab(
        &mut self,
        tenant: usize,
        session: u32,
        log: &Log,
        ids: &[Id],
    ) -> Result<Grabbed, NoMemory>
        requires { spec.MayGrab self.old tenant session log.now ids.now }
        ensures grabbed { MatchResult result (spec.GrabsSo tenant session log.now ids.now self.old self.new) (λ _. spec.Stays tenant self.old self.new) }
        ensures keeps { spec.Keeps tenant self.old self.new }
    {
        if let Some(k) = self.compare(tenant, log)? {
            return Ok(Grabbed::Stale(k));
        }
        match self.locks.first_held(tenant, session, ids) {
            Some(first) => self.refuse(tenant, session, log, ids, first),
            None => self.grant(tenant, session, log, ids),
        }
    }

    /// The request of a session begins again, since the answer at place k of its log isn't what the rows answer now. After want
    /// of memory nothing has changed.
    pub fn restart(
        &mut self,
        tenant: usize,
        session: u32,
        log: &Log,
        k: usize,
    ) -> Result<(), NoMemory>
        requires { spec.MayRestart self.old tenant session log.now k }
        ensures restarts { MatchResult result (λ _. spec.RestartsSo tenant session self.old self.new) (λ _. spec.Stays tenant self.old self.new) }
        ensures keeps { spec.Keeps tenant self.old self.new }
    {
        happen(
            &mut self.tenants,
            &mut self.entries,
            tenant,
            session,
            Change::Restarts,
            EventKind::Restart,
        )?;
        self.locks.free(tenant, session);
        Ok(())
    }

    // The request is closed, and its writes are taken.
    fn close(
        &mut self,
        tenant: usize,
        session: u32,
        log: &Log,
        reply: Reply,
        writes: Writes,
    ) -> Result<Ended, NoMemory>
        requires may { spec.MayEnd self.old tenant session log.now reply writes }
        requires current { logs.IsCurrent (rows_in tenant self.old.rows) log.now }
        ensures ended { MatchResult result (spec.EndsSo tenant session log.now reply writes self.old self.new) (λ _. spec.Stays tenant self.old self.new) }
        ensures keeps { spec.Keeps tenant self.old self.new }
    {
        let wrote = has_writes(&writes);
        self.store.reserve(tenant, &writes)?;
        happen(
            &mut self.tenants,
            &mut self.entries,
            tenant,
            session,
            Change::Closes(wrote),
            EventKind::End(reply),
        )?;
        self.locks.free(tenant, session);
        self.store.apply(tenant, writes);
        Ok(Ended::Closed)
    }

    /// The request of a session ends with this reply and these writes, to which it comes on the answers of its log. First the
    /// log is compared with the rows as they are, as in `grab`. Where nothing differs, the request is closed, its writes are
    /// taken, and what the session held is free. After want of memory nothing has changed.
    pub fn end(
        &mut self,
        tenant: usize,
        session: u32,
        log: &Log,
        reply: Reply,
        writes: Writes,
    ) -> Result<Ended, NoMemory>
        requires { spec.MayEnd self.old tenant session log.now reply writes }
        ensures ended { MatchResult result (spec.EndsSo tenant session log.now reply writes self.old self.new) (λ _. spec.Stays tenant self.old self.new) }
        ensures keeps { spec.Keeps tenant self.old self.new }
    {
        if let Some(k) = self.compare(tenant, log)? {
            return Ok(Ended::Stale(k));
        }
        self.close(tenant, session, log, reply, writes)
    }

    /// The parts of the tenants in the order in which they came, each with its trail.
    pub fn finish(self) -> Result<Items<Finished>, NoMemory>
        ensures { IfOk result (AreFinished self self.order) }
    {
        let Shard {
            alloc,
            order,
            tenants,
            entries,
            ..
        } = self;
        let trails = gathered(alloc, entries)?;
        all_finished(alloc, &order, tenants, trails)
    }

    /// What holds of every shard: the trail of each tenant is legal, and leads to the sessions, the rows and the holders that
    /// the shard has.
    pub fn legality(&self)
        ensures { spec.IsSound self.now }
    {
        let _alloc = &self.alloc;
    }
}
