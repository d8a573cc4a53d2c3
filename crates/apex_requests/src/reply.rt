// Replies and events.

ghost use Rattle.std.specs.Prelude.{◌≡◌, IfOk};

use apex_list::Items;
use apex_num::{Id, LimitKind, NoMemory, Text, copy_list};
use fault_words::Fault;

/// What a transaction was charged.
#[derive(Clone, Copy, PartialEq, Eq, Drop)]
pub struct Counts {
    pub queries: u32,
    pub rows: u32,
    pub dml: u32,
    pub saved: u32,
    pub steps: u32,
}

/// How a request ended.
#[derive(Drop)]
pub enum Outcome {
    Ok,
    /// An exception that nothing caught: its class and its message.
    Thrown(Text, Text),
    /// A limit, and its number plus one.
    Limit(LimitKind, u32),
    /// Its block or its rows are refused.
    Refused(Fault),
}

/// The reply to a request.
#[derive(Drop)]
pub struct Reply {
    pub outcome: Outcome,
    pub debug: Items<Text>,
    pub counts: Counts,
    /// The machine's steps in the attempt that ended.
    pub ops: u64,
}

/// What happened to a request.
#[derive(Drop)]
pub enum EventKind {
    /// The session's request of this number is open.
    Start(u32),
    /// The rows that the request asked for are its own.
    Grab,
    /// A row is held by another session, and the request is closed.
    Refuse { row: Id, holder: u32 },
    /// An answer has changed, and the request begins again.
    Restart,
    /// The request is closed with its reply.
    End(Reply),
}

/// An event of a tenant's trail.
#[derive(Drop)]
pub struct Event {
    pub session: u32,
    pub kind: EventKind,
}

impl Outcome {
    /// An equal outcome.
    pub fn copy(&self) -> Result<Outcome, NoMemory>
        ensures { IfOk result (λ c. c ≡ self.now) }
    {
        Ok(match self {
            Outcome::Ok => Outcome::Ok,
            Outcome::Thrown(class, message) => Outcome::Thrown(class.copy()?, message.copy()?),
            Outcome::Limit(kind, number) => Outcome::Limit(*kind, *number),
            Outcome::Refused(fault) => Outcome::Refused(fault.copy()?),
        })
    }
}

impl Reply {
    /// An equal reply.
    pub fn copy(&self) -> Result<Reply, NoMemory>
        ensures { IfOk result (λ c. c ≡ self.now) }
    {
        Ok(Reply {
            outcome: self.outcome.copy()?,
            debug: copy_list(&self.debug)?,
            counts: self.counts,
            ops: self.ops,
        })
    }
}

impl EventKind {
    /// An equal kind of event.
    pub fn copy(&self) -> Result<EventKind, NoMemory>
        ensures { IfOk result (λ c. c ≡ self.now) }
    {
        Ok(match self {
            EventKind::Start(n) => EventKind::Start(*n),
            EventKind::Grab => EventKind::Grab,
            EventKind::Refuse { row, holder } => EventKind::Refuse {
                row: *row,
                holder: *holder,
            },
            EventKind::Restart => EventKind::Restart,
            EventKind::End(reply) => EventKind::End(reply.copy()?),
        })
    }
}

impl Event {
    /// An equal event.
    pub fn copy(&self) -> Result<Event, NoMemory>
        ensures { IfOk result (λ c. c ≡ self.now) }
    {
        Ok(Event {
            session: self.session,
            kind: self.kind.copy()?,
        })
    }
}
