// Requests of sessions, and records to save.

ghost use Rattle.std.specs.Prelude.{◌≡◌, IfOk};

use apex_list::Items;
use apex_num::{Cell, Copied, Id, NoMemory, Text, copy_list};
use apex_rows::Row;
use fault_words::Fault;

/// What a DML statement does with its records.
#[derive(Clone, Copy, PartialEq, Eq, Drop)]
pub enum Op {
    Insert,
    Update,
    Delete,
    /// Inserts the records without Id and updates the others.
    Upsert,
}

/// A record to save.
#[derive(Drop)]
pub struct SaveRow {
    /// Two rows have one key exactly where they are one record object.
    pub key: usize,
    pub id: Option<Id>,
    /// One place for each field; none where the cell isn't known.
    pub cells: Items<Option<Cell>>,
}

/// Why a record wasn't saved.
#[derive(Drop)]
pub struct SaveError {
    pub code: Text,
    pub message: Text,
}

/// What came of a record.
#[derive(Drop)]
pub enum SaveResult {
    Saved(Id),
    Failed(SaveError),
}

/// What a request does.
#[derive(Drop)]
pub enum Work {
    /// It runs a block, by number.
    Apex(usize),
    /// It saves rows, as one statement.
    Save {
        op: Op,
        object: usize,
        all_or_none: bool,
        rows: Items<SaveRow>,
    },
    /// Its block or its rows are refused.
    Refused(Fault),
}

/// A request of a session.
#[derive(Drop)]
pub struct Request {
    /// The number of the user.
    pub user: usize,
    pub work: Work,
    /// The moment of the request: seconds from 1970-01-01T00:00:00Z.
    pub now: i64,
}

/// Which request runs, for whom and when.
#[derive(Clone, Copy, PartialEq, Eq, Drop)]
pub struct Ticket {
    pub session: u32,
    pub index: u32,
    pub user: usize,
    pub now: i64,
}

/// What a trigger sees: its operation, and the records before and after it.
#[derive(Drop)]
pub struct Context {
    pub op: Op,
    pub before: bool,
    pub news: Items<Row>,
    pub olds: Items<Row>,
}

impl SaveRow {
    /// An equal record.
    pub fn copy(&self) -> Result<SaveRow, NoMemory>
        ensures { IfOk result (λ c. c ≡ self.now) }
    {
        Ok(SaveRow {
            key: self.key,
            id: self.id,
            cells: copy_list(&self.cells)?,
        })
    }
}

impl SaveError {
    /// An equal error.
    pub fn copy(&self) -> Result<SaveError, NoMemory>
        ensures { IfOk result (λ c. c ≡ self.now) }
    {
        Ok(SaveError {
            code: self.code.copy()?,
            message: self.message.copy()?,
        })
    }
}

impl SaveResult {
    /// An equal result.
    pub fn copy(&self) -> Result<SaveResult, NoMemory>
        ensures { IfOk result (λ c. c ≡ self.now) }
    {
        Ok(match self {
            SaveResult::Saved(id) => SaveResult::Saved(*id),
            SaveResult::Failed(error) => SaveResult::Failed(error.copy()?),
        })
    }
}

impl Work {
    /// Equal work.
    pub fn copy(&self) -> Result<Work, NoMemory>
        ensures { IfOk result (λ c. c ≡ self.now) }
    {
        Ok(match self {
            Work::Apex(n) => Work::Apex(*n),
            Work::Save {
                op,
                object,
                all_or_none,
                rows,
            } => Work::Save {
                op: *op,
                object: *object,
                all_or_none: *all_or_none,
                rows: copy_list(rows)?,
            },
            Work::Refused(fault) => Work::Refused(fault.copy()?),
        })
    }
}

impl Request {
    /// An equal request.
    pub fn copy(&self) -> Result<Request, NoMemory>
        ensures { IfOk result (λ c. c ≡ self.entry.now) }
    {
        Ok(Request {
            user: self.user,
            work: self.work.copy()?,
            now: self.now,
        })
    }
}

impl Context {
    /// An equal context.
    pub fn copy(&self) -> Result<Context, NoMemory>
        ensures { IfOk result (λ c. c ≡ self.now) }
    {
        Ok(Context {
            op: self.op,
            before: self.before,
            news: copy_list(&self.news)?,
            olds: copy_list(&self.olds)?,
        })
    }
}

impl Copied for SaveRow {
    fn copied(&self) -> Result<SaveRow, NoMemory> {
        self.copy()
    }
}
