// Where a statement that saves stands.

use crate::{Act, Chunk, Entry, Manner, Placed, Record, RecordOutcome, Trigger};
use apex_list::{Items, Stack};
use apex_requests::{Op, SaveRow};
use apex_rows::{Answer, Question};

/// What a phase comes to on the answers that it had so far.
#[derive(Drop)]
pub enum Replayed {
    /// Its records.
    Came(Items<Record>),
    /// It asks one question more.
    Wants(Question),
}

/// The phases behind the loading of a chunk, in their order; the records that enter one cost a step each.
#[derive(Clone, Copy, PartialEq, Eq, Drop)]
pub enum Phase {
    /// References are looked up.
    Refer,
    /// The triggers before the write.
    Before,
    /// Records are looked at, and in a delete what goes with them.
    Validate,
    /// The rows are written, and new ones have their Ids then.
    Write,
    /// The triggers behind the write.
    After,
    /// Roll-ups, of which there are none yet.
    RollUp,
}

/// What comes next.
#[derive(Drop)]
pub enum Stage {
    /// The statement of these records is charged.
    Charge(Items<SaveRow>),
    /// The records are charged, and looked at for one that stands twice.
    Count(Items<SaveRow>),
    /// The next chunk comes, or the statement ends.
    Next,
    /// An attempt at the chunk begins, where it has records.
    Begin,
    /// The records of the chunk are loaded, with these answers so far.
    Load(Items<Answer>),
    /// The records that go on enter a phase.
    Enter(Phase, Items<Record>),
    /// References are looked up, with these answers so far.
    Refer(Items<Record>, Items<Answer>),
    /// The first of the triggers fires, before or behind the write.
    Fire(bool, Stack<Trigger>, Items<Entry>),
    /// Records are looked at, with these answers so far.
    Validate(Items<Record>, Items<Answer>),
    /// The first of the second records is written; the first ones were before.
    Write(Items<Record>, Stack<Record>),
    /// The attempt ends, and where a record is wrong perhaps the statement.
    Settle(Items<Record>),
}

/// A statement on its way.
#[derive(Drop)]
pub struct SaveRun {
    pub op: Op,
    pub by: Manner,
    /// The number of the object.
    pub object: usize,
    /// Whether all records are saved or none.
    pub all: bool,
    /// The chunks that are still to come.
    pub chunks: Stack<Chunk>,
    /// What is done with the records of the chunk.
    pub act: Act,
    /// The records of the chunk.
    pub rows: Items<Placed>,
    /// How many attempts at the chunk may follow.
    pub left: usize,
    /// What came of each record of the statement so far, in the order of its list.
    pub results: Items<Option<RecordOutcome>>,
    pub stage: Stage,
}
