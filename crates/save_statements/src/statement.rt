// The records of a statement, and what comes of them.

use crate::Act;
use apex_list::Items;
use apex_num::Id;
use apex_requests::SaveRow;
use platform_errors::RecordError;

/// A record with its place in the list of its statement.
#[derive(Drop)]
pub struct Placed {
    pub place: usize,
    pub row: SaveRow,
}

/// What comes of a record.
#[derive(Drop)]
pub enum RecordOutcome {
    /// It is saved, under this Id.
    Done(Id),
    Failed(RecordError),
}

/// What came of the record at a place.
#[derive(Drop)]
pub struct Told {
    pub place: usize,
    pub outcome: RecordOutcome,
}

/// What is done with at most so many records.
#[derive(Drop)]
pub struct Chunk {
    pub act: Act,
    pub rows: Items<Placed>,
}
