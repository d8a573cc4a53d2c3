// The records of a save on their way.

use apex_list::{Boxed, Items};
use apex_num::Id;
use apex_rows::Row;
use apex_schema::Mode;
use platform_errors::RecordError;

/// What is done with the records of a chunk; an upsert has chunks of the first two.
#[derive(Clone, Copy, PartialEq, Eq, Drop)]
pub enum Act {
    Inserting,
    Updating,
    Deleting,
}

/// For whom records are saved.
#[derive(Clone, Copy, PartialEq, Eq, Drop)]
pub enum Manner {
    /// For code in a mode.
    ByCode(Mode),
    /// For the roll-ups of rows under the records.
    ByRollUps,
}

/// A row on its way.
#[derive(Drop)]
pub struct Pending {
    /// What it would be, or in a delete the row that goes.
    pub row: Row,
    /// In an update, what it was.
    pub old: Option<Row>,
    /// What it was when its references were looked up last.
    pub seen: Option<Row>,
    /// In a delete, the Ids of all that goes, its own among them.
    pub under: Items<Id>,
}

/// A record goes on, or has its first error.
#[derive(Drop)]
pub enum Record {
    Going(Boxed<Pending>),
    Wrong(RecordError),
}

/// A field of an object, and the object whose rows it names.
#[derive(Clone, Copy, PartialEq, Eq, Drop)]
pub struct Naming {
    pub object: usize,
    pub field: usize,
    pub to: usize,
}
