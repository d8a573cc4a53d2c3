// The rows of a seed so far.

ghost use Rattle.std.specs.Prelude.{◌≡◌, ◌++◌, ◌∷◌, [], map, ℕ, List, IfOk, bytes_eq};
ghost use Rattle.indexmap.specs.IndexSet.{contains};
ghost use Rattle.row_meaning.specs.Stores.{has_id};
ghost use Rattle.seed_rows.specs.Views.{ids_of};

use apex_num::{Id, NoMemory};
use apex_rows::Row;
use indexmap::IndexSet;
use std::alloc::{AllocError, Global};

/// Rows, and their Ids.
#[derive(Drop)]
pub struct Made {
    pub rows: Vec<Row>,
    ids: IndexSet<[u8; 15]>,
    ghost ids_are: { (id : List ℕ) → contains bytes_eq ids id ≡ has_id (ids_of rows.items) id },
}

impl Made {
    pub fn new(alloc: Global) -> Made
        ensures { result.rows.items ≡ [] }
    {
        Made {
            rows: Vec::new(alloc),
            ids: IndexSet::new(alloc),
        }
    }

    /// With one row more.
    pub fn with(self, row: Row) -> Result<Made, NoMemory>
        ensures { IfOk result (λ made. made.rows.items ≡ self.rows.items ++ row ∷ []) }
    {
        let Made { mut rows, mut ids } = self;
        ids.insert(row.id.bytes()).map_err(AllocError::from)?;
        rows.push(row)?;
        Ok(Made { rows, ids })
    }

    /// Whether one of the rows has this Id.
    pub fn has(&self, id: &Id) -> bool
        ensures { result ≡ has_id (ids_of self.now.rows.items) id.now }
    {
        self.ids.contains(&id.bytes())
    }
}
