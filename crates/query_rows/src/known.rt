// Rows that are known, by their Ids.

ghost use Rattle.std.specs.Prelude.{◌≡◌, [], OnOk, OnErr};
ghost use Rattle.std.specs.Option.{option_copied};
ghost use Rattle.row_meaning.specs.Stores as spec;

use apex_num::{Id, NoMemory};
use apex_rows::Row;
use std::alloc::{AllocError, Global};
use std::collections::BTreeMap;
use std::marker::Model;

/// Rows that are known, in rising order of their Ids.
#[derive(Drop)]
pub struct Known {
    rows: BTreeMap<Id, Row>,
}

impl Model for Known {
    ghost use Rattle.std.specs.Prelude.{List};
    ghost use Rattle.std.specs.Map.{values_of};
    ghost use Rattle.apex_rows.specs.declared.row.Row.{Row};
    ghost use Rattle.query_rows.specs.Known.{AllFit};

    ghost Value = { List Row };

    ghost view = { λ k. values_of k.rows.entries };

    ghost invariant = { λ k. AllFit k.rows.entries };
}

impl Known {
    /// No rows; takes no memory.
    pub fn new(alloc: Global) -> Known
        ensures { result ≡ [] }
    {
        Known {
            rows: BTreeMap::new(alloc),
        }
    }

    /// The row under an Id.
    pub fn find(&self, id: &Id) -> Option<&Row>
        ensures { option_copied result ≡ spec.find self.now id.now }
    {
        self.rows.get(id)
    }

    /// With a row, in place of one under its Id. Want of memory leaves all as it was.
    pub fn put(&mut self, row: Row) -> Result<(), NoMemory>
        ensures ok { OnOk result (self.new ≡ spec.put row self.old) }
        ensures err { OnErr result (self.new ≡ self.old) }
    {
        let id = row.id;
        match self.rows.insert(id, row) {
            Ok(_) => Ok(()),
            Err(_) => Err(AllocError),
        }
    }

    /// With rows, one after the other.
    pub fn put_all(&mut self, rows: Vec<Row>) -> Result<(), NoMemory>
        ensures { OnOk result (self.new ≡ spec.put_all rows.items self.old) }
    {
        for row in rows {
            self.put(row)?;
        }
        Ok(())
    }
}
