// Rows, and what queries find.

ghost use Rattle.std.specs.Prelude.{◌≡◌, IfOk};

use apex_list::Items;
use apex_num::{Cell, Copied, Id, NoMemory, copy_list, copy_values};

/// A row of an object: one cell for each of its fields.
#[derive(Drop)]
pub struct Row {
    /// The number of its object.
    pub object: usize,
    /// Its Id, which stands in cell 0 too.
    pub id: Id,
    pub cells: Items<Cell>,
}

/// A child row that a subquery found, with the cells of the selected paths of more than one name.
#[derive(Drop)]
pub struct Child {
    pub row: Row,
    pub paths: Items<Cell>,
}

/// A row that a query found, with the cells of the selected paths of more than one name and one list for each
/// subquery, both in the order of the text.
#[derive(Drop)]
pub struct Found {
    pub row: Row,
    pub paths: Items<Cell>,
    pub children: Items<Items<Child>>,
}

/// What a transaction leaves: rows that are new or changed, and the Ids of those that are gone.
#[derive(Drop)]
pub struct Writes {
    pub puts: Items<Row>,
    pub drops: Items<Id>,
}

impl Row {
    /// An equal row.
    pub fn copy(&self) -> Result<Row, NoMemory>
        ensures { IfOk result (λ c. c ≡ self.now) }
    {
        Ok(Row {
            object: self.object,
            id: self.id,
            cells: copy_list(&self.cells)?,
        })
    }
}

impl Child {
    /// An equal child.
    pub fn copy(&self) -> Result<Child, NoMemory>
        ensures { IfOk result (λ c. c ≡ self.now) }
    {
        Ok(Child {
            row: self.row.copy()?,
            paths: copy_list(&self.paths)?,
        })
    }
}

impl Found {
    /// An equal find.
    pub fn copy(&self) -> Result<Found, NoMemory>
        ensures { IfOk result (λ c. c ≡ self.now) }
    {
        Ok(Found {
            row: self.row.copy()?,
            paths: copy_list(&self.paths)?,
            children: copy_list(&self.children)?,
        })
    }
}

impl Writes {
    /// Equal writes.
    pub fn copy(&self) -> Result<Writes, NoMemory>
        ensures { IfOk result (λ c. c ≡ self.now) }
    {
        Ok(Writes {
            puts: copy_list(&self.puts)?,
            drops: copy_values(&self.drops)?,
        })
    }
}

impl Copied for Child {
    fn copied(&self) -> Result<Child, NoMemory> {
        self.copy()
    }
}

impl Copied for Row {
    fn copied(&self) -> Result<Row, NoMemory> {
        self.copy()
    }
}
