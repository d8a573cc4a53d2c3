// What the records of a query know.

ghost use Rattle.std.specs.Prelude.{◌≡◌, IfOk};

use apex_list::{Boxed, Items};
use apex_num::{Copied, NoMemory, copy_list, copy_values};
use apex_rows::Query;

/// A cell of a record over a row: its field, and its place among the values of the row's paths.
#[derive(Clone, Copy, PartialEq, Eq, Drop)]
pub struct Given {
    pub field: usize,
    pub place: usize,
}

/// What a record leads to: the field that is followed, the place of the Id of the row there among the values of the row's paths,
/// the cells that its record knows, and what that leads to.
#[derive(Drop)]
pub struct Over {
    pub field: usize,
    pub id: usize,
    pub cells: Items<Given>,
    pub over: Items<Over>,
}

/// What the record of a row knows: the fields that are selected by one name, and what it leads to.
#[derive(Drop)]
pub struct RowShape {
    pub own: Items<usize>,
    pub over: Items<Over>,
}

/// The records of a subquery: their object, and their field that names the record over them.
#[derive(Drop)]
pub struct ChildShape {
    pub object: usize,
    pub lookup: usize,
    pub row: RowShape,
}

/// The records of a query, with those of its subqueries in the order of the text.
#[derive(Drop)]
pub struct FoundShape {
    pub row: RowShape,
    pub children: Items<ChildShape>,
}

/// A query that finds the Ids of the rows over its rows too, before the paths that it selects, and what its records know.
#[derive(Drop)]
pub struct Queried {
    pub query: Boxed<Query>,
    pub shape: FoundShape,
}

impl Over {
    /// An equal relation.
    #[cycle(copy_over)]
    pub fn copy(&self) -> Result<Over, NoMemory>
        ensures { IfOk result (λ c. c ≡ self.now) }
    {
        Ok(Over {
            field: self.field,
            id: self.id,
            cells: copy_values(&self.cells)?,
            over: copy_overs(&self.over)?,
        })
    }
}

#[cycle(copy_over)]
fn copy_overs(list: &Items<Over>) -> Result<Items<Over>, NoMemory>
    ensures { IfOk result (λ v. v ≡ list.now) }
{
    let mut done = Items::new(list.allocator());
    for over in list.as_slice() {
        done.push(over.copy()?)?;
    }
    Ok(done)
}

impl RowShape {
    /// An equal shape.
    pub fn copy(&self) -> Result<RowShape, NoMemory>
        ensures { IfOk result (λ c. c ≡ self.now) }
    {
        Ok(RowShape {
            own: copy_values(&self.own)?,
            over: copy_overs(&self.over)?,
        })
    }
}

impl ChildShape {
    /// An equal shape.
    pub fn copy(&self) -> Result<ChildShape, NoMemory>
        ensures { IfOk result (λ c. c ≡ self.now) }
    {
        Ok(ChildShape {
            object: self.object,
            lookup: self.lookup,
            row: self.row.copy()?,
        })
    }
}

impl Copied for ChildShape {
    fn copied(&self) -> Result<ChildShape, NoMemory> {
        self.copy()
    }
}

impl FoundShape {
    /// An equal shape.
    pub fn copy(&self) -> Result<FoundShape, NoMemory>
        ensures { IfOk result (λ c. c ≡ self.now) }
    {
        Ok(FoundShape {
            row: self.row.copy()?,
            children: copy_list(&self.children)?,
        })
    }
}

impl Queried {
    /// An equal query, with what its records know.
    pub fn copy(&self) -> Result<Queried, NoMemory>
        ensures { IfOk result (λ c. c ≡ self.now) }
    {
        let query = Boxed::new(self.query.allocator(), self.query.get().copy()?)?;
        Ok(Queried {
            query,
            shape: self.shape.copy()?,
        })
    }
}
