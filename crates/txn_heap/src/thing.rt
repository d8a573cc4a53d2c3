// Values and things.

ghost use Rattle.std.specs.Prelude.{◌≡◌, IfOk};

use crate::entries::Entries;
use crate::keys::Keys;
use apex_list::{Boxed, Items};
use apex_num::{Cell, Copied, NoMemory, Text};
use builtin_table::ExceptionClass;

/// A thing, by the number of things that were made before it in the transaction.
#[derive(Clone, Copy, Debug, PartialEq, Eq, Hash, Drop)]
pub struct Ref {
    pub place: usize,
}

/// What an expression gives and a variable has.
#[derive(Drop)]
pub enum Value {
    /// A primitive value or null.
    Plain(Cell),
    /// A thing of the heap.
    Object(Ref),
}

/// What a relation of a record leads to: the field that is followed, and the record there, or null.
#[derive(Drop)]
pub struct Relation {
    pub field: usize,
    pub value: Value,
}

/// The records under a record that a subquery gave: their object, their field that names the record, and the list of them.
#[derive(Drop)]
pub struct Under {
    pub object: usize,
    pub field: usize,
    pub list: Value,
}

/// What a query gave with a record beside its cells: relations, each once, and records under it.
#[derive(Drop)]
pub struct Selected {
    pub parents: Items<Relation>,
    pub children: Items<Under>,
}

/// A record in memory: its object, for each field the cell that it knows, and what a query gave with it; none where it isn't one
/// that a query gave.
#[derive(Drop)]
pub struct Record {
    pub object: usize,
    pub cells: Items<Option<Cell>>,
    pub selected: Option<Boxed<Selected>>,
}

/// An instance of a declared class. Its fields are those of the farthest ancestor first, a place for each one that a class
/// declares. The message is that of an exception, and null in other classes.
#[derive(Drop)]
pub struct Instance {
    pub class: usize,
    pub message: Cell,
    pub fields: Items<Value>,
}

/// An exception of a built-in class, with its message or null.
#[derive(Drop)]
pub struct Exception {
    pub class: ExceptionClass,
    pub message: Cell,
}

/// What may be done with the record, list or map of a trigger that stands right behind it, and the message of the first error that
/// the trigger added to the record.
#[derive(Drop)]
pub enum Guard {
    /// Nothing: it is another's, or its firing is over.
    Fixed,
    /// An error may be added.
    Watched(Option<Text>),
    /// An error may be added, and its cells may be set but for its Id.
    Open(Option<Text>),
}

/// A thing that a transaction made.
#[derive(Drop)]
pub enum Thing {
    Record(Record),
    Instance(Instance),
    List(Items<Value>),
    Set(Keys),
    Map(Entries),
    Exception(Exception),
    /// What guards the thing behind it.
    Guard(Guard),
}

impl Value {
    /// An equal value. It names the same thing.
    pub fn copy(&self) -> Result<Value, NoMemory>
        ensures { IfOk result (λ v. v ≡ self.now) }
    {
        match self {
            Value::Plain(cell) => Ok(Value::Plain(cell.copy()?)),
            Value::Object(thing) => Ok(Value::Object(*thing)),
        }
    }
}

impl Copied for Value {
    fn copied(&self) -> Result<Value, NoMemory> {
        self.copy()
    }
}
