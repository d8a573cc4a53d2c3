// Copies of values that hold a text or a list.

ghost use Rattle.std.specs.Prelude.{◌≡◌, IfOk};

use crate::cell::Cell;
use crate::text::{NoMemory, Text};
use apex_list::Items;

/// What an equal value can be made of, where there is memory.
pub trait Copied: Sized + Drop {
    /// An equal value. Want of memory is the only error.
    fn copied(&self) -> Result<Self, NoMemory>
        ensures { IfOk result (λ c. c ≡ self.now) };
}

/// An equal list. Want of memory is the only error.
pub fn copy_list<T: Copied>(list: &Items<T>) -> Result<Items<T>, NoMemory>
    ensures { IfOk result (λ v. v ≡ list.now) }
{
    let mut done = Items::new(list.allocator());
    for item in list.as_slice() {
        done.push(item.copied()?)?;
    }
    Ok(done)
}

/// An equal list of values that need no memory. Want of memory is the only error.
pub fn copy_values<T: Copy + Drop>(list: &Items<T>) -> Result<Items<T>, NoMemory>
    ensures { IfOk result (λ v. v ≡ list.now) }
{
    Items::from_slice(list.allocator(), list.as_slice())
}

impl Copied for Text {
    fn copied(&self) -> Result<Text, NoMemory> {
        self.copy()
    }
}

impl Copied for Cell {
    fn copied(&self) -> Result<Cell, NoMemory> {
        self.copy()
    }
}

impl Copied for Option<Cell> {
    fn copied(&self) -> Result<Option<Cell>, NoMemory> {
        Ok(match self {
            Some(cell) => Some(cell.copy()?),
            None => None,
        })
    }
}

impl<T: Copied> Copied for Items<T> {
    fn copied(&self) -> Result<Items<T>, NoMemory> {
        copy_list(self)
    }
}
