// What an attempt asked.

ghost use Rattle.std.specs.Prelude.{◌≡◌, ◌++◌, ◌∷◌, [], OnOk, OnErr};

use apex_list::Items;
use apex_num::NoMemory;
use apex_rows::{Answer, Question};
use std::alloc::Global;

/// What an attempt of a request asked, and what it was answered, place by place.
#[derive(Drop)]
pub struct Log {
    pub asked: Items<Question>,
    pub answers: Items<Answer>,
}

impl Log {
    /// Nothing was asked; takes no memory.
    pub fn new(alloc: Global) -> Log
        ensures asked { result.asked ≡ [] }
        ensures answers { result.answers ≡ [] }
    {
        Log {
            asked: Items::new(alloc),
            answers: Items::new(alloc),
        }
    }
}
