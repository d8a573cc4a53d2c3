// Names that are taken.

ghost use Rattle.std.specs.Prelude.{◌≡◌, ◌++◌, ◌∷◌, [], ℕ, List, IfOk, bytes_eq};
ghost use Rattle.indexmap.specs.IndexSet.{contains};
ghost use Rattle.bundle_read.specs.Readings.{has};

use apex_num::{NoMemory, Text};
use indexmap::IndexSet;
use std::alloc::{AllocError, Global};

/// Names in the order in which they came.
#[derive(Drop)]
pub struct Taken {
    pub list: Vec<Text>,
    set: IndexSet<Text>,
    ghost agrees: { (n : List ℕ) → contains bytes_eq set n ≡ has list.items n },
}

impl Taken {
    pub fn new(alloc: Global) -> Taken
        ensures { result.list.items ≡ [] }
    {
        Taken {
            list: Vec::new(alloc),
            set: IndexSet::new(alloc),
        }
    }

    // With this name, which is taken over.
    fn put(self, name: Text) -> Result<Taken, NoMemory>
        ensures { IfOk result (λ taken. taken.list.items ≡ self.list.items ++ name ∷ []) }
    {
        let Taken { mut list, mut set } = self;
        list.push(name.copy()?)?;
        set.insert(name).map_err(AllocError::from)?;
        Ok(Taken { list, set })
    }

    /// With one name more.
    pub fn with(self, name: &Text) -> Result<Taken, NoMemory>
        ensures { IfOk result (λ taken. taken.list.items ≡ self.list.items ++ name.now ∷ []) }
    {
        let name = name.copy()?;
        self.put(name)
    }

    pub fn has(&self, name: &Text) -> bool
        ensures { result ≡ has self.now.list.items name.now }
    {
        self.set.contains(name)
    }
}
