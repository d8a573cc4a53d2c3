// The places of names in a list.

ghost use Rattle.std.specs.Prelude.{◌≡◌, ℕ, List, IfOk, OnOk, bytes_eq};
ghost use Rattle.indexmap.specs.IndexMap.{get};
ghost use Rattle.schema_names.specs.Names.{place_of, or_at};

use apex_num::NoMemory;
use apex_text::Name;
use indexmap::IndexMap;
use std::alloc::{AllocError, Global};

/// Names, each found by the place where it stands first. Places count from 0.
#[derive(Drop)]
pub struct Places {
    /// The names in their order; one may stand twice.
    pub names: Vec<Name>,
    map: IndexMap<Name, usize>,
    ghost found: { (n : List ℕ) → get bytes_eq map n ≡ place_of names.items n },
}

impl Places {
    /// The places of these names. Want of memory is the only error.
    pub fn of(alloc: Global, names: Vec<Name>) -> Result<Places, NoMemory>
        ensures { IfOk result (λ p. p.names.items ≡ names.items) }
    {
        let map = map_of(alloc, &names)?;
        Ok(Places { names, map })
    }

    /// The place where a name stands first, found by one look into a hash table.
    pub fn place(&self, name: &Name) -> Option<usize>
        ensures { result ≡ place_of self.now.names.items name.now }
    {
        self.map.get(name).copied()
    }
}

fn map_of(alloc: Global, names: &[Name]) -> Result<IndexMap<Name, usize>, NoMemory>
    ensures { IfOk result (λ m. (n : List ℕ) → get bytes_eq m n ≡ place_of names.now n) }
{
    let mut map = IndexMap::new(alloc);
    for i in 0..names.len() {
        note(&mut map, &names[i], i)?;
    }
    Ok(map)
}

/// Notes what a name leads to; one that is there already keeps what it leads to. Want of memory is the only error.
pub fn note(map: &mut IndexMap<Name, usize>, name: &Name, at: usize) -> Result<(), NoMemory>
    ensures { OnOk result ((n : List ℕ) → get bytes_eq map.new n ≡ or_at (get bytes_eq map.old n) (bytes_eq name.now n) at) }
{
    if map.get(name).is_none() {
        map.insert(name.copy()?, at).map_err(AllocError::from)?;
    }
    Ok(())
}
