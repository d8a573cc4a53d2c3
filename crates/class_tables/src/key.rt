// Methods by their kinds, names and numbers of parameters.

ghost use Rattle.std.specs.Prelude.{◌≡◌, IfOk, OnOk};
ghost use Rattle.indexmap.specs.IndexMap.{get};
ghost use Rattle.schema_names.specs.Names.{or_at};
ghost use Rattle.class_tables.specs.declared.key.MethodKey.{MethodKey as TheKey};
ghost use Rattle.class_tables.specs.Keys.{key_eq, place_of_key};

use apex_num::NoMemory;
use apex_text::Name;
use indexmap::IndexMap;
use std::alloc::{AllocError, Global};

/// What a method is found by: whether it is a static, its name, and the number of its parameters. A constructor has no
/// name.
#[derive(PartialEq, Eq, Hash, Drop)]
pub struct MethodKey {
    pub is_static: bool,
    pub name: Name,
    pub count: usize,
}

impl MethodKey {
    /// An equal key.
    pub fn copy(&self) -> Result<MethodKey, NoMemory>
        ensures { IfOk result (λ k. k ≡ self.now) }
    {
        Ok(MethodKey {
            is_static: self.is_static,
            name: self.name.copy()?,
            count: self.count,
        })
    }
}

/// Methods, each found by the place where it stands first. Places count from 0.
#[derive(Drop)]
pub struct KeyPlaces {
    /// The methods in their order; one may stand twice.
    pub keys: Vec<MethodKey>,
    map: IndexMap<MethodKey, usize>,
    ghost found: { (k : TheKey) → get key_eq map k ≡ place_of_key keys.items k },
}

// A key that may be there already keeps its place.
fn add(map: &mut IndexMap<MethodKey, usize>, key: &MethodKey, at: usize) -> Result<(), NoMemory>
    ensures { OnOk result ((k : TheKey) → get key_eq map.new k ≡ or_at (get key_eq map.old k) (key_eq key.now k) at) }
{
    if map.get(key).is_none() {
        map.insert(key.copy()?, at).map_err(AllocError::from)?;
    }
    Ok(())
}

fn map_of(alloc: Global, keys: &[MethodKey]) -> Result<IndexMap<MethodKey, usize>, NoMemory>
    ensures { IfOk result (λ m. (k : TheKey) → get key_eq m k ≡ place_of_key keys.now k) }
{
    let mut map = IndexMap::new(alloc);
    for i in 0..keys.len() {
        add(&mut map, &keys[i], i)?;
    }
    Ok(map)
}

impl KeyPlaces {
    /// The places of these methods.
    pub fn of(alloc: Global, keys: Vec<MethodKey>) -> Result<KeyPlaces, NoMemory>
        ensures { IfOk result (λ p. p.keys.items ≡ keys.items) }
    {
        let map = map_of(alloc, &keys)?;
        Ok(KeyPlaces { keys, map })
    }

    /// The place where a method stands first, found by one look into a hash table.
    pub fn place(&self, key: &MethodKey) -> Option<usize>
        ensures { result ≡ place_of_key self.now.keys.items key.now }
    {
        self.map.get(key).copied()
    }
}
