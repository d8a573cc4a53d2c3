// The methods of all classes by their names and numbers of parameters, and the ones that calls run.

ghost use Rattle.std.specs.Prelude.{◌≡◌, ℕ, map, slice_get, IfOk, OnOk};
ghost use Rattle.indexmap.specs.IndexMap.{get};
ghost use Rattle.stack_code.specs.Images as images;
ghost use Rattle.compile_unit.specs.declared.tables.MethodKey.{MethodKey as TheKey};
ghost use Rattle.compile_unit.specs.Keys as spec;

use apex_list::Items;
use apex_num::NoMemory;
use apex_text::Name;
use indexmap::IndexMap;
use stack_code::{Dispatch, MethodAt};
use stack_compiler::methods_of;
use std::alloc::{AllocError, Global};
use typed_program::{Program, TypedMethod};

/// What a method of instances is found by.
#[derive(PartialEq, Eq, Hash, Drop)]
pub struct MethodKey {
    pub name: Name,
    pub params: usize,
}

/// For each class, its methods of instances by their keys, each with the place where it stands first.
#[derive(Drop)]
pub struct MethodTables<'a> {
    program: &'a Program,
    maps: Vec<IndexMap<MethodKey, usize>>,
    ghost found: { (c : ℕ) (k : TheKey) → spec.place_in (slice_get maps.items c) k ≡ spec.place_among program.now.classes c k },
}

fn key_of(method: &TypedMethod) -> Result<MethodKey, NoMemory>
    ensures { IfOk result (λ key. key ≡ spec.key_of method.now) }
{
    Ok(MethodKey {
        name: method.name.copy()?,
        params: method.params,
    })
}

// A key that is there already keeps its place.
fn note(
    map: &mut IndexMap<MethodKey, usize>,
    method: &TypedMethod,
    place: usize,
) -> Result<(), NoMemory>
    ensures { OnOk result ((k : TheKey) → get spec.key_eq map.new k ≡ spec.kept (get spec.key_eq map.old k) (spec.is_found k method.now) place) }
{
    if method.is_static {
        return Ok(());
    }
    let key = key_of(method)?;
    if map.get(&key).is_none() {
        map.insert(key, place).map_err(AllocError::from)?;
    }
    Ok(())
}

fn map_of(alloc: Global, methods: &[TypedMethod]) -> Result<IndexMap<MethodKey, usize>, NoMemory>
    ensures { IfOk result (λ m. (k : TheKey) → get spec.key_eq m k ≡ spec.place_of k methods.now) }
{
    let mut map = IndexMap::new(alloc);
    for i in 0..methods.len() {
        note(&mut map, &methods[i], i)?;
    }
    Ok(map)
}

fn maps_of(alloc: Global, program: &Program) -> Result<Vec<IndexMap<MethodKey, usize>>, NoMemory>
    ensures { IfOk result (λ maps. (c : ℕ) (k : TheKey) → spec.place_in (slice_get maps.items c) k ≡ spec.place_among program.now.classes c k) }
{
    let mut maps = Vec::new(alloc);
    for class in program.classes.as_slice() {
        maps.push(map_of(alloc, class.methods.as_slice())?)?;
    }
    Ok(maps)
}

impl<'a> MethodTables<'a> {
    /// Of a program, each method of which is noted once.
    pub fn of(alloc: Global, program: &'a Program) -> Result<MethodTables<'a>, NoMemory>
        ensures { IfOk result (λ tables. tables.program.now ≡ program.now) }
    {
        let maps = maps_of(alloc, program)?;
        Ok(MethodTables { program, maps })
    }

    fn place(&self, class: usize, key: &MethodKey) -> Option<usize>
        ensures { result ≡ spec.place_among self.now.program.now.classes class key.now }
    {
        match self.maps.get(class) {
            Some(map) => map.get(key).copied(),
            None => None,
        }
    }

    // The first class that has it.
    fn nearest(&self, key: &MethodKey, chain: &[usize]) -> Option<MethodAt>
        ensures { result ≡ spec.nearest_by self.now.program.now key.now chain.now }
    {
        match chain {
            [] => None,
            [class, rest @ ..] => match self.place(*class, key) {
                Some(place) => Some(MethodAt {
                    class: *class,
                    place,
                }),
                None => self.nearest(key, rest),
            },
        }
    }

    #[tactic(auto, using(crate::proofs::MethodSteps::nearest_same))]
    fn target(&self, method: &TypedMethod, chain: &[usize]) -> Result<Option<MethodAt>, NoMemory>
        ensures { IfOk result (λ target. target ≡ spec.target_in self.now.program.now chain.now method.now) }
    {
        let key = key_of(method)?;
        Ok(self.nearest(&key, chain))
    }

    fn targets(
        &self,
        alloc: Global,
        methods: &[TypedMethod],
        chain: &[usize],
    ) -> Result<Items<Option<MethodAt>>, NoMemory>
        ensures { IfOk result (λ targets. targets ≡ map (spec.target_in self.now.program.now chain.now) methods.now) }
    {
        let mut targets = Items::new(alloc);
        for method in methods {
            targets.push(self.target(method, chain)?)?;
        }
        Ok(targets)
    }

    fn row(&self, alloc: Global, class: usize, chain: &[usize]) -> Result<Dispatch, NoMemory>
        ensures { IfOk result (λ row. row ≡ images.row_for self.now.program.now chain.now class) }
    {
        let targets = self.targets(alloc, methods_of(self.program, class), chain)?;
        Ok(Dispatch { class, targets })
    }

    /// For each of these classes and interfaces, what its methods run in instances whose classes are those of a chain.
    pub fn rows(
        &self,
        alloc: Global,
        fits: &[usize],
        chain: &[usize],
    ) -> Result<Items<Dispatch>, NoMemory>
        ensures { IfOk result (λ rows. rows ≡ map (images.row_for self.now.program.now chain.now) fits.now) }
    {
        let mut rows = Items::new(alloc);
        for class in fits {
            rows.push(self.row(alloc, *class, chain)?)?;
        }
        Ok(rows)
    }
}
