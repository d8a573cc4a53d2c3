// The places of fields in their instances.

ghost use Rattle.std.specs.Prelude.{◌≡◌, ℕ, length, slice_get, IfOk};
ghost use Rattle.apex_meaning.specs.Classes as classes;
ghost use Rattle.stack_compiler.specs.Offsets.{from, offset, or_zero};

use crate::chains::{chain_of, width};
use crate::emitted::sum;
use apex_list::Items;
use apex_num::NoMemory;
use std::alloc::Global;
use typed_program::Program;

/// A program, and where the places of the own fields of each class begin in an instance.
#[derive(Drop)]
pub struct Layout<'a> {
    pub program: &'a Program,
    offsets: Items<usize>,
    ghost placed: { (c : ℕ) → or_zero (slice_get offsets c) ≡ offset program.now c },
}

fn offset_of(alloc: Global, program: &Program, class: usize) -> Result<usize, NoMemory>
    ensures { IfOk result (λ n. n ≡ offset program.now class) }
{
    let chain = chain_of(alloc, program, class)?;
    match chain.as_slice() {
        [] => Ok(0),
        [_, ancestors @ ..] => width(program, ancestors),
    }
}

fn offsets_of(alloc: Global, program: &Program) -> Result<Items<usize>, NoMemory>
    ensures { IfOk result (λ all. all ≡ from (offset program.now) 0 (length program.now.classes)) }
{
    let mut all = Items::new(alloc);
    for class in 0..program.classes.len() {
        all.push(offset_of(alloc, program, class)?)?;
    }
    Ok(all)
}

impl<'a> Layout<'a> {
    /// Of a program, each chain of whose classes is walked once.
    #[tactic(auto, using(crate::proofs::Offsets::placed))]
    pub fn of(alloc: Global, program: &'a Program) -> Result<Layout<'a>, NoMemory>
        ensures { IfOk result (λ layout. layout.program.now ≡ program.now) }
    {
        let offsets = offsets_of(alloc, program)?;
        Ok(Layout { program, offsets })
    }

    fn offset(&self, class: usize) -> usize
        ensures { result ≡ offset self.now.program.now class }
    {
        match self.offsets.get(class) {
            Some(offset) => *offset,
            None => 0,
        }
    }

    /// The place in an instance of a field of a class.
    pub fn field_place(&self, class: usize, field: usize) -> Result<usize, NoMemory>
        ensures { IfOk result (λ n. n ≡ classes.field_place self.now.program.now class field) }
    {
        sum(self.offset(class), field)
    }
}
