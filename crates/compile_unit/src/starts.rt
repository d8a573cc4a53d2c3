// What runs where a constructor isn't written.

ghost use Rattle.std.specs.Prelude.{◌≡◌, [], ◌∷◌, ◌++◌, None, Some, IfOk};
ghost use Rattle.apex_meaning.specs.Classes as spec;
ghost use Rattle.stack_code.specs.Code.{starts_code};

use apex_list::Items;
use apex_num::NoMemory;
use stack_code::{MethodAt, Starts};
use stack_compiler::implied_of;
use std::alloc::Global;
use typed_program::{Constructor, ImpliedCall, Program};

fn nothing(alloc: Global) -> Starts
    ensures { result ≡ record { declared = None; fields = [] } }
{
    Starts {
        declared: None,
        fields: Items::new(alloc),
    }
}

fn declared(alloc: Global, class: usize, place: usize) -> Starts
    ensures { result ≡ record { declared = Some (record { class = class; place = place }); fields = [] } }
{
    Starts {
        declared: Some(MethodAt { class, place }),
        fields: Items::new(alloc),
    }
}

fn with_fields(starts: Starts, class: usize) -> Result<Starts, NoMemory>
    ensures { IfOk result (λ s. s ≡ record { declared = starts.declared; fields = starts.fields ++ class ∷ [] }) }
{
    let Starts {
        declared,
        mut fields,
    } = starts;
    fields.push(class)?;
    Ok(Starts { declared, fields })
}

#[cycle(starts)]
fn starts_within(
    alloc: Global,
    program: &Program,
    most: usize,
    call: Option<ImpliedCall>,
) -> Result<Starts, NoMemory>
    ensures { IfOk result (λ s. s ≡ starts_code program.now (spec.starts_within most program.now call)) }
{
    if most == 0 {
        return Ok(nothing(alloc));
    }
    match call {
        None => Ok(nothing(alloc)),
        Some(call) => starts_by(alloc, program, most - 1, call),
    }
}

#[cycle(starts)]
fn starts_by(
    alloc: Global,
    program: &Program,
    most: usize,
    call: ImpliedCall,
) -> Result<Starts, NoMemory>
    ensures { IfOk result (λ s. s ≡ starts_code program.now (spec.starts_by call.constructor call.class (spec.starts_within most program.now (spec.implied_of (spec.class_at program.now call.class))))) }
{
    match call.constructor {
        Constructor::Declared(place) => Ok(declared(alloc, call.class, place)),
        Constructor::Implied => starts_behind(alloc, program, most, call.class),
        Constructor::Exception => starts_behind(alloc, program, most, call.class),
    }
}

// Its parent's, and its own fields behind them.
#[cycle(starts)]
fn starts_behind(
    alloc: Global,
    program: &Program,
    most: usize,
    class: usize,
) -> Result<Starts, NoMemory>
    ensures { IfOk result (λ s. s ≡ starts_code program.now (spec.and_fields (spec.starts_within most program.now (spec.implied_of (spec.class_at program.now class))) class)) }
{
    let parents = starts_within(alloc, program, most, implied_of(program, class))?;
    with_fields(parents, class)
}

/// What a call of a constructor that isn't written comes to, and behind it the fields of a class.
pub fn starts_and(
    alloc: Global,
    program: &Program,
    call: Option<ImpliedCall>,
    class: usize,
) -> Result<Starts, NoMemory>
    ensures { IfOk result (λ s. s ≡ starts_code program.now (spec.and_fields (spec.starts program.now call) class)) }
{
    with_fields(starts_within(alloc, program, 33, call)?, class)
}

/// The fields of a class alone.
pub fn only_fields(alloc: Global, class: usize) -> Result<Starts, NoMemory>
    ensures { IfOk result (λ s. s ≡ record { declared = None; fields = class ∷ [] }) }
{
    with_fields(nothing(alloc), class)
}

/// What constructing an instance of a class that declares no constructor runs.
pub fn own_starts(alloc: Global, program: &Program, class: usize) -> Result<Starts, NoMemory>
    ensures { IfOk result (λ s. s ≡ starts_code program.now (spec.own_starts program.now class)) }
{
    starts_and(alloc, program, implied_of(program, class), class)
}
