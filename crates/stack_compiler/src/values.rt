// The instructions of constants and operators, and those behind the parts of variables.

ghost use Rattle.std.specs.Prelude.{◌≡◌, [], ◌∷◌, ◌++◌, IfOk, OnOk};
ghost use Rattle.request_states.specs.Values.{is_cell};
ghost use Rattle.stack_code.specs.Code as spec;
ghost use Rattle.stack_compiler.specs.Codes as codes;

use crate::constants::cell_of;
use crate::emitted::{add, put};
use crate::layout::Layout;
use apex_num::NoMemory;
use stack_code::{Instr, Slot};
use std::alloc::Global;
use typed_program::{Assignment, Constant, Number, StepKind, TypedPlace};

/// The instruction of a constant.
pub fn emit_constant(
    code: &mut Vec<Instr>,
    alloc: Global,
    constant: &Constant,
) -> Result<(), NoMemory>
    ensures { OnOk result (code.new.items ≡ code.old.items ++ spec.constant_code (is_cell constant.now) constant.now) }
{
    match cell_of(alloc, constant)? {
        Some(cell) => put(code, Instr::Push(cell)),
        None => put(code, Instr::Unbuilt),
    }
}

/// The static of a class.
pub fn put_static(code: &mut Vec<Instr>, class: usize, place: usize) -> Result<(), NoMemory>
    ensures { OnOk result (code.new.items ≡ code.old.items ++ Instr.Prepare class ∷ Instr.Get (Slot.Static class place) ∷ []) }
{
    put(code, Instr::Prepare(class))?;
    put(code, Instr::Get(Slot::Static(class, place)))
}

/// A right operand that is evaluated only where the left one doesn't decide.
pub fn put_test(code: &mut Vec<Instr>, jump: Instr, value: Vec<Instr>) -> Result<(), NoMemory>
    ensures { OnOk result (code.new.items ≡ code.old.items ++ jump ∷ (value.items ++ Instr.Truth ∷ [])) }
{
    put(code, jump)?;
    add(code, value)?;
    put(code, Instr::Truth)
}

fn slot_of(layout: &Layout, place: &TypedPlace) -> Result<Slot, NoMemory>
    ensures { IfOk result (λ slot. slot ≡ (codes.place_code layout.now.program.now place.now).slot) }
{
    match place {
        TypedPlace::Local(slot) => Ok(Slot::Local(*slot)),
        TypedPlace::Static(class, place) => Ok(Slot::Static(*class, *place)),
        TypedPlace::Field(_, class, field) => {
            Ok(Slot::Field(layout.field_place(*class, *field)?))
        }
        TypedPlace::Cell(_, _, field, goes_on) => Ok(Slot::Cell(*field, *goes_on)),
        TypedPlace::Index(_, _) => Ok(Slot::Item),
    }
}

// What makes a variable ready before it is read or written.
fn put_ready(code: &mut Vec<Instr>, layout: &Layout, place: &TypedPlace) -> Result<(), NoMemory>
    ensures { OnOk result (code.new.items ≡ code.old.items ++ (codes.place_code layout.now.program.now place.now).ready) }
{
    match place {
        TypedPlace::Static(class, _) => put(code, Instr::Prepare(*class)),
        TypedPlace::Local(_)
        | TypedPlace::Field(_, _, _)
        | TypedPlace::Cell(_, _, _, _)
        | TypedPlace::Index(_, _) => Ok(()),
    }
}

/// The store of a variable whose parts and new value are there.
pub fn emit_store(
    code: &mut Vec<Instr>,
    layout: &Layout,
    place: &TypedPlace,
) -> Result<(), NoMemory>
    ensures { OnOk result (code.new.items ≡ code.old.items ++ ((codes.place_code layout.now.program.now place.now).ready ++ Instr.Set (codes.place_code layout.now.program.now place.now).slot ∷ [])) }
{
    put_ready(code, layout, place)?;
    put(code, Instr::Set(slot_of(layout, place)?))
}

/// The value of a variable whose parts are there.
pub fn emit_fetch(
    code: &mut Vec<Instr>,
    layout: &Layout,
    place: &TypedPlace,
) -> Result<(), NoMemory>
    ensures { OnOk result (code.new.items ≡ code.old.items ++ ((codes.place_code layout.now.program.now place.now).ready ++ Instr.Fetch (codes.place_code layout.now.program.now place.now).slot ∷ [])) }
{
    put_ready(code, layout, place)?;
    put(code, Instr::Fetch(slot_of(layout, place)?))
}

/// What stands behind both values of an assignment with an operator.
pub fn emit_change(
    code: &mut Vec<Instr>,
    layout: &Layout,
    how: Assignment,
    place: &TypedPlace,
) -> Result<(), NoMemory>
    ensures { OnOk result (code.new.items ≡ code.old.items ++ Instr.Calc how.left how.op how.right ∷ Instr.Convert how.back ∷ Instr.Set (codes.place_code layout.now.program.now place.now).slot ∷ []) }
{
    put(code, Instr::Calc(how.left, how.op, how.right))?;
    put(code, Instr::Convert(how.back))?;
    put(code, Instr::Set(slot_of(layout, place)?))
}

/// `++` and `--` of a variable whose parts are there.
pub fn emit_step(
    code: &mut Vec<Instr>,
    layout: &Layout,
    kind: StepKind,
    number: Number,
    place: &TypedPlace,
) -> Result<(), NoMemory>
    ensures { OnOk result (code.new.items ≡ code.old.items ++ ((codes.place_code layout.now.program.now place.now).ready ++ Instr.Change kind number (codes.place_code layout.now.program.now place.now).slot ∷ [])) }
{
    put_ready(code, layout, place)?;
    put(code, Instr::Change(kind, number, slot_of(layout, place)?))
}
