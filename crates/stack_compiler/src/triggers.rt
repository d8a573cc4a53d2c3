// The variables of triggers.

ghost use Rattle.std.specs.Prelude.{◌≡◌, [], ◌∷◌, ◌++◌, OnOk};
ghost use Rattle.trigger_things.specs.Things as things;

use crate::emitted::put;
use apex_num::NoMemory;
use stack_code::{Instr, Slot};
use typed_program::TriggerVariable;

// Its place in the instance that the code of a trigger runs on.
fn place_of(variable: TriggerVariable) -> usize
    ensures { result ≡ things.place_of variable }
{
    match variable {
        TriggerVariable::New => 0,
        TriggerVariable::Old => 1,
        TriggerVariable::NewMap => 2,
        TriggerVariable::OldMap => 3,
        TriggerVariable::IsInsert => 4,
        TriggerVariable::IsUpdate => 5,
        TriggerVariable::IsDelete => 6,
        TriggerVariable::IsBefore => 7,
        TriggerVariable::IsAfter => 8,
        TriggerVariable::Size => 9,
    }
}

/// The value of a variable of a trigger.
pub fn put_variable(code: &mut Vec<Instr>, variable: TriggerVariable) -> Result<(), NoMemory>
    ensures { OnOk result (code.new.items ≡ code.old.items ++ Instr.This ∷ Instr.Get (Slot.Field (things.place_of variable)) ∷ []) }
{
    put(code, Instr::This)?;
    put(code, Instr::Get(Slot::Field(place_of(variable))))
}
