// Jumps around code that stands for itself.

ghost use Rattle.std.specs.Prelude.{◌≡◌, [], ◌∷◌, ◌++◌, ◌+◌, Some, OnOk};
ghost use Rattle.stack_code.specs.Code as spec;

use crate::emitted::{add, put, sum};
use apex_num::NoMemory;
use stack_code::Instr;
use typed_program::Conversion;

/// One of two, by the Boolean that is there.
pub fn put_choice(
    code: &mut Vec<Instr>,
    first: Vec<Instr>,
    second: Vec<Instr>,
) -> Result<(), NoMemory>
    ensures { OnOk result (code.new.items ≡ code.old.items ++ spec.choice_code first.items second.items) }
{
    put(code, Instr::Unless(first.len() + 1))?;
    add(code, first)?;
    put(code, Instr::Jump(second.len()))?;
    add(code, second)
}

// What a loop repeats, so many instructions behind its test.
fn put_turn(
    code: &mut Vec<Instr>,
    test: usize,
    body: Vec<Instr>,
    behind: Vec<Instr>,
) -> Result<(), NoMemory>
    ensures { OnOk result (code.new.items ≡ code.old.items ++ spec.turn_code test body.items behind.items) }
{
    let out = sum(body.len(), behind.len() + 2)?;
    let back = sum(test, sum(body.len(), behind.len() + 3)?)?;
    put(code, Instr::OpenLoop(body.len() + 1, out))?;
    add(code, body)?;
    put(code, Instr::Close)?;
    add(code, behind)?;
    put(code, Instr::Back(back))
}

/// A loop.
pub fn put_loop(
    code: &mut Vec<Instr>,
    condition: Vec<Instr>,
    body: Vec<Instr>,
    behind: Vec<Instr>,
) -> Result<(), NoMemory>
    ensures { OnOk result (code.new.items ≡ code.old.items ++ spec.loop_code condition.items body.items behind.items) }
{
    let test = condition.len() + 1;
    let out = sum(body.len(), behind.len() + 3)?;
    put(code, Instr::Step)?;
    add(code, condition)?;
    put(code, Instr::Unless(out))?;
    put_turn(code, test, body, behind)
}

/// A loop over items, whose list or set is there.
pub fn put_each(
    code: &mut Vec<Instr>,
    slot: usize,
    how: Conversion,
    body: Vec<Instr>,
) -> Result<(), NoMemory>
    ensures { OnOk result (code.new.items ≡ code.old.items ++ spec.each_code slot how body.items) }
{
    let length = body.len();
    put(code, Instr::OpenEach(0, length + 3))?;
    put(code, Instr::Each(slot, how, length + 1))?;
    add(code, body)?;
    put(code, Instr::Back(length + 1))?;
    put(code, Instr::Close)
}

/// What runs at last behind other code.
pub fn put_finally(
    code: &mut Vec<Instr>,
    tried: Vec<Instr>,
    last: Vec<Instr>,
) -> Result<(), NoMemory>
    ensures { OnOk result (code.new.items ≡ code.old.items ++ spec.finally_code (Some last.items) tried.items) }
{
    put(code, Instr::OpenLast(tried.len() + 1))?;
    add(code, tried)?;
    put(code, Instr::Hold)?;
    add(code, last)?;
    put(code, Instr::Resume)
}
