// Code that grows.

ghost use Rattle.std.specs.Prelude.{◌≡◌, [], ◌∷◌, ◌++◌, ◌+◌, replicate, OnOk, IfOk};

use apex_num::NoMemory;
use stack_code::Instr;
use std::alloc::AllocError;

/// One instruction more.
pub fn put(code: &mut Vec<Instr>, instr: Instr) -> Result<(), NoMemory>
    ensures { OnOk result (code.new.items ≡ code.old.items ++ instr ∷ []) }
{
    code.push(instr)?;
    Ok(())
}

/// More instructions, which are moved.
pub fn add(code: &mut Vec<Instr>, more: Vec<Instr>) -> Result<(), NoMemory>
    ensures { OnOk result (code.new.items ≡ code.old.items ++ more.items) }
{
    let mut more = more;
    code.append(&mut more)
}

/// Takes so many values.
pub fn put_pops(code: &mut Vec<Instr>, count: usize) -> Result<(), NoMemory>
    ensures { OnOk result (code.new.items ≡ code.old.items ++ replicate count Instr.Pop) }
{
    for _ in 0..count {
        put(code, Instr::Pop)?;
    }
    Ok(())
}

/// A sum of lengths or places. There is no memory for what one that is too great counts.
pub fn sum(a: usize, b: usize) -> Result<usize, NoMemory>
    ensures { IfOk result (λ n. n ≡ a + b) }
{
    a.checked_add(b).ok_or(AllocError)
}
