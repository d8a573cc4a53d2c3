// What stands behind the arguments of calls and of `new`.

ghost use Rattle.std.specs.Prelude.{◌≡◌, [], ◌∷◌, ◌++◌, replicate, OnOk};
ghost use Rattle.stack_code.specs.Code as spec;

use crate::emitted::{put, put_pops};
use apex_num::NoMemory;
use stack_code::Instr;
use typed_program::Constructor;

/// The call of a static method.
pub fn put_static_call(
    code: &mut Vec<Instr>,
    class: usize,
    method: usize,
    count: usize,
) -> Result<(), NoMemory>
    ensures { OnOk result (code.new.items ≡ code.old.items ++ Instr.Prepare class ∷ Instr.CallStatic class method count ∷ []) }
{
    put(code, Instr::Prepare(class))?;
    put(code, Instr::CallStatic(class, method, count))
}

/// The call of a method of an instance.
pub fn call_of(is_virtual: bool, class: usize, method: usize, count: usize) -> Instr
    ensures { result ≡ spec.call_code is_virtual class method count }
{
    if is_virtual {
        Instr::Call(class, method, count)
    } else {
        Instr::CallThis(class, method, count)
    }
}

fn put_plain(code: &mut Vec<Instr>, class: usize, count: usize) -> Result<(), NoMemory>
    ensures { OnOk result (code.new.items ≡ code.old.items ++ (replicate count Instr.Pop ++ Instr.NewPlain class ∷ [])) }
{
    put_pops(code, count)?;
    put(code, Instr::NewPlain(class))
}

fn put_exception(code: &mut Vec<Instr>, class: usize, count: usize) -> Result<(), NoMemory>
    ensures { OnOk result (code.new.items ≡ code.old.items ++ Instr.NewPlain class ∷ Instr.Message count ∷ []) }
{
    put(code, Instr::NewPlain(class))?;
    put(code, Instr::Message(count))
}

/// A new instance of a class, whose arguments are there.
pub fn put_new(
    code: &mut Vec<Instr>,
    class: usize,
    constructor: Constructor,
    count: usize,
) -> Result<(), NoMemory>
    ensures { OnOk result (code.new.items ≡ code.old.items ++ spec.new_code class constructor count) }
{
    put(code, Instr::Prepare(class))?;
    match constructor {
        Constructor::Declared(place) => put(code, Instr::New(class, place, count)),
        Constructor::Implied => put_plain(code, class, count),
        Constructor::Exception => put_exception(code, class, count),
    }
}
