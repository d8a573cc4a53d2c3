// The check of an image.

ghost use Rattle.std.specs.Prelude.{◌≡◌, ◌<◌, ◌≤◌, ◌+◌, ◌-◌, ◌↔◌, All, length, IsTrue};
ghost use Rattle.stack_code.specs.Checked.{ChargesAt, FineAt, IsChecked, IsFine, IsFineBlock, IsFineClass, IsFineCode, Within};
ghost use Rattle.stack_code.specs.Checked as spec;

use stack_code::{ClassCode, Clause, Code, Image, Instr};

/// True exactly where each jump of the image stays within its code, what leads back charges a step, and its classes have few
/// ancestors, which are classes of it. It takes no memory.
pub fn check_image(image: &Image) -> bool
    ensures { IsTrue result ↔ IsChecked image.now }
{
    check_classes(image.classes.as_slice())
        && check_codes(false, image.triggers.as_slice())
        && check_blocks(image.blocks.as_slice())
}

fn check_classes(classes: &[ClassCode]) -> bool
    ensures { IsTrue result ↔ All (IsFineClass (length classes.now)) classes.now }
{
    for class in classes {
        if !check_class(classes.len(), class) {
            return false;
        }
    }
    true
}

fn check_blocks(blocks: &[Option<Code>]) -> bool
    ensures { IsTrue result ↔ All IsFineBlock blocks.now }
{
    for block in blocks {
        if !check_block(block) {
            return false;
        }
    }
    true
}

fn check_block(block: &Option<Code>) -> bool
    ensures { IsTrue result ↔ IsFineBlock block.now }
{
    match block {
        None => true,
        Some(code) => check_code(false, code.instrs.as_slice()),
    }
}

fn check_class(classes: usize, class: &ClassCode) -> bool
    ensures { IsTrue result ↔ IsFineClass classes class.now }
{
    class.units >= 32
        && class.chain.len() <= 33
        && class.starts.fields.len() <= 34
        && check_chain(classes, class.chain.as_slice())
        && check_code(false, class.field_values.instrs.as_slice())
        && check_code(false, class.static_values.instrs.as_slice())
        && check_codes(false, class.methods.as_slice())
        && check_codes(true, class.constructors.as_slice())
}

fn check_chain(classes: usize, chain: &[usize]) -> bool
    ensures { IsTrue result ↔ All (λ c. c < classes) chain.now }
{
    for class in chain {
        if *class >= classes {
            return false;
        }
    }
    true
}

fn check_codes(begins: bool, codes: &[Code]) -> bool
    ensures { IsTrue result ↔ All (IsFineCode begins) codes.now }
{
    for code in codes {
        if !check_code(begins, code.instrs.as_slice()) {
            return false;
        }
    }
    true
}

fn check_code(begins: bool, code: &[Instr]) -> bool
    ensures { IsTrue result ↔ IsFine begins code.now }
{
    for (pc, instr) in code.iter().enumerate() {
        if !check_at(begins, code, pc, instr) {
            return false;
        }
    }
    true
}

fn check_at(begins: bool, code: &[Instr], pc: usize, instr: &Instr) -> bool
    requires { pc < length code.now }
    ensures { IsTrue result ↔ FineAt begins code.now pc instr.now }
{
    match instr {
        Instr::Jump(n)
        | Instr::Unless(n)
        | Instr::Both(n)
        | Instr::Either(n)
        | Instr::Each(_, _, n)
        | Instr::OpenLast(n) => *n < code.len() - pc,
        Instr::Back(n) => *n <= pc && charges(&code[pc - *n]),
        Instr::OpenCatch(clauses) => check_clauses(clauses.as_slice(), code.len() - pc),
        Instr::OpenLoop(again, out) => *again < code.len() - pc && *out < code.len() - pc,
        Instr::OpenEach(again, out) => check_each(code, pc, *again, *out),
        Instr::Begin(starts) => begins && starts.fields.len() <= 34,
        _ => true,
    }
}

fn check_each(code: &[Instr], pc: usize, again: usize, out: usize) -> bool
    requires { pc < length code.now }
    ensures { IsTrue result ↔ (ChargesAt code.now (pc + 1 + again) × Within code.now pc out) }
{
    let left = code.len() - pc;
    again < left - 1 && charges(&code[pc + 1 + again]) && out < left
}

/// Whether each clause stands among so many places from the one that opens them on.
fn check_clauses(clauses: &[Clause], left: usize) -> bool
    ensures { IsTrue result ↔ All (λ c. c.target < left) clauses.now }
{
    for clause in clauses {
        if clause.target >= left {
            return false;
        }
    }
    true
}

fn charges(instr: &Instr) -> bool
    ensures { result ≡ spec.is_charging instr.now }
{
    matches!(instr, Instr::Step | Instr::Each(_, _, _))
}
