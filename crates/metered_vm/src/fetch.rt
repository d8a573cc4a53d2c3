// The code of an image, and the instruction at a place of it.

ghost use Rattle.std.specs.Prelude.{◌≡◌, ◌<◌, ◌+◌, ◌^◌, length, slice_get, IfSome};
ghost use Rattle.std.specs.Option.{option_copied};
ghost use Rattle.stack_code.specs.Machine as spec;

use stack_code::{BodyAt, Code, Image, Instr, Instrs};

// The code of a block, where it has no fault.
fn block_at(image: &Image, block: usize) -> Option<&Code>
    ensures { option_copied result ≡ spec.some_code (slice_get image.now.blocks block) }
{
    match image.blocks.get(block) {
        Some(Some(code)) => Some(code),
        _ => None,
    }
}

// The code of a body.
fn code_at(image: &Image, body: BodyAt) -> Option<&Code>
    ensures { option_copied result ≡ spec.code_at image.now body }
{
    match body {
        BodyAt::Block(n) => block_at(image, n),
        BodyAt::Method(class, n) => image.classes.get(class)?.methods.get(n),
        BodyAt::Constructor(class, n) => image.classes.get(class)?.constructors.get(n),
        BodyAt::Fields(class) => Some(&image.classes.get(class)?.field_values),
        BodyAt::Statics(class) => Some(&image.classes.get(class)?.static_values),
        BodyAt::Trigger(n) => image.triggers.get(n),
    }
}

/// The instruction at a place of a body.
pub fn instr_at(image: &Image, body: BodyAt, pc: usize) -> Option<&Instr>
    ensures value { option_copied result ≡ slice_get (spec.instrs_at image.now body) pc }
    ensures room { IfSome result (λ _. pc + 1 < 2 ^ 64) }
    ensures fits { IfSome result (λ _. length (spec.instrs_at image.now body) < 2 ^ 64) }
{
    code_at(image, body)?.instrs.as_slice().get(pc)
}

/// The instructions of a body; `None` where there is no such body.
pub fn instrs_of(image: &Image, body: BodyAt) -> Option<&Instrs>
    ensures value { IfSome result (λ instrs. instrs.now ≡ spec.instrs_at image.now body) }
    ensures short { IfSome result (λ instrs. length instrs.now < 2 ^ 64) }
{
    let code = code_at(image, body)?;
    // (there are no more than can be counted)
    let _length = code.instrs.len();
    Some(&code.instrs)
}

/// The instruction at a place.
#[inline]
pub fn instr_in(instrs: &Instrs, pc: usize) -> Option<&Instr>
    ensures value { option_copied result ≡ slice_get instrs.now pc }
    ensures room { IfSome result (λ _. pc + 1 < 2 ^ 64) }
{
    instrs.as_slice().get(pc)
}

/// How many instructions a body has.
pub fn length_of(image: &Image, body: BodyAt) -> usize
    ensures value { result ≡ length (spec.instrs_at image.now body) }
    ensures short { length (spec.instrs_at image.now body) < 2 ^ 64 }
{
    match code_at(image, body) {
        Some(code) => code.instrs.len(),
        None => 0,
    }
}
