// The code of statements.

ghost use Rattle.std.specs.Prelude.{◌≡◌, IfOk};
ghost use Rattle.stack_code.specs.Code as spec;
ghost use Rattle.stack_code.specs.Images as images;

use crate::layout::Layout;
use crate::stmts::emit_stmts;
use apex_num::NoMemory;
use stack_code::{Code, Instrs};
use std::alloc::Global;
use typed_program::TypedStmt;

/// The code of the statements of a body.
pub fn block_code(alloc: Global, layout: &Layout, stmts: &[TypedStmt]) -> Result<Code, NoMemory>
    ensures { IfOk result (λ code. code ≡ images.code (spec.block_code layout.now.program.now stmts.now)) }
{
    let mut code = Vec::new(alloc);
    emit_stmts(&mut code, alloc, layout, stmts)?;
    Ok(Code {
        instrs: Instrs::of(alloc, code)?,
    })
}
