// The instructions of bodies that initialize fields and statics, of methods, of triggers and of blocks.

ghost use Rattle.std.specs.Prelude.{◌≡◌, [], ◌∷◌, ◌++◌, map, false, Some, OnOk, IfOk};
ghost use Rattle.stack_code.specs.Code as spec;
ghost use Rattle.stack_code.specs.Images as images;
ghost use Rattle.typed_program.specs.declared.unit.TypedTrigger.{TypedTrigger as TheTrigger};

use apex_list::Items;
use apex_num::NoMemory;
use stack_code::{Code, Instr, Instrs};
use stack_compiler::{Layout, block_code, emit_expr, put};
use std::alloc::Global;
use type_names::TreeFault;
use typed_program::{TypedExpr, TypedField, TypedMethod, TypedStmt, TypedTrigger};

// A value and what is done with it.
fn emit_with(
    code: &mut Vec<Instr>,
    alloc: Global,
    layout: &Layout,
    expr: &TypedExpr,
    then: Instr,
) -> Result<(), NoMemory>
    ensures { OnOk result (code.new.items ≡ code.old.items ++ (spec.expr_code layout.now.program.now expr.now ++ then ∷ [])) }
{
    emit_expr(code, alloc, layout, expr)?;
    put(code, then)
}

fn emit_own(
    code: &mut Vec<Instr>,
    alloc: Global,
    layout: &Layout,
    class: usize,
    place: usize,
    expr: &TypedExpr,
) -> Result<(), NoMemory>
    ensures { OnOk result (code.new.items ≡ code.old.items ++ spec.field_code layout.now.program.now class place false (Some expr.now)) }
{
    let own = layout.field_place(class, place)?;
    emit_with(code, alloc, layout, expr, Instr::SetOwn(own))
}

fn emit_field(
    code: &mut Vec<Instr>,
    alloc: Global,
    layout: &Layout,
    class: usize,
    place: usize,
    field: &TypedField,
) -> Result<(), NoMemory>
    ensures { OnOk result (code.new.items ≡ code.old.items ++ spec.field_code layout.now.program.now class place field.now.is_static field.now.value) }
{
    if field.is_static {
        return Ok(());
    }
    match &field.value {
        Some(expr) => emit_own(code, alloc, layout, class, place, expr.get()),
        None => Ok(()),
    }
}

fn emit_static(
    code: &mut Vec<Instr>,
    alloc: Global,
    layout: &Layout,
    class: usize,
    place: usize,
    field: &TypedField,
) -> Result<(), NoMemory>
    ensures { OnOk result (code.new.items ≡ code.old.items ++ spec.static_code layout.now.program.now class place field.now.is_static field.now.value) }
{
    if !field.is_static {
        return Ok(());
    }
    match &field.value {
        Some(expr) => {
            let then = Instr::SetStatic(class, place);
            emit_with(code, alloc, layout, expr.get(), then)
        }
        None => Ok(()),
    }
}

/// The initial values of the fields of a class.
pub fn fields_code(
    alloc: Global,
    layout: &Layout,
    class: usize,
    fields: &[TypedField],
) -> Result<Code, NoMemory>
    ensures { IfOk result (λ code. code ≡ images.code (spec.fields_code layout.now.program.now class 0 fields.now)) }
{
    let mut code = Vec::new(alloc);
    for place in 0..fields.len() {
        emit_field(&mut code, alloc, layout, class, place, &fields[place])?;
    }
    Ok(Code {
        instrs: Instrs::of(alloc, code)?,
    })
}

/// The initial values of the statics of a class.
pub fn statics_code(
    alloc: Global,
    layout: &Layout,
    class: usize,
    fields: &[TypedField],
) -> Result<Code, NoMemory>
    ensures { IfOk result (λ code. code ≡ images.code (spec.statics_code layout.now.program.now class 0 fields.now)) }
{
    let mut code = Vec::new(alloc);
    for place in 0..fields.len() {
        emit_static(&mut code, alloc, layout, class, place, &fields[place])?;
    }
    Ok(Code {
        instrs: Instrs::of(alloc, code)?,
    })
}

fn method_code(alloc: Global, layout: &Layout, method: &TypedMethod) -> Result<Code, NoMemory>
    ensures { IfOk result (λ code. code ≡ images.body_code layout.now.program.now method.now) }
{
    match &method.body {
        Some(stmts) => block_code(alloc, layout, stmts.as_slice()),
        None => Ok(Code {
            instrs: Instrs::of(alloc, Vec::new(alloc))?,
        }),
    }
}

/// The bodies of methods.
pub fn methods_code(
    alloc: Global,
    layout: &Layout,
    methods: &[TypedMethod],
) -> Result<Items<Code>, NoMemory>
    ensures { IfOk result (λ codes. codes ≡ map (images.body_code layout.now.program.now) methods.now) }
{
    let mut codes = Items::new(alloc);
    for method in methods {
        codes.push(method_code(alloc, layout, method)?)?;
    }
    Ok(codes)
}

/// The bodies of triggers.
pub fn triggers_code(
    alloc: Global,
    layout: &Layout,
    triggers: &[TypedTrigger],
) -> Result<Items<Code>, NoMemory>
    ensures { IfOk result (λ codes. codes ≡ map (λ (t : TheTrigger). images.code (spec.block_code layout.now.program.now t.body)) triggers.now) }
{
    let mut codes = Items::new(alloc);
    for trigger in triggers {
        codes.push(block_code(alloc, layout, trigger.body.as_slice())?)?;
    }
    Ok(codes)
}

fn block_of(
    alloc: Global,
    layout: &Layout,
    block: &Result<Items<TypedStmt>, TreeFault>,
) -> Result<Option<Code>, NoMemory>
    ensures { IfOk result (λ code. code ≡ images.block_of layout.now.program.now block.now) }
{
    match block {
        Ok(stmts) => Ok(Some(block_code(alloc, layout, stmts.as_slice())?)),
        Err(_) => Ok(None),
    }
}

/// The code of blocks; those with a fault have none.
pub fn blocks_code(
    alloc: Global,
    layout: &Layout,
    blocks: &[Result<Items<TypedStmt>, TreeFault>],
) -> Result<Items<Option<Code>>, NoMemory>
    ensures { IfOk result (λ codes. codes ≡ map (images.block_of layout.now.program.now) blocks.now) }
{
    let mut codes = Items::new(alloc);
    for block in blocks {
        codes.push(block_of(alloc, layout, block)?)?;
    }
    Ok(codes)
}
