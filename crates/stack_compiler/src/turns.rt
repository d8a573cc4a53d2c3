// The instructions of locals and loops.

ghost use Rattle.std.specs.Prelude.{◌≡◌, [], ◌∷◌, ◌++◌, ◌+◌, length, IfOk, OnOk};
ghost use Rattle.std.specs.Option.{option_copied};
ghost use Rattle.stack_code.specs.Code as spec;

use crate::choices::{put_each, put_loop};
use crate::emitted::put;
use crate::exprs::{emit_expr, expr_alone};
use crate::layout::Layout;
use apex_list::Boxed;
use apex_num::{Cell, NoMemory};
use stack_code::Instr;
use std::alloc::Global;
use typed_program::{Conversion, TypedExpr, TypedLocal, TypedStart};

/// A value, or null.
pub fn emit_value(
    code: &mut Vec<Instr>,
    alloc: Global,
    layout: &Layout,
    value: Option<&TypedExpr>,
) -> Result<(), NoMemory>
    ensures { OnOk result (code.new.items ≡ code.old.items ++ spec.value_code layout.now.program.now (option_copied value.entry)) }
{
    match value {
        Some(expr) => emit_expr(code, alloc, layout, expr),
        None => put(code, Instr::Push(Cell::Null)),
    }
}

fn emit_initial(
    code: &mut Vec<Instr>,
    alloc: Global,
    layout: &Layout,
    value: &Option<Boxed<TypedExpr>>,
) -> Result<(), NoMemory>
    ensures { OnOk result (code.new.items ≡ code.old.items ++ spec.value_code layout.now.program.now value.now) }
{
    match value {
        Some(expr) => emit_expr(code, alloc, layout, expr.get()),
        None => put(code, Instr::Push(Cell::Null)),
    }
}

/// New locals.
pub fn emit_locals(
    code: &mut Vec<Instr>,
    alloc: Global,
    layout: &Layout,
    locals: &[TypedLocal],
) -> Result<(), NoMemory>
    ensures { OnOk result (code.new.items ≡ code.old.items ++ spec.locals_code layout.now.program.now locals.now) }
{
    for local in locals {
        emit_initial(code, alloc, layout, &local.value)?;
        put(code, Instr::Store(local.slot))?;
    }
    Ok(())
}

fn emit_effect(
    code: &mut Vec<Instr>,
    alloc: Global,
    layout: &Layout,
    expr: &TypedExpr,
) -> Result<(), NoMemory>
    ensures { OnOk result (code.new.items ≡ code.old.items ++ spec.effect_code layout.now.program.now expr.now) }
{
    emit_expr(code, alloc, layout, expr)?;
    put(code, Instr::Pop)
}

fn emit_begin(
    code: &mut Vec<Instr>,
    alloc: Global,
    layout: &Layout,
    start: &TypedStart,
) -> Result<(), NoMemory>
    ensures { OnOk result (code.new.items ≡ code.old.items ++ spec.begin_code layout.now.program.now start.now) }
{
    match start {
        TypedStart::Nothing => Ok(()),
        TypedStart::Declare(locals) => emit_locals(code, alloc, layout, locals.as_slice()),
        TypedStart::Expr(expr) => emit_effect(code, alloc, layout, expr.get()),
    }
}

fn condition_alone(
    alloc: Global,
    layout: &Layout,
    condition: &Option<TypedExpr>,
) -> Result<Vec<Instr>, NoMemory>
    ensures { IfOk result (λ code. code.items ≡ spec.condition_code layout.now.program.now condition.now) }
{
    let mut code = Vec::new(alloc);
    match condition {
        Some(expr) => emit_expr(&mut code, alloc, layout, expr)?,
        None => put(&mut code, Instr::Push(Cell::Bool(true)))?,
    }
    Ok(code)
}

fn effect_alone(
    alloc: Global,
    layout: &Layout,
    next: &Option<TypedExpr>,
) -> Result<Vec<Instr>, NoMemory>
    ensures { IfOk result (λ code. code.items ≡ spec.effect_or layout.now.program.now next.now) }
{
    let mut code = Vec::new(alloc);
    match next {
        Some(expr) => emit_effect(&mut code, alloc, layout, expr)?,
        None => {}
    }
    Ok(code)
}

/// `while`, with the code of what it repeats.
pub fn emit_while(
    code: &mut Vec<Instr>,
    alloc: Global,
    layout: &Layout,
    condition: &TypedExpr,
    body: Vec<Instr>,
) -> Result<(), NoMemory>
    ensures { OnOk result (code.new.items ≡ code.old.items ++ Instr.Step ∷ spec.loop_code (spec.expr_code layout.now.program.now condition.now) body.items []) }
{
    let condition = expr_alone(alloc, layout, condition)?;
    put(code, Instr::Step)?;
    put_loop(code, condition, body, Vec::new(alloc))
}

/// `do`, with the code of what it repeats.
pub fn emit_do(
    code: &mut Vec<Instr>,
    alloc: Global,
    layout: &Layout,
    condition: &TypedExpr,
    body: Vec<Instr>,
) -> Result<(), NoMemory>
    ensures { OnOk result (code.new.items ≡ code.old.items ++ Instr.Step ∷ Instr.Jump (length (spec.expr_code layout.now.program.now condition.now) + 2) ∷ spec.loop_code (spec.expr_code layout.now.program.now condition.now) body.items []) }
{
    let condition = expr_alone(alloc, layout, condition)?;
    put(code, Instr::Step)?;
    put(code, Instr::Jump(condition.len() + 2))?;
    put_loop(code, condition, body, Vec::new(alloc))
}

/// `for`, with the code of what it repeats.
pub fn emit_for(
    code: &mut Vec<Instr>,
    alloc: Global,
    layout: &Layout,
    start: &TypedStart,
    condition: &Option<TypedExpr>,
    next: &Option<TypedExpr>,
    body: Vec<Instr>,
) -> Result<(), NoMemory>
    ensures { OnOk result (code.new.items ≡ code.old.items ++ Instr.Step ∷ (spec.begin_code layout.now.program.now start.now ++ spec.loop_code (spec.condition_code layout.now.program.now condition.now) body.items (spec.effect_or layout.now.program.now next.now))) }
{
    put(code, Instr::Step)?;
    emit_begin(code, alloc, layout, start)?;
    let condition = condition_alone(alloc, layout, condition)?;
    let next = effect_alone(alloc, layout, next)?;
    put_loop(code, condition, body, next)
}

/// `for` over the items of a list or a set, with the code of what it repeats.
pub fn emit_each(
    code: &mut Vec<Instr>,
    alloc: Global,
    layout: &Layout,
    slot: usize,
    how: Conversion,
    items: &TypedExpr,
    body: Vec<Instr>,
) -> Result<(), NoMemory>
    ensures { OnOk result (code.new.items ≡ code.old.items ++ Instr.Step ∷ (spec.expr_code layout.now.program.now items.now ++ spec.each_code slot how body.items)) }
{
    put(code, Instr::Step)?;
    emit_expr(code, alloc, layout, items)?;
    put_each(code, slot, how, body)
}
