// The instructions of statements.

ghost use Rattle.std.specs.Prelude.{◌≡◌, [], ◌∷◌, ◌++◌, map, option_map, Some, IfOk, OnOk};
ghost use Rattle.std.specs.Option.{option_copied};
ghost use Rattle.request_states.specs.Statements as statements;
ghost use Rattle.stack_code.specs.Code as spec;
ghost use Rattle.stack_compiler.specs.Clauses.{clause_of};
ghost use Rattle.stack_compiler.specs.Codes as codes;

use crate::choices::{put_choice, put_finally};
use crate::clauses::{CaughtCode, kind_of, put_catch};
use crate::emitted::{add, put};
use crate::exprs::emit_expr;
use crate::layout::Layout;
use crate::turns::{emit_do, emit_each, emit_for, emit_locals, emit_value, emit_while};
use apex_list::{Boxed, Items};
use apex_num::NoMemory;
use apex_requests::Op;
use apex_syntax::DmlOp;
use stack_code::Instr;
use std::alloc::Global;
use typed_program::{TypedCatch, TypedExpr, TypedLocal, TypedStmt};

// A step, a value and what is done with it.
fn emit_with(
    code: &mut Vec<Instr>,
    alloc: Global,
    layout: &Layout,
    expr: &TypedExpr,
    then: Instr,
) -> Result<(), NoMemory>
    ensures { OnOk result (code.new.items ≡ code.old.items ++ Instr.Step ∷ (spec.expr_code layout.now.program.now expr.now ++ then ∷ [])) }
{
    put(code, Instr::Step)?;
    emit_expr(code, alloc, layout, expr)?;
    put(code, then)
}

fn emit_declare(
    code: &mut Vec<Instr>,
    alloc: Global,
    layout: &Layout,
    locals: &[TypedLocal],
) -> Result<(), NoMemory>
    ensures { OnOk result (code.new.items ≡ code.old.items ++ Instr.Step ∷ spec.locals_code layout.now.program.now locals.now) }
{
    put(code, Instr::Step)?;
    emit_locals(code, alloc, layout, locals)
}

fn emit_return(
    code: &mut Vec<Instr>,
    alloc: Global,
    layout: &Layout,
    value: Option<&TypedExpr>,
) -> Result<(), NoMemory>
    ensures { OnOk result (code.new.items ≡ code.old.items ++ Instr.Step ∷ (spec.value_code layout.now.program.now (option_copied value.entry) ++ Instr.Return ∷ [])) }
{
    put(code, Instr::Step)?;
    emit_value(code, alloc, layout, value)?;
    put(code, Instr::Return)
}

fn put_word(code: &mut Vec<Instr>, instr: Instr) -> Result<(), NoMemory>
    ensures { OnOk result (code.new.items ≡ code.old.items ++ Instr.Step ∷ instr ∷ []) }
{
    put(code, Instr::Step)?;
    put(code, instr)
}

fn emit_if(
    code: &mut Vec<Instr>,
    alloc: Global,
    layout: &Layout,
    condition: &TypedExpr,
    first: Vec<Instr>,
    second: Vec<Instr>,
) -> Result<(), NoMemory>
    ensures { OnOk result (code.new.items ≡ code.old.items ++ Instr.Step ∷ (spec.expr_code layout.now.program.now condition.now ++ spec.choice_code first.items second.items)) }
{
    put(code, Instr::Step)?;
    emit_expr(code, alloc, layout, condition)?;
    put_choice(code, first, second)
}

fn put_caught(
    code: &mut Vec<Instr>,
    alloc: Global,
    body: Vec<Instr>,
    clauses: Items<CaughtCode>,
) -> Result<(), NoMemory>
    ensures { OnOk result (code.new.items ≡ code.old.items ++ Instr.Step ∷ spec.catch_code (map clause_of clauses) body.items) }
{
    put(code, Instr::Step)?;
    put_catch(code, alloc, body, clauses)
}

fn put_try(
    code: &mut Vec<Instr>,
    alloc: Global,
    body: Vec<Instr>,
    clauses: Items<CaughtCode>,
    last: Vec<Instr>,
) -> Result<(), NoMemory>
    ensures { OnOk result (code.new.items ≡ code.old.items ++ Instr.Step ∷ spec.finally_code (Some last.items) (spec.catch_code (map clause_of clauses) body.items)) }
{
    let mut tried = Vec::new(alloc);
    put_catch(&mut tried, alloc, body, clauses)?;
    put(code, Instr::Step)?;
    put_finally(code, tried, last)
}

// What a statement does with its records.
fn op_of(op: DmlOp) -> Op
    ensures { result ≡ statements.op_of op }
{
    match op {
        DmlOp::Insert => Op::Insert,
        DmlOp::Update => Op::Update,
        DmlOp::Delete => Op::Delete,
        DmlOp::Upsert => Op::Upsert,
    }
}

/// The instructions of a statement.
#[cycle(emit_stmt)]
pub fn emit_stmt(
    code: &mut Vec<Instr>,
    alloc: Global,
    layout: &Layout,
    stmt: &TypedStmt,
) -> Result<(), NoMemory>
    ensures { OnOk result (code.new.items ≡ code.old.items ++ spec.stmt_code layout.now.program.now stmt.now) }
{
    match stmt {
        TypedStmt::Block(stmts) => emit_stmts(code, alloc, layout, stmts.as_slice()),
        TypedStmt::Declare(locals) => emit_declare(code, alloc, layout, locals.as_slice()),
        TypedStmt::Expr(expr) => emit_with(code, alloc, layout, expr, Instr::Pop),
        TypedStmt::If(condition, first, second) => {
            let first = stmt_alone(alloc, layout, first.get())?;
            let second = other_alone(alloc, layout, second)?;
            emit_if(code, alloc, layout, condition, first, second)
        }
        TypedStmt::While(condition, body) => {
            let body = stmt_alone(alloc, layout, body.get())?;
            emit_while(code, alloc, layout, condition, body)
        }
        TypedStmt::Do(body, condition) => {
            let body = stmt_alone(alloc, layout, body.get())?;
            emit_do(code, alloc, layout, condition, body)
        }
        TypedStmt::For(start, condition, next, body) => {
            let body = stmt_alone(alloc, layout, body.get())?;
            emit_for(code, alloc, layout, start, condition, next, body)
        }
        TypedStmt::ForEach(slot, how, items, body) => {
            let body = stmt_alone(alloc, layout, body.get())?;
            emit_each(code, alloc, layout, *slot, *how, items, body)
        }
        TypedStmt::Return(value) => emit_return(code, alloc, layout, value.as_ref()),
        TypedStmt::Break => put_word(code, Instr::Break),
        TypedStmt::Continue => put_word(code, Instr::Continue),
        TypedStmt::Throw(expr) => emit_with(code, alloc, layout, expr, Instr::Throw),
        TypedStmt::Try(body, clauses, None) => {
            let body = stmts_alone(alloc, layout, body.as_slice())?;
            let clauses = clauses_alone(alloc, layout, clauses.as_slice())?;
            put_caught(code, alloc, body, clauses)
        }
        TypedStmt::Try(body, clauses, Some(last)) => {
            let body = stmts_alone(alloc, layout, body.as_slice())?;
            let clauses = clauses_alone(alloc, layout, clauses.as_slice())?;
            let last = stmts_alone(alloc, layout, last.as_slice())?;
            put_try(code, alloc, body, clauses, last)
        }
        TypedStmt::Dml(op, saved, expr) => {
            emit_with(code, alloc, layout, expr, Instr::Save(op_of(*op), *saved))
        }
    }
}

/// Statements, one behind the other.
#[cycle(emit_stmt)]
pub fn emit_stmts(
    code: &mut Vec<Instr>,
    alloc: Global,
    layout: &Layout,
    stmts: &[TypedStmt],
) -> Result<(), NoMemory>
    ensures { OnOk result (code.new.items ≡ code.old.items ++ spec.joined (map (spec.stmt_code layout.now.program.now) stmts.now)) }
{
    for stmt in stmts {
        emit_stmt(code, alloc, layout, stmt)?;
    }
    Ok(())
}

#[cycle(emit_stmt)]
fn stmt_alone(alloc: Global, layout: &Layout, stmt: &TypedStmt) -> Result<Vec<Instr>, NoMemory>
    ensures { IfOk result (λ code. code.items ≡ spec.stmt_code layout.now.program.now stmt.now) }
{
    let mut code = Vec::new(alloc);
    emit_stmt(&mut code, alloc, layout, stmt)?;
    Ok(code)
}

#[cycle(emit_stmt)]
fn stmts_alone(alloc: Global, layout: &Layout, stmts: &[TypedStmt]) -> Result<Vec<Instr>, NoMemory>
    ensures { IfOk result (λ code. code.items ≡ spec.joined (map (spec.stmt_code layout.now.program.now) stmts.now)) }
{
    let mut code = Vec::new(alloc);
    emit_stmts(&mut code, alloc, layout, stmts)?;
    Ok(code)
}

// What stands behind an `else`.
#[cycle(emit_stmt)]
fn other_alone(
    alloc: Global,
    layout: &Layout,
    stmt: &Option<Boxed<TypedStmt>>,
) -> Result<Vec<Instr>, NoMemory>
    ensures { IfOk result (λ code. code.items ≡ spec.or_nothing layout.now.program.now (option_map (spec.stmt_code layout.now.program.now) stmt.now)) }
{
    match stmt {
        Some(stmt) => stmt_alone(alloc, layout, stmt.get()),
        None => Ok(Vec::new(alloc)),
    }
}

#[cycle(emit_stmt)]
fn clause_alone(alloc: Global, layout: &Layout, clause: &TypedCatch) -> Result<CaughtCode, NoMemory>
    ensures { IfOk result (λ caught. clause_of caught ≡ codes.clause_code layout.now.program.now clause.now) }
{
    let code = stmts_alone(alloc, layout, clause.body.as_slice())?;
    Ok(CaughtCode {
        kind: kind_of(&clause.kind),
        slot: clause.slot,
        code: Items::of(code),
    })
}

#[cycle(emit_stmt)]
fn clauses_alone(
    alloc: Global,
    layout: &Layout,
    clauses: &[TypedCatch],
) -> Result<Items<CaughtCode>, NoMemory>
    ensures { IfOk result (λ all. map clause_of all ≡ map (codes.clause_code layout.now.program.now) clauses.now) }
{
    let mut all = Items::new(alloc);
    for clause in clauses {
        all.push(clause_alone(alloc, layout, clause)?)?;
    }
    Ok(all)
}
