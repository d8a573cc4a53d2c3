// The instructions of expressions.

ghost use Rattle.std.specs.Prelude.{◌≡◌, [], ◌∷◌, ◌++◌, length, map, IfOk, OnOk};
ghost use Rattle.stack_code.specs.Code as spec;
ghost use Rattle.stack_compiler.specs.Codes as codes;

use crate::choices::put_choice;
use crate::emitted::{put, sum};
use crate::layout::Layout;
use crate::makes::{call_of, put_new, put_static_call};
use crate::queries::{kind_of, put_query};
use crate::triggers::put_variable;
use crate::values::{
    emit_change, emit_constant, emit_fetch, emit_step, emit_store, put_static, put_test,
};
use apex_list::Items;
use apex_num::NoMemory;
use query_records::BindKind;
use stack_code::{Instr, Slot};
use static_types::Primitive;
use std::alloc::Global;
use typed_program::{
    CollectionKind, Conversion, TypedBind, TypedExpr, TypedItem, TypedNew, TypedOp, TypedOperand,
    TypedPair, TypedPart, TypedPlace,
};

/// The instructions of an expression.
#[cycle(emit)]
pub fn emit_expr(
    code: &mut Vec<Instr>,
    alloc: Global,
    layout: &Layout,
    expr: &TypedExpr,
) -> Result<(), NoMemory>
    ensures { OnOk result (code.new.items ≡ code.old.items ++ spec.expr_code layout.now.program.now expr.now) }
{
    match expr {
        TypedExpr::Constant(constant) => emit_constant(code, alloc, constant),
        TypedExpr::Local(slot) => put(code, Instr::Get(Slot::Local(*slot))),
        TypedExpr::Static(class, place) => put_static(code, *class, *place),
        TypedExpr::This => put(code, Instr::This),
        TypedExpr::Postfix(first, parts) => {
            emit_expr(code, alloc, layout, first.get())?;
            emit_parts(code, alloc, layout, parts.as_slice())
        }
        TypedExpr::Chain(first, operands) => {
            emit_expr(code, alloc, layout, first.get())?;
            emit_operands(code, alloc, layout, operands.as_slice())
        }
        TypedExpr::Convert(Conversion::ToRecord, inner) => {
            emit_with(code, alloc, layout, inner.get(), Instr::Only)
        }
        TypedExpr::Convert(how, inner) => {
            emit_with(code, alloc, layout, inner.get(), Instr::Convert(*how))
        }
        TypedExpr::Not(inner) => emit_with(code, alloc, layout, inner.get(), Instr::Not),
        TypedExpr::Minus(number, inner) => {
            emit_with(code, alloc, layout, inner.get(), Instr::Negate(*number))
        }
        TypedExpr::Conditional(condition, first, second) => {
            emit_expr(code, alloc, layout, condition.get())?;
            let first = expr_alone(alloc, layout, first.get())?;
            let second = expr_alone(alloc, layout, second.get())?;
            put_choice(code, first, second)
        }
        TypedExpr::Assign(place, value) => {
            emit_parts_of(code, alloc, layout, place.get())?;
            emit_expr(code, alloc, layout, value.get())?;
            emit_store(code, layout, place.get())
        }
        TypedExpr::AssignWith(place, how, value) => {
            emit_parts_of(code, alloc, layout, place.get())?;
            emit_fetch(code, layout, place.get())?;
            emit_expr(code, alloc, layout, value.get())?;
            emit_change(code, layout, *how, place.get())
        }
        TypedExpr::Step(kind, number, place) => {
            emit_parts_of(code, alloc, layout, place.get())?;
            emit_step(code, layout, *kind, *number, place.get())
        }
        TypedExpr::Cast(class, inner) => {
            emit_with(code, alloc, layout, inner.get(), Instr::Cast(*class))
        }
        TypedExpr::CastException(class, inner) => emit_with(
            code,
            alloc,
            layout,
            inner.get(),
            Instr::CastException(*class),
        ),
        TypedExpr::New(new) => emit_new(code, alloc, layout, new.get()),
        TypedExpr::CallStatic(class, method, args) => {
            emit_exprs(code, alloc, layout, args.as_slice())?;
            put_static_call(code, *class, *method, args.len())
        }
        TypedExpr::CallBuiltin(which, args) => {
            emit_exprs(code, alloc, layout, args.as_slice())?;
            put(code, Instr::Builtin(*which, args.len()))
        }
        TypedExpr::Debug(inner) => emit_with(code, alloc, layout, inner.get(), Instr::Print),
        TypedExpr::Query(query, binds) => {
            let kinds = emit_binds(code, alloc, layout, binds.as_slice())?;
            put_query(code, alloc, query.get(), kinds)
        }
        TypedExpr::TriggerVariable(variable) => put_variable(code, *variable),
    }
}

/// The instructions of an expression alone.
#[cycle(emit)]
pub fn expr_alone(alloc: Global, layout: &Layout, expr: &TypedExpr) -> Result<Vec<Instr>, NoMemory>
    ensures { IfOk result (λ code. code.items ≡ spec.expr_code layout.now.program.now expr.now) }
{
    let mut code = Vec::new(alloc);
    emit_expr(&mut code, alloc, layout, expr)?;
    Ok(code)
}

// A value and what is done with it.
#[cycle(emit)]
fn emit_with(
    code: &mut Vec<Instr>,
    alloc: Global,
    layout: &Layout,
    expr: &TypedExpr,
    then: Instr,
) -> Result<(), NoMemory>
    ensures { OnOk result (code.new.items ≡ code.old.items ++ (spec.expr_code layout.now.program.now expr.now ++ then ∷ [])) }
{
    emit_expr(code, alloc, layout, expr)?;
    put(code, then)
}

/// Expressions, one behind the other.
#[cycle(emit)]
pub fn emit_exprs(
    code: &mut Vec<Instr>,
    alloc: Global,
    layout: &Layout,
    exprs: &[TypedExpr],
) -> Result<(), NoMemory>
    ensures { OnOk result (code.new.items ≡ code.old.items ++ spec.joined (map (spec.expr_code layout.now.program.now) exprs.now)) }
{
    for expr in exprs {
        emit_expr(code, alloc, layout, expr)?;
    }
    Ok(())
}

// Expressions, and what is done with their values.
#[cycle(emit)]
fn emit_all(
    code: &mut Vec<Instr>,
    alloc: Global,
    layout: &Layout,
    exprs: &[TypedExpr],
    then: Instr,
) -> Result<(), NoMemory>
    ensures { OnOk result (code.new.items ≡ code.old.items ++ (spec.joined (map (spec.expr_code layout.now.program.now) exprs.now) ++ then ∷ [])) }
{
    emit_exprs(code, alloc, layout, exprs)?;
    put(code, then)
}

// The parts of a variable.
#[cycle(emit)]
fn emit_parts_of(
    code: &mut Vec<Instr>,
    alloc: Global,
    layout: &Layout,
    place: &TypedPlace,
) -> Result<(), NoMemory>
    ensures { OnOk result (code.new.items ≡ code.old.items ++ (codes.place_code layout.now.program.now place.now).parts) }
{
    match place {
        TypedPlace::Local(_) | TypedPlace::Static(_, _) => Ok(()),
        TypedPlace::Field(instance, _, _) => emit_expr(code, alloc, layout, instance.get()),
        TypedPlace::Cell(record, _, _, _) => emit_expr(code, alloc, layout, record.get()),
        TypedPlace::Index(list, at) => {
            emit_expr(code, alloc, layout, list.get())?;
            emit_expr(code, alloc, layout, at.get())
        }
    }
}

#[cycle(emit)]
fn emit_operand(
    code: &mut Vec<Instr>,
    alloc: Global,
    layout: &Layout,
    operand: &TypedOperand,
) -> Result<(), NoMemory>
    ensures { OnOk result (code.new.items ≡ code.old.items ++ codes.operand_code layout.now.program.now operand.now) }
{
    match operand.op {
        TypedOp::And => {
            let value = expr_alone(alloc, layout, operand.value.get())?;
            put_test(code, Instr::Both(value.len() + 1), value)
        }
        TypedOp::Or => {
            let value = expr_alone(alloc, layout, operand.value.get())?;
            put_test(code, Instr::Either(value.len() + 1), value)
        }
        TypedOp::Arithmetic(_, _)
        | TypedOp::Join
        | TypedOp::Equal
        | TypedOp::Differs
        | TypedOp::Order(_) => {
            let calc = Instr::Calc(operand.left, operand.op, operand.right);
            emit_with(code, alloc, layout, operand.value.get(), calc)
        }
    }
}

#[cycle(emit)]
fn emit_operands(
    code: &mut Vec<Instr>,
    alloc: Global,
    layout: &Layout,
    operands: &[TypedOperand],
) -> Result<(), NoMemory>
    ensures { OnOk result (code.new.items ≡ code.old.items ++ spec.joined (map (codes.operand_code layout.now.program.now) operands.now)) }
{
    for operand in operands {
        emit_operand(code, alloc, layout, operand)?;
    }
    Ok(())
}

#[cycle(emit)]
fn emit_bind(
    code: &mut Vec<Instr>,
    alloc: Global,
    layout: &Layout,
    bind: &TypedBind,
) -> Result<(), NoMemory>
    ensures { OnOk result (code.new.items ≡ code.old.items ++ (codes.bind_code layout.now.program.now bind.now).1) }
{
    match bind {
        TypedBind::One(value) => emit_expr(code, alloc, layout, value.get()),
        TypedBind::Many(_, value) => emit_with(code, alloc, layout, value.get(), Instr::Seen),
    }
}

// The values of binds, one behind the other, and how they are given.
#[cycle(emit)]
fn emit_binds(
    code: &mut Vec<Instr>,
    alloc: Global,
    layout: &Layout,
    binds: &[TypedBind],
) -> Result<Items<BindKind>, NoMemory>
    ensures code { OnOk result (code.new.items ≡ code.old.items ++ codes.binds_code (map (codes.bind_code layout.now.program.now) binds.now)) }
    ensures kinds { IfOk result (λ kinds. kinds ≡ codes.kinds_of (map (codes.bind_code layout.now.program.now) binds.now)) }
{
    let mut kinds = Items::new(alloc);
    for bind in binds {
        emit_bind(code, alloc, layout, bind)?;
        kinds.push(kind_of(bind))?;
    }
    Ok(kinds)
}

// What goes on with a value.
#[cycle(emit)]
fn emit_part(
    code: &mut Vec<Instr>,
    alloc: Global,
    layout: &Layout,
    part: &TypedPart,
) -> Result<(), NoMemory>
    ensures { OnOk result (code.new.items ≡ code.old.items ++ codes.part_code layout.now.program.now part.now) }
{
    match part {
        TypedPart::Field(class, field) => {
            let place = layout.field_place(*class, *field)?;
            put(code, Instr::Get(Slot::Field(place)))
        }
        TypedPart::Index(at) => { emit_with(code, alloc, layout, at.get(), Instr::Get(Slot::Item)) }
        TypedPart::Call(class, method, is_virtual, args) => {
            emit_exprs(code, alloc, layout, args.as_slice())?;
            put(code, call_of(*is_virtual, *class, *method, args.len()))
        }
        TypedPart::Builtin(which, args) => {
            emit_exprs(code, alloc, layout, args.as_slice())?;
            put(code, Instr::Builtin(*which, sum(1, args.len())?))
        }
        TypedPart::Cell(_, field, goes_on) => {
            put(code, Instr::Get(Slot::Cell(*field, *goes_on)))
        }
        TypedPart::Parent(_, field, goes_on) => put(code, Instr::Parent(*field, *goes_on)),
        TypedPart::Children(object, field, goes_on) => {
            put(code, Instr::Children(*object, *field, *goes_on))
        }
    }
}

#[cycle(emit)]
fn emit_parts(
    code: &mut Vec<Instr>,
    alloc: Global,
    layout: &Layout,
    parts: &[TypedPart],
) -> Result<(), NoMemory>
    ensures { OnOk result (code.new.items ≡ code.old.items ++ spec.joined (map (codes.part_code layout.now.program.now) parts.now)) }
{
    for part in parts {
        emit_part(code, alloc, layout, part)?;
    }
    Ok(())
}

// A new record with these values of its fields.
#[cycle(emit)]
fn emit_record(
    code: &mut Vec<Instr>,
    alloc: Global,
    layout: &Layout,
    object: usize,
    pairs: &[TypedPair],
) -> Result<(), NoMemory>
    ensures { OnOk result (code.new.items ≡ code.old.items ++ (spec.pairs_code (map (codes.pair_code layout.now.program.now) pairs.now) ++ Instr.Record object (spec.fields_of (map (codes.pair_code layout.now.program.now) pairs.now)) ∷ [])) }
{
    let mut fields = Items::new(alloc);
    for pair in pairs {
        emit_expr(code, alloc, layout, pair.value.get())?;
        fields.push(pair.field)?;
    }
    put(code, Instr::Record(object, fields))
}

// A new map of these keys and values.
#[cycle(emit)]
fn emit_entries(
    code: &mut Vec<Instr>,
    alloc: Global,
    layout: &Layout,
    items: &[TypedItem],
) -> Result<(), NoMemory>
    ensures { OnOk result (code.new.items ≡ code.old.items ++ (spec.joined (map (codes.item_code layout.now.program.now) items.now) ++ Instr.Entries (length items.now) ∷ [])) }
{
    for item in items {
        emit_expr(code, alloc, layout, item.key.get())?;
        emit_expr(code, alloc, layout, item.value.get())?;
    }
    put(code, Instr::Entries(items.len()))
}

#[cycle(emit)]
fn emit_new(
    code: &mut Vec<Instr>,
    alloc: Global,
    layout: &Layout,
    new: &TypedNew,
) -> Result<(), NoMemory>
    ensures { OnOk result (code.new.items ≡ code.old.items ++ codes.new_code layout.now.program.now new.now) }
{
    match new {
        TypedNew::Instance(class, constructor, args) => {
            emit_exprs(code, alloc, layout, args.as_slice())?;
            put_new(code, *class, *constructor, args.len())
        }
        TypedNew::Exception(class, args) => {
            let then = Instr::Exception(*class, args.len());
            emit_all(code, alloc, layout, args.as_slice(), then)
        }
        TypedNew::Record(object, pairs) => {
            emit_record(code, alloc, layout, *object, pairs.as_slice())
        }
        TypedNew::Collection(kind, items) => {
            let then = Instr::Filled(*kind, items.len());
            emit_all(code, alloc, layout, items.as_slice(), then)
        }
        TypedNew::Map(_, items) => { emit_entries(code, alloc, layout, items.as_slice()) }
        TypedNew::Copy(kind, inner) => {
            emit_with(code, alloc, layout, inner.get(), Instr::Copied(*kind))
        }
        TypedNew::ById(inner) => {
            let kind = CollectionKind::Map(Primitive::Id);
            emit_with(code, alloc, layout, inner.get(), Instr::Copied(kind))
        }
    }
}
