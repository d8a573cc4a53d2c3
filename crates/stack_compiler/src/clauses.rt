// Clauses that catch.

ghost use Rattle.std.specs.Prelude.{◌≡◌, [], ◌∷◌, ◌++◌, ◌+◌, map, IfOk, OnOk};
ghost use Rattle.stack_code.specs.Code as spec;
ghost use Rattle.stack_compiler.specs.Clauses.{clause_of};

use crate::emitted::{add, put, sum};
use apex_list::Items;
use apex_num::NoMemory;
use stack_code::{CatchKind, Clause, Instr};
use static_types::ValueType;
use std::alloc::Global;

/// A clause with its code.
#[derive(Drop)]
pub struct CaughtCode {
    pub kind: CatchKind,
    pub slot: usize,
    pub code: Items<Instr>,
}

/// What exceptions of a type are to a clause.
pub fn kind_of(kind: &ValueType) -> CatchKind
    ensures { result ≡ spec.kind_of kind.now }
{
    match kind {
        ValueType::AnyException => CatchKind::Any,
        ValueType::Exception(class) => CatchKind::BuiltIn(*class),
        ValueType::Class(class) => CatchKind::Declared(*class),
        _ => CatchKind::Nothing,
    }
}

// The length of their code, each with its jump.
fn length_of(clauses: &[CaughtCode]) -> Result<usize, NoMemory>
    ensures { IfOk result (λ n. n ≡ spec.clauses_length (map clause_of clauses.now)) }
{
    let mut length = 0;
    for clause in clauses {
        length = sum(length, sum(clause.code.len(), 1)?)?;
    }
    Ok(length)
}

// The clauses with their places, the first one's given.
fn places_of(alloc: Global, from: usize, clauses: &[CaughtCode]) -> Result<Items<Clause>, NoMemory>
    ensures { IfOk result (λ all. all ≡ spec.clauses_from from (map clause_of clauses.now)) }
{
    let mut all = Items::new(alloc);
    let mut target = from;
    for clause in clauses {
        all.push(Clause {
            kind: clause.kind,
            slot: clause.slot,
            target,
        })?;
        target = sum(target, sum(clause.code.len(), 1)?)?;
    }
    Ok(all)
}

// Each jumps behind those that follow it, which are so long together.
fn add_clauses(
    code: &mut Vec<Instr>,
    clauses: Vec<CaughtCode>,
    length: usize,
) -> Result<(), NoMemory>
    requires { length ≡ spec.clauses_length (map clause_of clauses.items) }
    ensures { OnOk result (code.new.items ≡ code.old.items ++ spec.clauses_code (map clause_of clauses.items)) }
{
    let mut left = length;
    for clause in clauses {
        left -= clause.code.len() + 1;
        add(code, clause.code.into_vec())?;
        put(code, Instr::Jump(left))?;
    }
    Ok(())
}

/// What catches around a body, before its code: the clauses with their places.
pub fn put_catch(
    code: &mut Vec<Instr>,
    alloc: Global,
    body: Vec<Instr>,
    clauses: Items<CaughtCode>,
) -> Result<(), NoMemory>
    ensures { OnOk result (code.new.items ≡ code.old.items ++ spec.catch_code (map clause_of clauses) body.items) }
{
    let places = places_of(alloc, body.len() + 2, clauses.as_slice())?;
    let length = length_of(clauses.as_slice())?;
    put(code, Instr::OpenCatch(places))?;
    add(code, body)?;
    put(code, Instr::Close)?;
    put(code, Instr::Jump(length))?;
    add_clauses(code, clauses.into_vec(), length)
}
