// The instructions of constructors.

ghost use Rattle.std.specs.Prelude.{◌≡◌, [], ◌∷◌, ◌++◌, map, Some, OnOk, IfOk};
ghost use Rattle.apex_meaning.specs.Classes as classes;
ghost use Rattle.stack_code.specs.Code as spec;
ghost use Rattle.stack_code.specs.Images as images;

use crate::starts::{only_fields, own_starts, starts_and};
use apex_list::Items;
use apex_num::NoMemory;
use stack_code::{Code, Instr, Instrs};
use stack_compiler::{Layout, emit_exprs, emit_stmts, put, put_pops};
use std::alloc::Global;
use typed_program::{Constructor, ImpliedCall, ParentCall, TypedConstructor, TypedExpr};

// What stands before the statements of a constructor that isn't written.
fn put_own_starts(
    code: &mut Vec<Instr>,
    alloc: Global,
    layout: &Layout,
    class: usize,
) -> Result<(), NoMemory>
    ensures { OnOk result (code.new.items ≡ code.old.items ++ Instr.Begin (spec.starts_code layout.now.program.now (classes.own_starts layout.now.program.now class)) ∷ []) }
{
    put(
        code,
        Instr::Begin(own_starts(alloc, layout.program, class)?),
    )
}

// The initial values of a class's own fields.
fn put_fields(
    code: &mut Vec<Instr>,
    alloc: Global,
    layout: &Layout,
    class: usize,
) -> Result<(), NoMemory>
    ensures { OnOk result (code.new.items ≡ code.old.items ++ spec.own_code layout.now.program.now classes.no_starts class ∷ []) }
{
    put(code, Instr::Begin(only_fields(alloc, class)?))
}

fn put_implied(
    code: &mut Vec<Instr>,
    alloc: Global,
    layout: &Layout,
    call: ImpliedCall,
    class: usize,
) -> Result<(), NoMemory>
    ensures { OnOk result (code.new.items ≡ code.old.items ++ spec.own_code layout.now.program.now (classes.starts layout.now.program.now (Some call)) class ∷ []) }
{
    let starts = starts_and(alloc, layout.program, Some(call), class)?;
    put(code, Instr::Begin(starts))
}

fn put_plain(
    code: &mut Vec<Instr>,
    alloc: Global,
    layout: &Layout,
    class: usize,
    count: usize,
) -> Result<(), NoMemory>
    ensures { OnOk result (code.new.items ≡ code.old.items ++ spec.construct_code layout.now.program.now class Constructor.Implied count) }
{
    put_pops(code, count)?;
    put_own_starts(code, alloc, layout, class)
}

fn put_exception(
    code: &mut Vec<Instr>,
    alloc: Global,
    layout: &Layout,
    class: usize,
    count: usize,
) -> Result<(), NoMemory>
    ensures { OnOk result (code.new.items ≡ code.old.items ++ spec.construct_code layout.now.program.now class Constructor.Exception count) }
{
    put_own_starts(code, alloc, layout, class)?;
    put(code, Instr::MessageThis(count))
}

// A constructor that is called on the instance that is made already, whose arguments are there.
fn put_construct(
    code: &mut Vec<Instr>,
    alloc: Global,
    layout: &Layout,
    class: usize,
    constructor: Constructor,
    count: usize,
) -> Result<(), NoMemory>
    ensures { OnOk result (code.new.items ≡ code.old.items ++ spec.construct_code layout.now.program.now class constructor count) }
{
    match constructor {
        Constructor::Declared(place) => put(code, Instr::Construct(class, place, count)),
        Constructor::Implied => put_plain(code, alloc, layout, class, count),
        Constructor::Exception => put_exception(code, alloc, layout, class, count),
    }
}

// A step and the arguments.
fn emit_args(
    code: &mut Vec<Instr>,
    alloc: Global,
    layout: &Layout,
    args: &[TypedExpr],
) -> Result<(), NoMemory>
    ensures { OnOk result (code.new.items ≡ code.old.items ++ Instr.Step ∷ spec.exprs_code layout.now.program.now args.now) }
{
    put(code, Instr::Step)?;
    emit_exprs(code, alloc, layout, args)
}

fn emit_super(
    code: &mut Vec<Instr>,
    alloc: Global,
    layout: &Layout,
    class: usize,
    parent: usize,
    constructor: Constructor,
    args: &[TypedExpr],
) -> Result<(), NoMemory>
    ensures { OnOk result (code.new.items ≡ code.old.items ++ spec.parent_code layout.now.program.now class (ParentCall.Super parent constructor args.now)) }
{
    emit_args(code, alloc, layout, args)?;
    put_construct(code, alloc, layout, parent, constructor, args.len())?;
    put_fields(code, alloc, layout, class)
}

fn emit_message(
    code: &mut Vec<Instr>,
    alloc: Global,
    layout: &Layout,
    class: usize,
    args: &[TypedExpr],
) -> Result<(), NoMemory>
    ensures { OnOk result (code.new.items ≡ code.old.items ++ spec.parent_code layout.now.program.now class (ParentCall.Exception args.now)) }
{
    emit_args(code, alloc, layout, args)?;
    put(code, Instr::MessageThis(args.len()))?;
    put_fields(code, alloc, layout, class)
}

fn emit_this(
    code: &mut Vec<Instr>,
    alloc: Global,
    layout: &Layout,
    class: usize,
    constructor: Constructor,
    args: &[TypedExpr],
) -> Result<(), NoMemory>
    ensures { OnOk result (code.new.items ≡ code.old.items ++ spec.parent_code layout.now.program.now class (ParentCall.This constructor args.now)) }
{
    emit_args(code, alloc, layout, args)?;
    put_construct(code, alloc, layout, class, constructor, args.len())
}

fn emit_parent(
    code: &mut Vec<Instr>,
    alloc: Global,
    layout: &Layout,
    class: usize,
    parent: &ParentCall,
) -> Result<(), NoMemory>
    ensures { OnOk result (code.new.items ≡ code.old.items ++ spec.parent_code layout.now.program.now class parent.now) }
{
    match parent {
        ParentCall::Nothing => put_fields(code, alloc, layout, class),
        ParentCall::Implied(call) => put_implied(code, alloc, layout, *call, class),
        ParentCall::Super(parent, constructor, args) => emit_super(
            code,
            alloc,
            layout,
            class,
            *parent,
            *constructor,
            args.as_slice(),
        ),
        ParentCall::Exception(args) => emit_message(code, alloc, layout, class, args.as_slice()),
        ParentCall::This(constructor, args) => {
            emit_this(code, alloc, layout, class, *constructor, args.as_slice())
        }
    }
}

fn constructor_code(
    alloc: Global,
    layout: &Layout,
    class: usize,
    constructor: &TypedConstructor,
) -> Result<Code, NoMemory>
    ensures { IfOk result (λ code. code ≡ images.code (spec.constructor_code layout.now.program.now class constructor.now)) }
{
    let mut code = Vec::new(alloc);
    emit_parent(&mut code, alloc, layout, class, &constructor.parent)?;
    emit_stmts(&mut code, alloc, layout, constructor.stmts.as_slice())?;
    Ok(Code {
        instrs: Instrs::of(alloc, code)?,
    })
}

/// The bodies of the constructors of a class.
pub fn constructors_code(
    alloc: Global,
    layout: &Layout,
    class: usize,
    constructors: &[TypedConstructor],
) -> Result<Items<Code>, NoMemory>
    ensures { IfOk result (λ codes. codes ≡ map (λ k. images.code (spec.constructor_code layout.now.program.now class k)) constructors.now) }
{
    let mut codes = Items::new(alloc);
    for constructor in constructors {
        codes.push(constructor_code(alloc, layout, class, constructor)?)?;
    }
    Ok(codes)
}
