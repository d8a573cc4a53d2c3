// Calls.

ghost use Rattle.std.specs.Prelude.{◌≡◌};
ghost use Rattle.type_names.specs.Walks.{Comes};
ghost use Rattle.typed_calls.specs.BuiltinCalls as spec;

use crate::admitted::admits_all;
use crate::answered::answered;
use crate::declared_call::grown;
use crate::fitted_arguments;
use crate::wanted::wanted_by;
use crate::widest::{on_numbers, widest};
use apex_list::Items;
use builtin_signatures::dues_of;
use builtin_table::Builtin;
use class_tables::ClassHeads;
use fault_words::FaultWord;
use std::alloc::Global;
use type_names::{TreeFault, WalkFault};
use typed_program::{TypedExpr, TypedPart};
use typed_values::{Kind, Typed};

fn arguments(
    alloc: Global,
    lines: &ClassHeads,
    receiver: &Kind,
    builtin: Builtin,
    at: usize,
    args: Items<Typed>,
) -> Result<Items<TypedExpr>, WalkFault>
    ensures { Comes (spec.arguments lines.now.heads receiver.now builtin at args) result }
{
    if !admits_all(receiver, dues_of(builtin), args.as_slice()) {
        return Err(TreeFault::new(FaultWord::WrongArguments, at).into());
    }
    let params = wanted_by(alloc, receiver, builtin, args.as_slice())?;
    fitted_arguments(alloc, lines, params.as_slice(), at, args)
}

// The arguments, and what the method answers.
fn taken(
    alloc: Global,
    lines: &ClassHeads,
    receiver: &Kind,
    builtin: Builtin,
    at: usize,
    args: Items<Typed>,
) -> Result<(Items<TypedExpr>, Kind), WalkFault>
    ensures { Comes (spec.taken lines.now.heads receiver.now builtin at args) result }
{
    let kind = answered(alloc, receiver, builtin, args.as_slice())?;
    let trees = arguments(alloc, lines, receiver, builtin, at, args)?;
    Ok((trees, kind))
}

/// The call of a built-in method of a value. `WrongArguments` at the name, which stands at this byte, where an argument
/// doesn't fit.
pub fn builtin_call(
    alloc: Global,
    lines: &ClassHeads,
    receiver: Typed,
    builtin: Builtin,
    name_at: usize,
    args: Items<Typed>,
) -> Result<Typed, WalkFault>
    ensures { Comes (spec.builtin_call lines.now.heads receiver builtin name_at args) result }
{
    let (trees, kind) = taken(alloc, lines, &receiver.kind, builtin, name_at, args)?;
    grown(alloc, receiver, kind, TypedPart::Builtin(builtin, trees))
}

/// The call of a built-in method of a type, which begins at one byte; the name stands at another one. `WrongArguments` at
/// the name where an argument doesn't fit.
pub fn type_call(
    alloc: Global,
    lines: &ClassHeads,
    at: usize,
    builtin: Builtin,
    name_at: usize,
    args: Items<Typed>,
) -> Result<Typed, WalkFault>
    ensures { Comes (spec.type_call lines.now.heads at builtin name_at args) result }
{
    let which = on_numbers(builtin, widest(args.as_slice()));
    let (trees, kind) = taken(alloc, lines, &Kind::Nothing, builtin, name_at, args)?;
    Ok(Typed::plain(alloc, at, kind, TypedExpr::CallBuiltin(which, trees))?)
}

fn shown(alloc: Global, at: usize, name_at: usize, arg: Typed) -> Result<Typed, WalkFault>
    ensures { Comes (spec.shown at name_at arg) result }
{
    match arg.kind {
        Kind::Nothing => Err(TreeFault::new(FaultWord::WrongArguments, name_at).into()),
        Kind::Null | Kind::Faulty | Kind::Is(_) => {
            Ok(Typed::plain(alloc, at, Kind::Nothing, TypedExpr::Debug(arg.tree))?)
        }
    }
}

/// The call of `System.debug`, which takes one value of any type; the name stands at the second byte.
pub fn debug_call(
    alloc: Global,
    at: usize,
    name_at: usize,
    args: Items<Typed>,
) -> Result<Typed, WalkFault>
    ensures { Comes (spec.debug_call at name_at args) result }
{
    let mut args = args;
    match args.pop() {
        Some(arg) => {
            if args.is_empty() {
                shown(alloc, at, name_at, arg)
            } else {
                Err(TreeFault::new(FaultWord::WrongArguments, name_at).into())
            }
        }
        None => Err(TreeFault::new(FaultWord::WrongArguments, name_at).into()),
    }
}
