// Arguments.

ghost use Rattle.std.specs.Prelude.{◌≡◌, length, IfOk};
ghost use Rattle.type_names.specs.Walks.{Comes, Tells, all};
ghost use Rattle.typed_calls.specs.Arguments as spec;

use apex_list::{Boxed, Items};
use apex_num::NoMemory;
use class_tables::ClassHeads;
use fault_words::FaultWord;
use static_types::ValueType;
use std::alloc::Global;
use type_names::{TreeFault, WalkFault};
use typed_program::{Conversion, TypedExpr};
use typed_values::{Kind, Typed, conversion, converted};

// A parameter whose type has a fault takes each value.
fn param_fit(lines: &ClassHeads, param: &Option<ValueType>, kind: &Kind) -> Option<Conversion>
    ensures { result ≡ spec.param_fit lines.now.heads param.now kind.now }
{
    match param {
        Some(to) => conversion(lines, kind, to),
        None => match kind {
            Kind::Nothing => None,
            Kind::Null | Kind::Faulty | Kind::Is(_) => Some(Conversion::Same),
        },
    }
}

fn param_how(
    lines: &ClassHeads,
    at: usize,
    param: &Option<ValueType>,
    arg: &Typed,
) -> Result<Conversion, TreeFault>
    ensures { Tells (spec.param_how lines.now.heads at param.now arg.now) result }
{
    match param_fit(lines, param, &arg.kind) {
        Some(how) => Ok(how),
        None => Err(TreeFault::new(FaultWord::WrongArguments, at)),
    }
}

fn param_hows(
    alloc: Global,
    lines: &ClassHeads,
    at: usize,
    params: &[Option<ValueType>],
    args: &[Typed],
) -> Result<Items<Conversion>, WalkFault>
    requires { length params.now ≡ length args.now }
    ensures { Comes (all (spec.param_walks lines.now.heads at params.now args.now)) result }
{
    let mut hows = Items::new(alloc);
    for i in 0..params.len() {
        let how = param_how(lines, at, &params[i], &args[i])?;
        hows.push(how)?;
    }
    Ok(hows)
}

fn how_at(hows: &[Conversion], i: usize) -> Conversion
    ensures { result ≡ spec.how_at hows.now i }
{
    match hows.get(i) {
        Some(how) => *how,
        None => Conversion::Same,
    }
}

fn converted_all(
    alloc: Global,
    hows: &[Conversion],
    args: Items<Typed>,
) -> Result<Items<TypedExpr>, NoMemory>
    ensures { IfOk result (λ trees. trees ≡ spec.converted_from hows.now 0 args) }
{
    let mut trees = Items::new(alloc);
    let mut i: usize = 0;
    for arg in args.into_vec() {
        let tree = converted(alloc, how_at(hows, i), arg.tree)?;
        trees.push(tree.into_value())?;
        i += 1;
    }
    Ok(trees)
}

/// The trees of the arguments of a method or a constructor with these parameters, with their conversions; a parameter
/// whose type has a fault takes each value. `WrongArguments` at this byte where their number is another one or where one
/// doesn't fit.
pub fn fitted_arguments(
    alloc: Global,
    lines: &ClassHeads,
    params: &[Option<ValueType>],
    at: usize,
    args: Items<Typed>,
) -> Result<Items<TypedExpr>, WalkFault>
    ensures { Comes (spec.fitted_arguments lines.now.heads params.now at args) result }
{
    if params.len() != args.len() {
        return Err(TreeFault::new(FaultWord::WrongArguments, at).into());
    }
    let hows = param_hows(alloc, lines, at, params, args.as_slice())?;
    Ok(converted_all(alloc, hows.as_slice(), args)?)
}
