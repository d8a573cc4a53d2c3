// Casts.

ghost use Rattle.std.specs.Prelude.{◌≡◌, IfOk};
ghost use Rattle.static_types.specs.declared.kind.ValueType.TheViews.{out-ValueType};
ghost use Rattle.type_names.specs.Walks.{Comes, Gives, Tells};
ghost use Rattle.typed_operations.specs.Casts as spec;

use apex_list::Boxed;
use apex_num::NoMemory;
use builtin_table::ExceptionClass;
use class_tables::ClassHeads;
use fault_words::FaultWord;
use static_types::ValueType;
use std::alloc::Global;
use type_names::{TreeFault, WalkFault};
use typed_program::{Conversion, TypedExpr};
use typed_values::{Kind, Role, Typed, conversion, converted};

// What an instance has to be where a cast goes down.
#[derive(Clone, Copy, Drop)]
pub enum Down {
    Class(usize),
    Exception(ExceptionClass),
}

fn down_type(to: &ValueType) -> Option<Down>
    ensures { result ≡ spec.down_type (out-ValueType to.now) }
{
    match to {
        ValueType::Class(c) => Some(Down::Class(*c)),
        ValueType::Exception(class) => Some(Down::Exception(*class)),
        _ => None,
    }
}

fn down_to(lines: &ClassHeads, from: &Kind, to: &ValueType) -> Option<Down>
    ensures { result ≡ spec.down_to lines.now.heads from.now to.now }
{
    match from {
        Kind::Is(kind) => {
            if lines.fits(to, kind) {
                down_type(to)
            } else {
                None
            }
        }
        _ => None,
    }
}

// How a value is cast.
#[derive(Clone, Copy, Drop)]
pub enum Casting {
    By(Conversion),
    Down(Down),
}

fn down_at(down: Option<Down>, at: usize) -> Result<Casting, TreeFault>
    ensures { Tells (spec.down_or down at) result }
{
    match down {
        Some(to) => Ok(Casting::Down(to)),
        None => Err(TreeFault::new(FaultWord::WrongType, at)),
    }
}

fn cast_how(lines: &ClassHeads, value: &Typed, to: &ValueType) -> Result<Casting, TreeFault>
    ensures { Tells (spec.cast_how lines.now.heads value.now to.now) result }
{
    match conversion(lines, &value.kind, to) {
        Some(how) => Ok(Casting::By(how)),
        None => down_at(down_to(lines, &value.kind, to), value.at),
    }
}

fn cast_tree(
    alloc: Global,
    casting: Casting,
    tree: Boxed<TypedExpr>,
) -> Result<Boxed<TypedExpr>, NoMemory>
    ensures { IfOk result (λ t. t ≡ spec.cast_tree casting tree) }
{
    match casting {
        Casting::By(how) => converted(alloc, how, tree),
        Casting::Down(Down::Class(c)) => Boxed::new(alloc, TypedExpr::Cast(c, tree)),
        Casting::Down(Down::Exception(class)) => {
            Boxed::new(alloc, TypedExpr::CastException(class, tree))
        }
    }
}

fn cast_value(
    alloc: Global,
    at: usize,
    to: ValueType,
    casting: Casting,
    tree: Boxed<TypedExpr>,
) -> Result<Typed, WalkFault>
    ensures { Comes (Gives (spec.cast_value at to casting tree)) result }
{
    let tree = cast_tree(alloc, casting, tree)?;
    Ok(Typed {
        at,
        kind: Kind::Is(to),
        role: Role::Plain,
        tree,
    })
}

/// A cast to a type, which begins at this byte: what fits the type is converted, and an instance may be cast to a class
/// that fits its own. `WrongType` stands at the value.
pub fn cast_to(
    alloc: Global,
    lines: &ClassHeads,
    at: usize,
    to: ValueType,
    value: Typed,
) -> Result<Typed, WalkFault>
    ensures { Comes (spec.cast_to lines.now.heads at to value) result }
{
    let casting = cast_how(lines, &value, &to)?;
    cast_value(alloc, at, to, casting, value.tree)
}
