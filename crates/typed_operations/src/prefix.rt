// Prefix operators, and those that change a number by one.

ghost use Rattle.std.specs.Prelude.{◌≡◌};
ghost use Rattle.type_names.specs.Walks.{Comes, Tells};
ghost use Rattle.typed_operations.specs.Prefixes as spec;

use crate::place::writable;
use crate::{Sort, number_of, sort_of};
use class_tables::ClassHeads;
use fault_words::FaultWord;
use static_types::{Primitive, ValueType};
use std::alloc::Global;
use type_names::{TreeFault, WalkFault};
use typed_program::{Number, StepKind, TypedExpr};
use typed_values::{Kind, Typed, condition};

/// `!` of a condition, which begins at this byte.
pub fn negated(
    alloc: Global,
    lines: &ClassHeads,
    at: usize,
    value: Typed,
) -> Result<Typed, WalkFault>
    ensures { Comes (spec.negated lines.now.heads at value) result }
{
    let tree = condition(alloc, lines, value)?;
    let kind = Kind::Is(ValueType::Primitive(Primitive::Boolean));
    Ok(Typed::plain(alloc, at, kind, TypedExpr::Not(tree))?)
}

fn number_sort(sort: Sort) -> Option<Number>
    ensures { result ≡ spec.number_sort sort }
{
    match sort {
        Sort::Null | Sort::Faulty => Some(Number::Integer),
        Sort::Primitive(p) => number_of(p),
        Sort::Nothing | Sort::Content | Sort::Instance => None,
    }
}

// The type of numbers that a value is of: `null` counts as an Integer.
fn number(value: &Typed) -> Result<Number, TreeFault>
    ensures { Tells (spec.number value.now) result }
{
    match number_sort(sort_of(&value.kind)) {
        Some(n) => Ok(n),
        None => Err(TreeFault::new(FaultWord::WrongType, value.at)),
    }
}

fn settled(kind: Kind) -> Kind
    ensures { result ≡ spec.settled kind }
{
    match kind {
        Kind::Null => Kind::Is(ValueType::Primitive(Primitive::Integer)),
        kind => kind,
    }
}

/// `-` of a number, which begins at this byte.
pub fn opposite(alloc: Global, at: usize, value: Typed) -> Result<Typed, WalkFault>
    ensures { Comes (spec.opposite at value) result }
{
    let n = number(&value)?;
    let tree = TypedExpr::Minus(n, value.tree);
    Ok(Typed::plain(alloc, at, settled(value.kind), tree)?)
}

/// `++` and `--` of a variable that is a number; the whole begins at this byte. `WrongType` comes before `NotWritable`.
pub fn stepped(alloc: Global, at: usize, step: StepKind, value: Typed) -> Result<Typed, WalkFault>
    ensures { Comes (spec.stepped at step value) result }
{
    let kind = number(&value)?;
    let target = writable(alloc, value)?;
    let tree = TypedExpr::Step(step, kind, target.place);
    Ok(Typed::plain(alloc, at, target.kind, tree)?)
}
