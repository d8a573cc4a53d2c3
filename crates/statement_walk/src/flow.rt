// Values that statements read, catch and answer.

ghost use Rattle.std.specs.Prelude.{◌≡◌, IfOk};
ghost use Rattle.static_types.specs.declared.kind.ValueType.TheViews.{out-ValueType};
ghost use Rattle.type_names.specs.TypeTrees.{known};
ghost use Rattle.type_names.specs.Walks.{Comes, Tells};
ghost use Rattle.statement_walk.specs.Flows as spec;

use apex_list::Boxed;
use apex_num::NoMemory;
use apex_syntax::Word;
use class_tables::{ClassHeads, ResultHead};
use expression_walk::is_value;
use fault_words::FaultWord;
use static_types::ValueType;
use std::alloc::Global;
use type_names::{TreeFault, TypeNames, WalkFault, named_type};
use typed_program::{Conversion, TypedExpr};
use typed_values::{Kind, Typed, conversion, stored};

/// The tree of an expression that is a statement. `WrongType` at it where it is a name that is no value, or `super`.
pub fn read(value: Typed) -> Result<Boxed<TypedExpr>, TreeFault>
    ensures { Tells (spec.read value) result }
{
    if is_value(value.role) {
        Ok(value.tree)
    } else {
        Err(TreeFault::new(FaultWord::WrongType, value.at))
    }
}

fn each_type(
    lines: &ClassHeads,
    kind: &ValueType,
    to: &ValueType,
) -> Result<Option<Conversion>, NoMemory>
    ensures { IfOk result (λ how. how ≡ spec.each_type lines.now.heads (out-ValueType kind.now) to.now) }
{
    match kind {
        ValueType::List(item) => {
            let item = Kind::Is(item.get().copy()?);
            Ok(conversion(lines, &item, to))
        }
        ValueType::Set(p) => {
            let item = Kind::Is(ValueType::Primitive(*p));
            Ok(conversion(lines, &item, to))
        }
        _ => Ok(None),
    }
}

fn each_kind(
    lines: &ClassHeads,
    kind: &Kind,
    to: &ValueType,
) -> Result<Option<Conversion>, NoMemory>
    ensures { IfOk result (λ how. how ≡ spec.each_kind lines.now.heads kind.now to.now) }
{
    match kind {
        Kind::Is(kind) => each_type(lines, kind, to),
        Kind::Null | Kind::Faulty => Ok(Some(Conversion::Same)),
        Kind::Nothing => Ok(None),
    }
}

/// What a for-each goes through, and how each item becomes the value of its variable, which is of this type. `WrongType`
/// at the value where it is no list or set of items that fit.
pub fn each(
    lines: &ClassHeads,
    to: &ValueType,
    value: Typed,
) -> Result<(Conversion, Boxed<TypedExpr>), WalkFault>
    ensures { Comes (spec.each lines.now.heads to.now value) result }
{
    match each_kind(lines, &value.kind, to)? {
        Some(how) => Ok((how, value.tree)),
        None => Err(TreeFault::new(FaultWord::WrongType, value.at).into()),
    }
}

fn is_thrown(lines: &ClassHeads, kind: &ValueType) -> bool
    ensures { result ≡ spec.is_thrown lines.now.heads (out-ValueType kind.now) }
{
    match kind {
        ValueType::Class(class) => lines.is_exception(*class),
        ValueType::AnyException | ValueType::Exception(_) => true,
        _ => false,
    }
}

/// The type that a `catch` names, which stands at this byte. `UnknownType` or `DoubleRefused` at it where it is none, and
/// `WrongType` where it is no exception.
pub fn caught(
    names: &TypeNames,
    lines: &ClassHeads,
    class: &Word,
    member: &Option<Word>,
) -> Result<ValueType, TreeFault>
    ensures { Tells (spec.caught (known names.now) lines.now.heads class.now member.now) result }
{
    let at = class.span.from;
    let kind = named_type(names, &class.name, member, at)?;
    if is_thrown(lines, &kind) {
        Ok(kind)
    } else {
        Err(TreeFault::new(FaultWord::WrongType, at))
    }
}

// A value whose type is at fault elsewhere may be any.
fn any_value(value: Typed) -> Result<Boxed<TypedExpr>, TreeFault>
    ensures { Tells (spec.any_value value) result }
{
    match value.kind {
        Kind::Nothing => Err(TreeFault::new(FaultWord::WrongType, value.at)),
        _ => Ok(value.tree),
    }
}

fn returned_value(
    alloc: Global,
    lines: &ClassHeads,
    due: &ResultHead,
    value: Typed,
) -> Result<Boxed<TypedExpr>, WalkFault>
    ensures { Comes (spec.returned_value lines.now.heads due.now value) result }
{
    match due {
        ResultHead::Void => Err(TreeFault::new(FaultWord::WrongType, value.at).into()),
        ResultHead::Value(kind) => stored(alloc, lines, value, kind),
        ResultHead::Faulty => Ok(any_value(value)?),
    }
}

fn returned_nothing(due: &ResultHead, at: usize) -> Result<Option<Boxed<TypedExpr>>, TreeFault>
    ensures { Tells (spec.returned_nothing due.now at) result }
{
    match due {
        ResultHead::Void => Ok(None),
        ResultHead::Value(_) | ResultHead::Faulty => Err(TreeFault::new(FaultWord::WrongType, at)),
    }
}

/// What `return`, which stands at this byte, answers where this is due; a query itself may stand for its only record.
/// `WrongType` at the value where it doesn't fit or none is due, and at `return` where one is due and none stands there.
pub fn returned(
    alloc: Global,
    lines: &ClassHeads,
    due: &ResultHead,
    at: usize,
    value: Option<Typed>,
) -> Result<Option<Boxed<TypedExpr>>, WalkFault>
    ensures { Comes (spec.returned lines.now.heads due.now at value) result }
{
    match value {
        Some(value) => {
            let tree = returned_value(alloc, lines, due, value)?;
            Ok(Some(tree))
        }
        None => Ok(returned_nothing(due, at)?),
    }
}
