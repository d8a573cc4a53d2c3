// What a statement saves.

ghost use Rattle.std.specs.Prelude.{◌≡◌};
ghost use Rattle.static_types.specs.declared.kind.ValueType.TheViews.{out-ValueType};
ghost use Rattle.type_names.specs.Walks.{Tells};
ghost use Rattle.statement_walk.specs.Saves as spec;

use apex_list::Boxed;
use fault_words::FaultWord;
use static_types::ValueType;
use type_names::TreeFault;
use typed_program::{Saved, TypedExpr};
use typed_values::{Kind, Typed};

fn saved_items(item: &ValueType) -> Option<Saved>
    ensures { result ≡ spec.saved_items (out-ValueType item.now) }
{
    match item {
        ValueType::Record(object) => Some(Saved::Many(*object)),
        _ => None,
    }
}

fn saved_type(kind: &ValueType) -> Option<Saved>
    ensures { result ≡ spec.saved_type (out-ValueType kind.now) }
{
    match kind {
        ValueType::Record(object) => Some(Saved::One(*object)),
        ValueType::List(item) => saved_items(item.get()),
        _ => None,
    }
}

fn saved_kind(kind: &Kind) -> Option<Saved>
    ensures { result ≡ spec.saved_kind kind.now }
{
    match kind {
        Kind::Is(kind) => saved_type(kind),
        Kind::Null | Kind::Faulty => Some(Saved::Nothing),
        Kind::Nothing => None,
    }
}

/// What is saved where a value stands behind `insert` and its like: a record, or a list of records. `WrongType` at the
/// value where it is something else.
pub fn saved(value: Typed) -> Result<(Saved, Boxed<TypedExpr>), TreeFault>
    ensures { Tells (spec.saved value) result }
{
    match saved_kind(&value.kind) {
        Some(saved) => Ok((saved, value.tree)),
        None => Err(TreeFault::new(FaultWord::WrongType, value.at)),
    }
}
