// New collections with their items.

ghost use Rattle.std.specs.Prelude.{◌≡◌, IfOk};
ghost use Rattle.static_types.specs.declared.kind.ValueType.TheViews.{out-ValueType};
ghost use Rattle.type_names.specs.Walks.{Comes, Tells};
ghost use Rattle.new_values.specs.Fillings as spec;

use apex_list::{Boxed, Items};
use apex_num::NoMemory;
use class_tables::ClassHeads;
use fault_words::FaultWord;
use static_types::{Primitive, ValueType};
use std::alloc::Global;
use type_names::{TreeFault, WalkFault};
use typed_program::{CollectionKind, TypedExpr, TypedItem, TypedNew};
use typed_values::{Kind, Typed, fitted};

/// What the items of a new collection of a type make; `WrongType` at the type, which stands at this byte, where it is
/// that of no collection.
pub fn filling_of(kind: &ValueType, at: usize) -> Result<CollectionKind, TreeFault>
    ensures { Tells (spec.filling_of (out-ValueType kind.now) at) result }
{
    match kind {
        ValueType::List(_) => Ok(CollectionKind::List),
        ValueType::Set(p) => Ok(CollectionKind::Set(*p)),
        ValueType::Map(key, _) => Ok(CollectionKind::Map(*key)),
        _ => Err(TreeFault::new(FaultWord::WrongType, at)),
    }
}

fn item_tree(
    alloc: Global,
    lines: &ClassHeads,
    kind: &ValueType,
    item: Typed,
) -> Result<Boxed<TypedExpr>, WalkFault>
    ensures { Comes (spec.item_tree lines.now.heads (out-ValueType kind.now) item) result }
{
    match kind {
        ValueType::List(to) => fitted(alloc, lines, item, to.get()),
        ValueType::Set(p) => fitted(alloc, lines, item, &ValueType::Primitive(*p)),
        _ => Err(TreeFault::new(FaultWord::WrongType, item.at).into()),
    }
}

/// The tree of an item of a new list or set, with its conversion. `WrongType` at it where it doesn't fit, or where it has
/// a value behind `=>`.
pub fn bare_item(
    alloc: Global,
    lines: &ClassHeads,
    kind: &ValueType,
    item: Typed,
    value: Option<Typed>,
) -> Result<Boxed<TypedExpr>, WalkFault>
    ensures { Comes (spec.bare_item lines.now.heads kind.now item value) result }
{
    match value {
        Some(_) => Err(TreeFault::new(FaultWord::WrongType, item.at).into()),
        None => item_tree(alloc, lines, kind, item),
    }
}

fn keyed(
    alloc: Global,
    lines: &ClassHeads,
    key: Primitive,
    to: &ValueType,
    item: Typed,
    value: Typed,
) -> Result<TypedItem, WalkFault>
    ensures { Comes (spec.keyed lines.now.heads key to.now item value) result }
{
    let key = fitted(alloc, lines, item, &ValueType::Primitive(key))?;
    let value = fitted(alloc, lines, value, to)?;
    Ok(TypedItem { key, value })
}

fn pair_tree(
    alloc: Global,
    lines: &ClassHeads,
    kind: &ValueType,
    item: Typed,
    value: Typed,
) -> Result<TypedItem, WalkFault>
    ensures { Comes (spec.pair_tree lines.now.heads (out-ValueType kind.now) item value) result }
{
    match kind {
        ValueType::Map(key, to) => keyed(alloc, lines, *key, to.get(), item, value),
        _ => Err(TreeFault::new(FaultWord::WrongType, item.at).into()),
    }
}

/// The trees of a key of a new map and of its value, with their conversions. `WrongType` at the one that doesn't fit, and
/// at the key where it has no value.
pub fn pair_item(
    alloc: Global,
    lines: &ClassHeads,
    kind: &ValueType,
    item: Typed,
    value: Option<Typed>,
) -> Result<TypedItem, WalkFault>
    ensures { Comes (spec.pair_item lines.now.heads kind.now item value) result }
{
    match value {
        Some(value) => pair_tree(alloc, lines, kind, item, value),
        None => Err(TreeFault::new(FaultWord::WrongType, item.at).into()),
    }
}

/// A new list or set of these items; `new` stands at this byte.
pub fn filled_with(
    alloc: Global,
    at: usize,
    kind: ValueType,
    filling: CollectionKind,
    items: Items<TypedExpr>,
) -> Result<Typed, NoMemory>
    ensures { IfOk result (λ t. t ≡ spec.filled_with at kind filling items) }
{
    let new = Boxed::new(alloc, TypedNew::Collection(filling, items))?;
    Typed::plain(alloc, at, Kind::Is(kind), TypedExpr::New(new))
}

/// A new map of these keys and values; `new` stands at this byte.
pub fn mapped_with(
    alloc: Global,
    at: usize,
    kind: ValueType,
    key: Primitive,
    items: Items<TypedItem>,
) -> Result<Typed, NoMemory>
    ensures { IfOk result (λ t. t ≡ spec.mapped_with at kind key items) }
{
    let new = Boxed::new(alloc, TypedNew::Map(key, items))?;
    Typed::plain(alloc, at, Kind::Is(kind), TypedExpr::New(new))
}
