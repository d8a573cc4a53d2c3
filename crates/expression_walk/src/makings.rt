// What `new` makes.

ghost use Rattle.std.specs.Prelude.{◌≡◌, [], map, option_map};
ghost use Rattle.type_names.specs.Walks.{Comes, all};
ghost use Rattle.expression_walk.specs.Expressions as spec;
ghost use Rattle.expression_walk.specs.Views.{sight};
ghost use Rattle.expression_walk.specs.Gatherings.{Gathers};

use crate::view::View;
use crate::walk::{value, values};
use apex_list::{Boxed, Items};
use apex_syntax::{Expr, FieldValue, NewItem, NewPart, TypeTree};
use apex_text::Span;
use new_values::{
    OpenRecord, bare_item, field_named, filled_with, filling_of, mapped_with, pair_item, record_of,
    record_with, with_value,
};
use static_types::ValueType;
use std::alloc::Global;
use type_names::{WalkFault, type_of};
use typed_calls::{made_with, maker_of};
use typed_program::{CollectionKind, TypedExpr, TypedItem};
use typed_values::Typed;

// The type whose items are due.
#[derive(Drop)]
pub struct Wanted<'a> {
    pub kind: &'a ValueType,
}

#[cycle(expr)]
pub fn new(
    alloc: Global,
    view: &View,
    tree: &Expr,
    span: Span,
    kind: &TypeTree,
    part: &NewPart,
) -> Result<Typed, WalkFault>
    requires { tree.now ≡ Expr.New span kind.now part.now }
    ensures { Comes (spec.bare (sight view.now) tree.now) result }
{
    let setting = view.setting;
    let type_at = kind.span.from;
    let kind = type_of(alloc, &setting.names, kind)?;
    new_part(alloc, view, part, span.from, type_at, kind)
}

#[cycle(expr)]
fn new_part(
    alloc: Global,
    view: &View,
    tree: &NewPart,
    at: usize,
    type_at: usize,
    kind: ValueType,
) -> Result<Typed, WalkFault>
    ensures { Comes (spec.new_part (sight view.now) tree.now at type_at kind) result }
{
    match tree {
        NewPart::Args(_, trees) => made(alloc, view, trees.as_slice(), at, type_at, kind),
        NewPart::Fields(_, trees) => {
            let object = record_of(&kind, type_at)?;
            record(alloc, view, trees.as_slice(), at, object)
        }
        NewPart::Items(_, trees) => {
            let filling = filling_of(&kind, type_at)?;
            filled(alloc, view, trees.as_slice(), at, kind, filling)
        }
    }
}

#[cycle(expr)]
fn made(
    alloc: Global,
    view: &View,
    trees: &[Expr],
    at: usize,
    type_at: usize,
    kind: ValueType,
) -> Result<Typed, WalkFault>
    ensures { Comes (spec.made_by (sight view.now) at type_at kind (map (spec.bare (sight view.now)) trees.now)) result }
{
    let setting = view.setting;
    let maker = maker_of(alloc, setting, &kind, type_at, trees.len())?;
    let args = values(alloc, view, trees)?;
    made_with(alloc, setting, at, kind, maker, type_at, args)
}

#[cycle(expr)]
fn record(
    alloc: Global,
    view: &View,
    trees: &[FieldValue],
    at: usize,
    object: usize,
) -> Result<Typed, WalkFault>
    ensures { Comes (spec.record_by (sight view.now) at (map (spec.field (sight view.now)) trees.now) object) result }
{
    let given = fields(alloc, view, trees, object)?;
    Ok(record_with(alloc, at, object, given.pairs)?)
}

#[cycle(expr)]
fn fields(
    alloc: Global,
    view: &View,
    trees: &[FieldValue],
    object: usize,
) -> Result<OpenRecord, WalkFault>
    ensures { Gathers (spec.fields_from object (map (spec.field (sight view.now)) trees.now) []) result }
{
    let mut given = OpenRecord::new(alloc);
    for tree in trees {
        given = field(alloc, view, tree, object, given)?;
    }
    Ok(given)
}

#[cycle(expr)]
fn field(
    alloc: Global,
    view: &View,
    tree: &FieldValue,
    object: usize,
    given: OpenRecord,
) -> Result<OpenRecord, WalkFault>
    ensures { Gathers (spec.field (sight view.now) tree.now object given.pairs) result }
{
    let setting = view.setting;
    let field = field_named(setting.words, object, &given, &tree.field)?;
    let value = value(alloc, view, tree.value.get())?;
    let tree = with_value(alloc, setting.lines, field, value)?;
    Ok(given.with(field.field, tree)?)
}

#[cycle(expr)]
fn item_value(
    alloc: Global,
    view: &View,
    tree: &Option<Boxed<Expr>>,
) -> Result<Option<Typed>, WalkFault>
    ensures { Comes (spec.maybe (option_map (spec.expression (sight view.now)) tree.now)) result }
{
    match tree {
        Some(tree) => {
            let value = value(alloc, view, tree.get())?;
            Ok(Some(value))
        }
        None => Ok(None),
    }
}

#[cycle(expr)]
fn item(
    alloc: Global,
    view: &View,
    tree: &NewItem,
    wanted: &Wanted,
) -> Result<Boxed<TypedExpr>, WalkFault>
    ensures { Comes (spec.item_in (sight view.now) wanted.now.kind.now (spec.item (sight view.now) tree.now)) result }
{
    let setting = view.setting;
    let item = value(alloc, view, tree.item.get())?;
    let value = item_value(alloc, view, &tree.value)?;
    bare_item(alloc, setting.lines, wanted.kind, item, value)
}

#[cycle(expr)]
fn items(
    alloc: Global,
    view: &View,
    trees: &[NewItem],
    wanted: &Wanted,
) -> Result<Items<TypedExpr>, WalkFault>
    ensures { Comes (all (spec.items_in (sight view.now) wanted.now.kind.now (map (spec.item (sight view.now)) trees.now))) result }
{
    let mut items = Items::new(alloc);
    for tree in trees {
        let item = item(alloc, view, tree, wanted)?;
        items.push(item.into_value())?;
    }
    Ok(items)
}

#[cycle(expr)]
fn pair(alloc: Global, view: &View, tree: &NewItem, wanted: &Wanted) -> Result<TypedItem, WalkFault>
    ensures { Comes (spec.pair_in (sight view.now) wanted.now.kind.now (spec.item (sight view.now) tree.now)) result }
{
    let setting = view.setting;
    let item = value(alloc, view, tree.item.get())?;
    let value = item_value(alloc, view, &tree.value)?;
    pair_item(alloc, setting.lines, wanted.kind, item, value)
}

#[cycle(expr)]
fn pairs(
    alloc: Global,
    view: &View,
    trees: &[NewItem],
    wanted: &Wanted,
) -> Result<Items<TypedItem>, WalkFault>
    ensures { Comes (all (spec.pairs_in (sight view.now) wanted.now.kind.now (map (spec.item (sight view.now)) trees.now))) result }
{
    let mut pairs = Items::new(alloc);
    for tree in trees {
        let pair = pair(alloc, view, tree, wanted)?;
        pairs.push(pair)?;
    }
    Ok(pairs)
}

#[cycle(expr)]
fn filled(
    alloc: Global,
    view: &View,
    trees: &[NewItem],
    at: usize,
    kind: ValueType,
    filling: CollectionKind,
) -> Result<Typed, WalkFault>
    ensures { Comes (spec.filled_by (sight view.now) at kind (map (spec.item (sight view.now)) trees.now) filling) result }
{
    let wanted = Wanted { kind: &kind };
    match filling {
        CollectionKind::Map(key) => {
            let pairs = pairs(alloc, view, trees, &wanted)?;
            Ok(mapped_with(alloc, at, kind, key, pairs)?)
        }
        filling => {
            let items = items(alloc, view, trees, &wanted)?;
            Ok(filled_with(alloc, at, kind, filling, items)?)
        }
    }
}
