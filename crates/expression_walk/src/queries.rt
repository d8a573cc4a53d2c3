// Queries.

ghost use Rattle.std.specs.Prelude.{◌≡◌, map, option_map};
ghost use Rattle.type_names.specs.Walks.{Comes};
ghost use Rattle.query_terms.specs.Besides.{Adds};
ghost use Rattle.expression_walk.specs.Expressions as spec;
ghost use Rattle.expression_walk.specs.Views.{sight};
ghost use Rattle.expression_walk.specs.Gatherings.{Grows};

use crate::conditions::{bound_value, cond};
use crate::view::View;
use apex_list::{Boxed, Items};
use apex_num::Cell;
use apex_rows::{Query, Term};
use apex_syntax::{CondTree, CountTree, Expr, QueryTree, SelTree, SelectTree};
use apex_text::Span;
use query_terms::{
    OpenQuery, children_named, closed_query, counting, field_path, object_named, opened,
    query_value, with_child, with_cond, with_limit, with_offset, with_order, with_path,
};
use static_types::Primitive;
use std::alloc::Global;
use type_names::WalkFault;
use typed_program::TypedBind;
use typed_values::Typed;

#[cycle(expr)]
pub fn whole_query(
    alloc: Global,
    view: &View,
    tree: &Expr,
    span: Span,
    inner: &QueryTree,
) -> Result<Typed, WalkFault>
    requires { tree.now ≡ Expr.Query span inner.now }
    ensures { Comes (spec.bare (sight view.now) tree.now) result }
{
    let setting = view.setting;
    let object = object_named(setting.names.objects, &inner.object)?;
    let mut binds = Items::new(alloc);
    let query = query(alloc, view, inner, object, &mut binds)?;
    Ok(query_value(alloc, span.from, query, binds)?)
}

#[cycle(expr)]
fn query(
    alloc: Global,
    view: &View,
    tree: &QueryTree,
    object: usize,
    binds: &mut Items<TypedBind>,
) -> Result<Boxed<Query>, WalkFault>
    ensures { Adds ((spec.query (sight view.now) tree.now).from object binds.old) result binds.new }
{
    let mut so_far = opened(alloc, object);
    clauses(alloc, view, tree, &mut so_far, binds)?;
    Ok(closed_query(alloc, so_far, tree.locked)?)
}

#[cycle(expr)]
fn clauses(
    alloc: Global,
    view: &View,
    tree: &QueryTree,
    so_far: &mut OpenQuery,
    binds: &mut Items<TypedBind>,
) -> Result<(), WalkFault>
    ensures { Grows (spec.clauses_of (sight view.now) tree.now so_far.old binds.old) result so_far.new binds.new }
{
    let setting = view.setting;
    select(alloc, view, &tree.select, so_far, binds)?;
    filtered(alloc, view, &tree.cond, so_far, binds)?;
    with_order(alloc, setting.words, &tree.order, so_far)?;
    limited(alloc, view, &tree.limit, so_far, binds)?;
    skipped(alloc, view, &tree.offset, so_far, binds)
}

#[cycle(expr)]
fn select(
    alloc: Global,
    view: &View,
    tree: &SelectTree,
    so_far: &mut OpenQuery,
    binds: &mut Items<TypedBind>,
) -> Result<(), WalkFault>
    ensures { Grows (spec.select (sight view.now) tree.now so_far.old binds.old) result so_far.new binds.new }
{
    match tree {
        SelectTree::Count(_) => {
            counting(so_far);
            Ok(())
        }
        SelectTree::Items(trees) => sels(alloc, view, trees.as_slice(), so_far, binds),
    }
}

#[cycle(expr)]
fn sels(
    alloc: Global,
    view: &View,
    trees: &[SelTree],
    so_far: &mut OpenQuery,
    binds: &mut Items<TypedBind>,
) -> Result<(), WalkFault>
    ensures { Grows (spec.sels_from (map (spec.sel (sight view.now)) trees.now) so_far.old binds.old) result so_far.new binds.new }
{
    for tree in trees {
        sel(alloc, view, tree, so_far, binds)?;
    }
    Ok(())
}

#[cycle(expr)]
fn sel(
    alloc: Global,
    view: &View,
    tree: &SelTree,
    so_far: &mut OpenQuery,
    binds: &mut Items<TypedBind>,
) -> Result<(), WalkFault>
    ensures { Grows (spec.sel (sight view.now) tree.now so_far.old binds.old) result so_far.new binds.new }
{
    let setting = view.setting;
    match tree {
        SelTree::Path(path) => {
            let found = field_path(alloc, setting.words, so_far.object, path)?;
            Ok(with_path(so_far, found.path)?)
        }
        SelTree::Query(span, inner) => {
            children(alloc, view, tree, *span, inner.get(), so_far, binds)
        }
    }
}

#[cycle(expr)]
fn children(
    alloc: Global,
    view: &View,
    tree: &SelTree,
    span: Span,
    inner: &QueryTree,
    so_far: &mut OpenQuery,
    binds: &mut Items<TypedBind>,
) -> Result<(), WalkFault>
    requires { tree.now ≡ SelTree.Query span inner.now }
    ensures { Grows (spec.sel (sight view.now) tree.now so_far.old binds.old) result so_far.new binds.new }
{
    let setting = view.setting;
    let child = children_named(setting.words, so_far.object, &inner.object)?;
    let query = query(alloc, view, inner, child.object, binds)?;
    Ok(with_child(so_far, child.lookup, query)?)
}

#[cycle(expr)]
fn filtered(
    alloc: Global,
    view: &View,
    tree: &Option<Boxed<CondTree>>,
    so_far: &mut OpenQuery,
    binds: &mut Items<TypedBind>,
) -> Result<(), WalkFault>
    ensures { Grows (spec.filtered (option_map (spec.condition (sight view.now)) tree.now) so_far.old binds.old) result so_far.new binds.new }
{
    match tree {
        None => Ok(()),
        Some(tree) => {
            let found = cond(alloc, view, tree.get(), so_far.object, binds)?;
            with_cond(so_far, found);
            Ok(())
        }
    }
}

#[cycle(expr)]
fn limited(
    alloc: Global,
    view: &View,
    tree: &Option<CountTree>,
    so_far: &mut OpenQuery,
    binds: &mut Items<TypedBind>,
) -> Result<(), WalkFault>
    ensures { Grows (spec.limited (option_map (spec.count (sight view.now)) tree.now) so_far.old binds.old) result so_far.new binds.new }
{
    match tree {
        None => Ok(()),
        Some(tree) => {
            let term = count(alloc, view, tree, binds)?;
            with_limit(so_far, term);
            Ok(())
        }
    }
}

#[cycle(expr)]
fn skipped(
    alloc: Global,
    view: &View,
    tree: &Option<CountTree>,
    so_far: &mut OpenQuery,
    binds: &mut Items<TypedBind>,
) -> Result<(), WalkFault>
    ensures { Grows (spec.skipped (option_map (spec.count (sight view.now)) tree.now) so_far.old binds.old) result so_far.new binds.new }
{
    match tree {
        None => Ok(()),
        Some(tree) => {
            let term = count(alloc, view, tree, binds)?;
            with_offset(so_far, term);
            Ok(())
        }
    }
}

#[cycle(expr)]
fn count(
    alloc: Global,
    view: &View,
    tree: &CountTree,
    binds: &mut Items<TypedBind>,
) -> Result<Term, WalkFault>
    ensures { Adds (spec.count (sight view.now) tree.now binds.old) result binds.new }
{
    match tree {
        CountTree::Whole(_, n) => Ok(Term::Given(Cell::Whole(i64::from(*n)))),
        CountTree::Bind(tree) => bound_value(alloc, view, tree, Primitive::Integer, binds),
    }
}
