// Conditions of queries, and the values in them.

ghost use Rattle.std.specs.Prelude.{◌≡◌, [], map};
ghost use Rattle.type_names.specs.Walks.{Comes};
ghost use Rattle.query_terms.specs.Besides.{Adds};
ghost use Rattle.expression_walk.specs.Expressions as spec;
ghost use Rattle.expression_walk.specs.Views.{sight};

use crate::view::View;
use crate::walk::value;
use apex_list::{Boxed, Items};
use apex_num::Cell;
use apex_rows::{Cond, Term, Terms};
use apex_syntax::{BindTree, CompareOp, CondTree, Expr, ListTree, PathTree, ValueTree};
use apex_text::Span;
use fault_words::FaultWord;
use query_terms::{
    bound, bound_list, compared_path, cond_op, day_cell, field_path, given, moment_cell,
    number_cell, text_cell, truth_cell,
};
use static_types::Primitive;
use std::alloc::Global;
use type_names::{TreeFault, WalkFault};
use typed_program::TypedBind;
use typed_values::Typed;

#[cycle(expr)]
pub fn cond(
    alloc: Global,
    view: &View,
    tree: &CondTree,
    object: usize,
    binds: &mut Items<TypedBind>,
) -> Result<Boxed<Cond>, WalkFault>
    ensures { Adds (spec.condition (sight view.now) tree.now object binds.old) result binds.new }
{
    match tree {
        CondTree::All(span, trees) => {
            all_of(alloc, view, tree, *span, trees.as_slice(), object, binds)
        }
        CondTree::Any(span, trees) => {
            any_of(alloc, view, tree, *span, trees.as_slice(), object, binds)
        }
        CondTree::Not(span, inner) => not(alloc, view, tree, *span, inner.get(), object, binds),
        CondTree::Paren(_, inner) => cond(alloc, view, inner.get(), object, binds),
        CondTree::Compare(span, path, op, value) => {
            compare(alloc, view, tree, *span, path, *op, value, object, binds)
        }
        CondTree::Within(span, path, negated, values) => {
            within(
                alloc, view, tree, *span, path, *negated, values, object, binds,
            )
        }
    }
}

#[cycle(expr)]
fn conds(
    alloc: Global,
    view: &View,
    trees: &[CondTree],
    object: usize,
    binds: &mut Items<TypedBind>,
) -> Result<Items<Cond>, WalkFault>
    ensures { Adds (spec.conds_from (map (λ c. c object) (map (spec.condition (sight view.now)) trees.now)) [] binds.old) result binds.new }
{
    let mut conds = Items::new(alloc);
    for tree in trees {
        let cond = cond(alloc, view, tree, object, binds)?;
        conds.push(cond.into_value())?;
    }
    Ok(conds)
}

#[cycle(expr)]
fn all_of(
    alloc: Global,
    view: &View,
    tree: &CondTree,
    span: Span,
    trees: &[CondTree],
    object: usize,
    binds: &mut Items<TypedBind>,
) -> Result<Boxed<Cond>, WalkFault>
    requires { tree.now ≡ CondTree.All span trees.now }
    ensures { Adds (spec.condition (sight view.now) tree.now object binds.old) result binds.new }
{
    let conds = conds(alloc, view, trees, object, binds)?;
    Ok(Boxed::new(alloc, Cond::All(conds))?)
}

#[cycle(expr)]
fn any_of(
    alloc: Global,
    view: &View,
    tree: &CondTree,
    span: Span,
    trees: &[CondTree],
    object: usize,
    binds: &mut Items<TypedBind>,
) -> Result<Boxed<Cond>, WalkFault>
    requires { tree.now ≡ CondTree.Any span trees.now }
    ensures { Adds (spec.condition (sight view.now) tree.now object binds.old) result binds.new }
{
    let conds = conds(alloc, view, trees, object, binds)?;
    Ok(Boxed::new(alloc, Cond::Any(conds))?)
}

#[cycle(expr)]
fn not(
    alloc: Global,
    view: &View,
    tree: &CondTree,
    span: Span,
    inner: &CondTree,
    object: usize,
    binds: &mut Items<TypedBind>,
) -> Result<Boxed<Cond>, WalkFault>
    requires { tree.now ≡ CondTree.Not span inner.now }
    ensures { Adds (spec.condition (sight view.now) tree.now object binds.old) result binds.new }
{
    let inner = cond(alloc, view, inner, object, binds)?;
    Ok(Boxed::new(alloc, Cond::Not(inner))?)
}

#[cycle(expr)]
fn compare(
    alloc: Global,
    view: &View,
    tree: &CondTree,
    span: Span,
    path: &PathTree,
    op: CompareOp,
    value: &ValueTree,
    object: usize,
    binds: &mut Items<TypedBind>,
) -> Result<Boxed<Cond>, WalkFault>
    requires { tree.now ≡ CondTree.Compare span path.now op value.now }
    ensures { Adds (spec.condition (sight view.now) tree.now object binds.old) result binds.new }
{
    let setting = view.setting;
    let found = compared_path(alloc, setting.words, object, path, op)?;
    let term = term(alloc, view, value, found.kind, binds)?;
    Ok(Boxed::new(alloc, Cond::Compare(found.path, cond_op(op), term))?)
}

#[cycle(expr)]
fn within(
    alloc: Global,
    view: &View,
    tree: &CondTree,
    span: Span,
    path: &PathTree,
    negated: bool,
    values: &ListTree,
    object: usize,
    binds: &mut Items<TypedBind>,
) -> Result<Boxed<Cond>, WalkFault>
    requires { tree.now ≡ CondTree.Within span path.now negated values.now }
    ensures { Adds (spec.condition (sight view.now) tree.now object binds.old) result binds.new }
{
    let setting = view.setting;
    let found = field_path(alloc, setting.words, object, path)?;
    let terms = list(alloc, view, values, found.kind, binds)?;
    Ok(Boxed::new(alloc, Cond::Within(found.path, negated, terms))?)
}

#[cycle(expr)]
fn list(
    alloc: Global,
    view: &View,
    tree: &ListTree,
    to: Primitive,
    binds: &mut Items<TypedBind>,
) -> Result<Terms, WalkFault>
    ensures { Adds (spec.list (sight view.now) tree.now to binds.old) result binds.new }
{
    let setting = view.setting;
    match tree {
        ListTree::Values(span, trees) => {
            list_values(alloc, view, tree, *span, trees.as_slice(), to, binds)
        }
        ListTree::Bind(tree) => {
            let value = bind(alloc, view, tree)?;
            bound_list(setting.lines, to, bind_at(view, tree), value, binds)
        }
    }
}

#[cycle(expr)]
fn list_values(
    alloc: Global,
    view: &View,
    tree: &ListTree,
    span: Span,
    trees: &[ValueTree],
    to: Primitive,
    binds: &mut Items<TypedBind>,
) -> Result<Terms, WalkFault>
    requires { tree.now ≡ ListTree.Values span trees.now }
    ensures { Adds (spec.list (sight view.now) tree.now to binds.old) result binds.new }
{
    let terms = terms(alloc, view, trees, to, binds)?;
    Ok(Terms::Given(terms))
}

#[cycle(expr)]
fn terms(
    alloc: Global,
    view: &View,
    trees: &[ValueTree],
    to: Primitive,
    binds: &mut Items<TypedBind>,
) -> Result<Items<Term>, WalkFault>
    ensures { Adds (spec.terms_from (map (λ v. v to) (map (spec.value (sight view.now)) trees.now)) [] binds.old) result binds.new }
{
    let mut terms = Items::new(alloc);
    for tree in trees {
        let term = term(alloc, view, tree, to, binds)?;
        terms.push(term)?;
    }
    Ok(terms)
}

#[cycle(expr)]
fn term(
    alloc: Global,
    view: &View,
    tree: &ValueTree,
    to: Primitive,
    binds: &mut Items<TypedBind>,
) -> Result<Term, WalkFault>
    ensures { Adds (spec.value (sight view.now) tree.now to binds.old) result binds.new }
{
    match tree {
        ValueTree::Number(span, minus, number) => {
            Ok(given(number_cell(to, *minus, *number), span.from)?)
        }
        ValueTree::Text(span, bytes) => {
            let cell = text_cell(alloc, to, bytes)?;
            Ok(given(cell, span.from)?)
        }
        ValueTree::Date(span, day) => Ok(given(day_cell(to, *day), span.from)?),
        ValueTree::Moment(span, second) => Ok(given(moment_cell(to, *second), span.from)?),
        ValueTree::Bool(span, truth) => Ok(given(truth_cell(to, *truth), span.from)?),
        ValueTree::Null(_) => Ok(Term::Given(Cell::Null)),
        ValueTree::Bind(tree) => bound_value(alloc, view, tree, to, binds),
    }
}

#[cycle(expr)]
pub fn bound_value(
    alloc: Global,
    view: &View,
    tree: &BindTree,
    to: Primitive,
    binds: &mut Items<TypedBind>,
) -> Result<Term, WalkFault>
    ensures { Adds (spec.bound_to (sight view.now) to (spec.bind (sight view.now) tree.now) binds.old) result binds.new }
{
    let setting = view.setting;
    let value = bind(alloc, view, tree)?;
    bound(alloc, setting.lines, to, bind_at(view, tree), value, binds)
}

// Where the colon of a bind stands.
fn bind_at(view: &View, tree: &BindTree) -> usize
    ensures { result ≡ (spec.bind (sight view.now) tree.now).at }
{
    match tree {
        BindTree::Tokens(range) => range.span.from,
        BindTree::Expr(span, _) => span.from,
    }
}

#[cycle(expr)]
fn bind(alloc: Global, view: &View, tree: &BindTree) -> Result<Typed, WalkFault>
    ensures { Comes (spec.bind (sight view.now) tree.now).value result }
{
    match tree {
        BindTree::Tokens(range) => {
            Err(TreeFault::new(FaultWord::BadQuery, range.span.from).into())
        }
        BindTree::Expr(_, inner) => value(alloc, view, inner.get()),
    }
}
