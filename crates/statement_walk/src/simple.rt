// Statements without statements in them.

ghost use Rattle.std.specs.Prelude.{◌≡◌, [], option_map};
ghost use Rattle.type_names.specs.Walks.{Comes, Gives, Tells, onward};
ghost use Rattle.typed_program.specs.declared.stmt.TypedStmt.TheVariants as typed;
ghost use Rattle.statement_walk.specs.Scenes.{scene, Threads};
ghost use Rattle.statement_walk.specs.Simples as spec;

use crate::construct::{constructed, own_constructor, parent_constructor};
use crate::flow::{read, returned};
use crate::made::bare;
use crate::save::saved;
use crate::view::BodyView;
use apex_list::{Boxed, Items};
use apex_syntax::{Declarator, DmlOp, Expr, ForStart, TypeTree};
use expression_walk::{View, arguments, expression};
use fault_words::FaultWord;
use local_scopes::{Scope, declare, fresh};
use static_types::ValueType;
use std::alloc::Global;
use type_names::{TreeFault, WalkFault, type_of};
use typed_program::{ParentCall, TypedExpr, TypedLocal, TypedStart, TypedStmt};
use typed_values::{Typed, condition, fitted, stored};

/// An expression with its type.
pub fn value_in(
    alloc: Global,
    view: &BodyView,
    scope: &Scope,
    tree: &Expr,
) -> Result<Typed, WalkFault>
    ensures { Comes (spec.value_in (scene view.now) scope.now tree.now) result }
{
    let sight = View {
        setting: view.setting,
        methods: view.methods,
        scope,
    };
    expression(alloc, &sight, tree)
}

/// A condition.
pub fn tested(
    alloc: Global,
    view: &BodyView,
    scope: &Scope,
    tree: &Expr,
) -> Result<Boxed<TypedExpr>, WalkFault>
    ensures { Comes (spec.tested (scene view.now) scope.now tree.now) result }
{
    let setting = view.setting;
    let value = value_in(alloc, view, scope, tree)?;
    condition(alloc, setting.lines, value)
}

/// The condition of a `for`, where it has one.
pub fn tested_where(
    alloc: Global,
    view: &BodyView,
    scope: &Scope,
    tree: &Option<Boxed<Expr>>,
) -> Result<Option<Boxed<TypedExpr>>, WalkFault>
    ensures { Comes (spec.tested_where (scene view.now) scope.now tree.now) result }
{
    match tree {
        Some(tree) => {
            let tree = tested(alloc, view, scope, tree.get())?;
            Ok(Some(tree))
        }
        None => Ok(None),
    }
}

/// An expression that is a statement.
pub fn read_in(
    alloc: Global,
    view: &BodyView,
    scope: &Scope,
    tree: &Expr,
) -> Result<Boxed<TypedExpr>, WalkFault>
    ensures { Comes (spec.read_in (scene view.now) scope.now tree.now) result }
{
    let value = value_in(alloc, view, scope, tree)?;
    Ok(read(value)?)
}

/// The step of a `for`, where it has one.
pub fn read_where(
    alloc: Global,
    view: &BodyView,
    scope: &Scope,
    tree: &Option<Boxed<Expr>>,
) -> Result<Option<Boxed<TypedExpr>>, WalkFault>
    ensures { Comes (spec.read_where (scene view.now) scope.now tree.now) result }
{
    match tree {
        Some(tree) => {
            let tree = read_in(alloc, view, scope, tree.get())?;
            Ok(Some(tree))
        }
        None => Ok(None),
    }
}

/// The value that a variable of this type is declared with, where there is one.
pub fn initial(
    alloc: Global,
    view: &BodyView,
    scope: &Scope,
    kind: &ValueType,
    tree: &Option<Boxed<Expr>>,
) -> Result<Option<Boxed<TypedExpr>>, WalkFault>
    ensures { Comes (spec.initial (scene view.now) scope.now kind.now tree.now) result }
{
    let setting = view.setting;
    match tree {
        Some(tree) => {
            let value = value_in(alloc, view, scope, tree.get())?;
            let tree = stored(alloc, setting.lines, value, kind)?;
            Ok(Some(tree))
        }
        None => Ok(None),
    }
}

fn declared(
    alloc: Global,
    view: &BodyView,
    kind: &ValueType,
    tree: &Declarator,
    scope: &mut Scope,
) -> Result<TypedLocal, WalkFault>
    ensures { Threads (spec.declared (scene view.now) kind.now tree.now scope.old) result scope.new }
{
    fresh(scope, &tree.name)?;
    let value = initial(alloc, view, scope, kind, &tree.value)?;
    let slot = declare(scope, &tree.name, kind.copy()?)?;
    Ok(TypedLocal { slot, value })
}

fn declared_all(
    alloc: Global,
    view: &BodyView,
    kind: &ValueType,
    trees: &[Declarator],
    scope: &mut Scope,
) -> Result<Items<TypedLocal>, WalkFault>
    ensures { Threads (spec.declared_from (scene view.now) kind.now trees.now [] scope.old) result scope.new }
{
    let mut locals = Items::new(alloc);
    for tree in trees {
        let local = declared(alloc, view, kind, tree, scope)?;
        locals.push(local)?;
    }
    Ok(locals)
}

/// A declaration of one or more locals.
pub fn declaration(
    alloc: Global,
    view: &BodyView,
    kind: &TypeTree,
    trees: &[Declarator],
    scope: &mut Scope,
) -> Result<Items<TypedLocal>, WalkFault>
    ensures { Threads (spec.declaration (scene view.now) kind.now trees.now scope.old) result scope.new }
{
    let setting = view.setting;
    let kind = type_of(alloc, &setting.names, kind)?;
    declared_all(alloc, view, &kind, trees, scope)
}

/// What a `for` begins with.
pub fn started(
    alloc: Global,
    view: &BodyView,
    tree: &ForStart,
    scope: &mut Scope,
) -> Result<TypedStart, WalkFault>
    ensures { Threads (spec.started (scene view.now) tree.now scope.old) result scope.new }
{
    match tree {
        ForStart::Nothing => Ok(TypedStart::Nothing),
        ForStart::Declare(kind, trees) => {
            let locals = declaration(alloc, view, kind, trees.as_slice(), scope)?;
            Ok(TypedStart::Declare(locals))
        }
        ForStart::Expr(tree) => {
            let tree = read_in(alloc, view, scope, tree.get())?;
            Ok(TypedStart::Expr(tree))
        }
    }
}

fn value_where(
    alloc: Global,
    view: &BodyView,
    scope: &Scope,
    tree: &Option<Boxed<Expr>>,
) -> Result<Option<Typed>, WalkFault>
    ensures { Comes (spec.value_where (scene view.now) scope.now tree.now) result }
{
    match tree {
        Some(tree) => {
            let value = value_in(alloc, view, scope, tree.get())?;
            Ok(Some(value))
        }
        None => Ok(None),
    }
}

/// `return`, which stands at this byte.
pub fn answered(
    alloc: Global,
    view: &BodyView,
    scope: &Scope,
    at: usize,
    tree: &Option<Boxed<Expr>>,
) -> Result<Boxed<TypedStmt>, WalkFault>
    ensures { Comes (spec.answered (scene view.now) scope.now at tree.now) result }
{
    let setting = view.setting;
    let value = value_where(alloc, view, scope, tree)?;
    let tree = returned(alloc, setting.lines, view.due, at, value)?;
    Ok(Boxed::new(alloc, TypedStmt::Return(bare(tree)))?)
}

/// `throw`
pub fn thrown(
    alloc: Global,
    view: &BodyView,
    scope: &Scope,
    tree: &Expr,
) -> Result<Boxed<TypedStmt>, WalkFault>
    ensures { Comes (spec.thrown (scene view.now) scope.now tree.now) result }
{
    let setting = view.setting;
    let value = value_in(alloc, view, scope, tree)?;
    let tree = fitted(alloc, setting.lines, value, &ValueType::AnyException)?;
    Ok(Boxed::new(alloc, TypedStmt::Throw(tree.into_value()))?)
}

/// `insert` and its like.
pub fn dml(
    alloc: Global,
    view: &BodyView,
    scope: &Scope,
    op: DmlOp,
    tree: &Expr,
) -> Result<Boxed<TypedStmt>, WalkFault>
    ensures { Comes (spec.dml (scene view.now) scope.now op tree.now) result }
{
    let value = value_in(alloc, view, scope, tree)?;
    let (what, tree) = saved(value)?;
    Ok(Boxed::new(alloc, TypedStmt::Dml(op, what, tree.into_value()))?)
}

fn arguments_in(
    alloc: Global,
    view: &BodyView,
    scope: &Scope,
    trees: &[Expr],
) -> Result<Items<Typed>, WalkFault>
    ensures { Comes (spec.arguments_in (scene view.now) scope.now trees.now) result }
{
    let sight = View {
        setting: view.setting,
        methods: view.methods,
        scope,
    };
    arguments(alloc, &sight, trees)
}

/// `this(..)`, which stands at this byte in front of the statements of a constructor.
pub fn called_own(
    alloc: Global,
    view: &BodyView,
    scope: &Scope,
    at: usize,
    trees: &[Expr],
) -> Result<Boxed<ParentCall>, WalkFault>
    ensures { Comes (spec.called_own (scene view.now) scope.now at trees.now) result }
{
    let how = own_constructor(alloc, view.setting, at, trees.len())?;
    let args = arguments_in(alloc, view, scope, trees)?;
    constructed(alloc, view.setting, how, at, args)
}

/// `super(..)`, which stands at this byte in front of the statements of a constructor.
pub fn called_parent(
    alloc: Global,
    view: &BodyView,
    scope: &Scope,
    at: usize,
    trees: &[Expr],
) -> Result<Boxed<ParentCall>, WalkFault>
    ensures { Comes (spec.called_parent (scene view.now) scope.now at trees.now) result }
{
    let how = parent_constructor(alloc, view.setting, at, trees.len())?;
    let args = arguments_in(alloc, view, scope, trees)?;
    constructed(alloc, view.setting, how, at, args)
}

// `break` and `continue` stand in loops.
fn looping(in_loop: bool, at: usize) -> Result<(), TreeFault>
    ensures { Tells (spec.looping in_loop at) result }
{
    if in_loop {
        Ok(())
    } else {
        Err(TreeFault::new(FaultWord::MisplacedJump, at))
    }
}

/// `break`, which stands at this byte.
pub fn breaks(alloc: Global, in_loop: bool, at: usize) -> Result<Boxed<TypedStmt>, WalkFault>
    ensures { Comes (spec.jump in_loop at typed.Break) result }
{
    looping(in_loop, at)?;
    Ok(Boxed::new(alloc, TypedStmt::Break)?)
}

/// `continue`, which stands at this byte.
pub fn continues(alloc: Global, in_loop: bool, at: usize) -> Result<Boxed<TypedStmt>, WalkFault>
    ensures { Comes (spec.jump in_loop at typed.Continue) result }
{
    looping(in_loop, at)?;
    Ok(Boxed::new(alloc, TypedStmt::Continue)?)
}

/// A declaration, as a statement.
pub fn declares(
    alloc: Global,
    view: &BodyView,
    kind: &TypeTree,
    trees: &[Declarator],
    scope: &mut Scope,
) -> Result<Boxed<TypedStmt>, WalkFault>
    ensures { Threads (onward (spec.declaration (scene view.now) kind.now trees.now scope.old) (λ r. Gives (typed.Declare r.0, r.1))) result scope.new }
{
    let locals = declaration(alloc, view, kind, trees, scope)?;
    Ok(Boxed::new(alloc, TypedStmt::Declare(locals))?)
}

/// An expression, as a statement.
pub fn reads(
    alloc: Global,
    view: &BodyView,
    scope: &Scope,
    tree: &Expr,
) -> Result<Boxed<TypedStmt>, WalkFault>
    ensures { Comes (onward (spec.read_in (scene view.now) scope.now tree.now) (λ x. Gives (typed.Expr x))) result }
{
    let tree = read_in(alloc, view, scope, tree)?;
    Ok(Boxed::new(alloc, TypedStmt::Expr(tree.into_value()))?)
}

/// `;`
pub fn nothing(alloc: Global) -> Result<Boxed<TypedStmt>, WalkFault>
    ensures { Comes (Gives (typed.Block [])) result }
{
    Ok(Boxed::new(alloc, TypedStmt::Block(Items::new(alloc)))?)
}
