// The walk.

ghost use Rattle.std.specs.Prelude.{◌≡◌, None, [], map, option_map};
ghost use Rattle.local_scopes.specs.Scopes.{slot_of};
ghost use Rattle.statement_walk.specs.Scenes.{scene, Threads};
ghost use Rattle.statement_walk.specs.Statements as spec;

use crate::flow::{caught, each};
use crate::made::bare;
use crate::simple::{
    answered, breaks, continues, declares, dml, nothing, read_where, reads, started, tested,
    tested_where, thrown, value_in,
};
use crate::view::BodyView;
use apex_list::{Boxed, Items};
use apex_syntax::{Body, Catch, Expr, ForStart, Stmt, TypeTree, Word};
use fault_words::FaultWord;
use local_scopes::{Scope, declare, fresh};
use static_types::ValueType;
use std::alloc::Global;
use type_names::{TreeFault, WalkFault, type_of};
use typed_program::{Conversion, TypedCatch, TypedExpr, TypedStmt};

#[cycle(stmt)]
fn stmts(
    alloc: Global,
    view: &BodyView,
    trees: &[Stmt],
    in_loop: bool,
    scope: &mut Scope,
) -> Result<Items<TypedStmt>, WalkFault>
    ensures { Threads (spec.stmts_from (map (spec.statement (scene view.now)) trees.now) in_loop [] scope.old) result scope.new }
{
    let mut done = Items::new(alloc);
    for tree in trees {
        let made = stmt(alloc, view, tree, in_loop, scope)?;
        done.push(made.into_value())?;
    }
    Ok(done)
}

#[cycle(stmt)]
fn body(
    alloc: Global,
    view: &BodyView,
    tree: &Body,
    in_loop: bool,
    scope: &mut Scope,
) -> Result<Items<TypedStmt>, WalkFault>
    ensures { Threads (spec.body (scene view.now) tree.now in_loop scope.old) result scope.new }
{
    stmts(alloc, view, tree.stmts.as_slice(), in_loop, scope)
}

#[cycle(stmt)]
fn scoped_body(
    alloc: Global,
    view: &BodyView,
    tree: &Body,
    in_loop: bool,
    scope: &mut Scope,
) -> Result<Items<TypedStmt>, WalkFault>
    ensures { Threads (spec.scoped (spec.body (scene view.now) tree.now in_loop) scope.old) result scope.new }
{
    let len = scope.len();
    let made = body(alloc, view, tree, in_loop, scope);
    scope.leave(len);
    made
}

#[cycle(stmt)]
fn scoped(
    alloc: Global,
    view: &BodyView,
    tree: &Stmt,
    in_loop: bool,
    scope: &mut Scope,
) -> Result<Boxed<TypedStmt>, WalkFault>
    ensures { Threads (spec.scoped (spec.statement (scene view.now) tree.now in_loop) scope.old) result scope.new }
{
    let len = scope.len();
    let made = stmt(alloc, view, tree, in_loop, scope);
    scope.leave(len);
    made
}

#[cycle(stmt)]
fn stmt_where(
    alloc: Global,
    view: &BodyView,
    tree: &Option<Boxed<Stmt>>,
    in_loop: bool,
    scope: &mut Scope,
) -> Result<Option<Boxed<TypedStmt>>, WalkFault>
    ensures { Threads (spec.stmt_where (option_map (spec.statement (scene view.now)) tree.now) in_loop scope.old) result scope.new }
{
    match tree {
        Some(tree) => {
            let made = scoped(alloc, view, tree.get(), in_loop, scope)?;
            Ok(Some(made))
        }
        None => Ok(None),
    }
}

#[cycle(stmt)]
fn body_where(
    alloc: Global,
    view: &BodyView,
    tree: &Option<Body>,
    in_loop: bool,
    scope: &mut Scope,
) -> Result<Option<Items<TypedStmt>>, WalkFault>
    ensures { Threads (spec.body_where (option_map (spec.body (scene view.now)) tree.now) in_loop scope.old) result scope.new }
{
    match tree {
        Some(tree) => {
            let made = scoped_body(alloc, view, tree, in_loop, scope)?;
            Ok(Some(made))
        }
        None => Ok(None),
    }
}

#[cycle(stmt)]
fn catches(
    alloc: Global,
    view: &BodyView,
    trees: &[Catch],
    in_loop: bool,
    scope: &mut Scope,
) -> Result<Items<TypedCatch>, WalkFault>
    ensures { Threads (spec.catches_from (map (spec.catching (scene view.now)) trees.now) in_loop [] scope.old) result scope.new }
{
    let mut done = Items::new(alloc);
    for tree in trees {
        let made = catch_of(alloc, view, tree, in_loop, scope)?;
        done.push(made)?;
    }
    Ok(done)
}

#[cycle(stmt)]
fn catch_of(
    alloc: Global,
    view: &BodyView,
    tree: &Catch,
    in_loop: bool,
    scope: &mut Scope,
) -> Result<TypedCatch, WalkFault>
    ensures { Threads (spec.catching (scene view.now) tree.now in_loop scope.old) result scope.new }
{
    let setting = view.setting;
    let kind = caught(&setting.names, setting.lines, &tree.class, &tree.member)?;
    fresh(scope, &tree.name)?;
    let slot = declare(scope, &tree.name, kind.copy()?)?;
    let made = body(alloc, view, &tree.body, in_loop, scope)?;
    scope.leave(slot);
    Ok(TypedCatch {
        kind,
        slot,
        body: made,
    })
}

#[cycle(stmt)]
fn block(
    alloc: Global,
    view: &BodyView,
    tree: &Body,
    in_loop: bool,
    scope: &mut Scope,
) -> Result<Boxed<TypedStmt>, WalkFault>
    ensures { Threads (spec.block_by (spec.body (scene view.now) tree.now) in_loop scope.old) result scope.new }
{
    let stmts = scoped_body(alloc, view, tree, in_loop, scope)?;
    Ok(Boxed::new(alloc, TypedStmt::Block(stmts))?)
}

#[cycle(stmt)]
fn while_stmt(
    alloc: Global,
    view: &BodyView,
    again: &Stmt,
    test: &Expr,
    scope: &mut Scope,
) -> Result<Boxed<TypedStmt>, WalkFault>
    ensures { Threads (spec.while_by (scene view.now) test.now (spec.statement (scene view.now) again.now) scope.old) result scope.new }
{
    let test = tested(alloc, view, scope, test)?;
    let again = scoped(alloc, view, again, true, scope)?;
    Ok(Boxed::new(alloc, TypedStmt::While(test.into_value(), again))?)
}

#[cycle(stmt)]
fn do_stmt(
    alloc: Global,
    view: &BodyView,
    again: &Stmt,
    test: &Expr,
    scope: &mut Scope,
) -> Result<Boxed<TypedStmt>, WalkFault>
    ensures { Threads (spec.do_by (scene view.now) (spec.statement (scene view.now) again.now) test.now scope.old) result scope.new }
{
    let again = scoped(alloc, view, again, true, scope)?;
    let test = tested(alloc, view, scope, test)?;
    Ok(Boxed::new(alloc, TypedStmt::Do(again, test.into_value()))?)
}

#[cycle(stmt)]
fn for_stmt(
    alloc: Global,
    view: &BodyView,
    again: &Stmt,
    start: &ForStart,
    test: &Option<Boxed<Expr>>,
    step: &Option<Boxed<Expr>>,
    scope: &mut Scope,
) -> Result<Boxed<TypedStmt>, WalkFault>
    ensures { Threads (spec.for_by (scene view.now) start.now test.now step.now (spec.statement (scene view.now) again.now) scope.old) result scope.new }
{
    let len = scope.len();
    let start = started(alloc, view, start, scope)?;
    let test = tested_where(alloc, view, scope, test)?;
    let step = read_where(alloc, view, scope, step)?;
    let again = scoped(alloc, view, again, true, scope)?;
    scope.leave(len);
    Ok(Boxed::new(alloc, TypedStmt::For(start, bare(test), bare(step), again))?)
}

#[cycle(stmt)]
fn each_item(
    alloc: Global,
    view: &BodyView,
    again: &Stmt,
    kind: ValueType,
    name: &Word,
    how: Conversion,
    list: Boxed<TypedExpr>,
    scope: &mut Scope,
) -> Result<Boxed<TypedStmt>, WalkFault>
    requires { slot_of scope.old name.now.name ≡ None }
    ensures { Threads (spec.each_of (scene view.now) name.now kind (spec.statement (scene view.now) again.now) scope.old (how, list)) result scope.new }
{
    let slot = declare(scope, name, kind)?;
    let again = stmt(alloc, view, again, true, scope)?;
    scope.leave(slot);
    Ok(Boxed::new(
        alloc,
        TypedStmt::ForEach(slot, how, list.into_value(), again),
    )?)
}

#[cycle(stmt)]
fn each_stmt(
    alloc: Global,
    view: &BodyView,
    again: &Stmt,
    kind: &TypeTree,
    name: &Word,
    list: &Expr,
    scope: &mut Scope,
) -> Result<Boxed<TypedStmt>, WalkFault>
    ensures { Threads (spec.each_by (scene view.now) kind.now name.now list.now (spec.statement (scene view.now) again.now) scope.old) result scope.new }
{
    let setting = view.setting;
    let kind = type_of(alloc, &setting.names, kind)?;
    fresh(scope, name)?;
    let list = value_in(alloc, view, scope, list)?;
    let (how, list) = each(setting.lines, &kind, list)?;
    each_item(alloc, view, again, kind, name, how, list, scope)
}

#[cycle(stmt)]
fn stmt(
    alloc: Global,
    view: &BodyView,
    tree: &Stmt,
    in_loop: bool,
    scope: &mut Scope,
) -> Result<Boxed<TypedStmt>, WalkFault>
    ensures { Threads (spec.statement (scene view.now) tree.now in_loop scope.old) result scope.new }
{
    match tree {
        Stmt::Block(tree) => block(alloc, view, tree, in_loop, scope),
        Stmt::Empty(_) => nothing(alloc),
        Stmt::Declare(_, kind, trees) => declares(alloc, view, kind, trees.as_slice(), scope),
        Stmt::Expr(_, tree) => reads(alloc, view, scope, tree.get()),
        Stmt::If(_, test, yes, no) => {
            let test = tested(alloc, view, scope, test.get())?;
            let yes = scoped(alloc, view, yes.get(), in_loop, scope)?;
            let no = stmt_where(alloc, view, no, in_loop, scope)?;
            Ok(Boxed::new(alloc, TypedStmt::If(test.into_value(), yes, no))?)
        }
        Stmt::While(_, test, again) => while_stmt(alloc, view, again.get(), test.get(), scope),
        Stmt::Do(_, again, test) => do_stmt(alloc, view, again.get(), test.get(), scope),
        Stmt::For(_, start, test, step, again) => {
            for_stmt(alloc, view, again.get(), start, test, step, scope)
        }
        Stmt::ForEach(_, kind, name, list, again) => {
            each_stmt(alloc, view, again.get(), kind, name, list.get(), scope)
        }
        Stmt::Return(span, tree) => answered(alloc, view, scope, span.from, tree),
        Stmt::Break(span) => breaks(alloc, in_loop, span.from),
        Stmt::Continue(span) => continues(alloc, in_loop, span.from),
        Stmt::Throw(_, tree) => thrown(alloc, view, scope, tree.get()),
        Stmt::Try(_, tree, trees, last) => {
            let stmts = scoped_body(alloc, view, tree, in_loop, scope)?;
            let caught = catches(alloc, view, trees.as_slice(), in_loop, scope)?;
            let last = body_where(alloc, view, last, in_loop, scope)?;
            Ok(Boxed::new(alloc, TypedStmt::Try(stmts, caught, last))?)
        }
        Stmt::Dml(_, op, tree) => dml(alloc, view, scope, *op, tree.get()),
        Stmt::This(span, _) | Stmt::Super(span, _) => {
            Err(TreeFault::new(FaultWord::MisplacedJump, span.from).into())
        }
    }
}

/// Statements from first to last, in a loop or in none, with their typed trees, or the first fault. The locals that they declare are in scope
/// behind them; a fault leaves some of those that were.
pub fn statements(
    alloc: Global,
    view: &BodyView,
    trees: &[Stmt],
    in_loop: bool,
    scope: &mut Scope,
) -> Result<Items<TypedStmt>, WalkFault>
    ensures { Threads (spec.stmts_from (map (spec.statement (scene view.now)) trees.now) in_loop [] scope.old) result scope.new }
{
    stmts(alloc, view, trees, in_loop, scope)
}

/// The statements in the braces of a body, as `statements`.
pub fn body_statements(
    alloc: Global,
    view: &BodyView,
    tree: &Body,
    in_loop: bool,
    scope: &mut Scope,
) -> Result<Items<TypedStmt>, WalkFault>
    ensures { Threads (spec.body (scene view.now) tree.now in_loop scope.old) result scope.new }
{
    body(alloc, view, tree, in_loop, scope)
}
