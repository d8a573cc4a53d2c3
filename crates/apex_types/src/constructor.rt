// Constructors.

ghost use Rattle.std.specs.Prelude.{◌≡◌};
ghost use Rattle.std.specs.Option.{option_copied};
ghost use Rattle.apex_syntax.specs.declared.stmt.Stmt.TheViews.{out-Stmt};
ghost use Rattle.name_meanings.specs.Settings.{around};
ghost use Rattle.statement_walk.specs.Scenes.{scene};
ghost use Rattle.type_names.specs.Walks.{Comes, Tells};
ghost use Rattle.apex_types.specs.Constructors as spec;

use apex_list::Boxed;
use apex_syntax::{Body, Stmt};
use class_tables::Parent;
use fault_words::FaultWord;
use local_scopes::Scope;
use name_meanings::Setting;
use statement_walk::{BodyView, called_own, called_parent, statements};
use std::alloc::Global;
use type_names::{TreeFault, WalkFault};
use typed_calls::{Maker, constructor_of};
use typed_program::{ImpliedCall, ParentCall, TypedConstructor};

fn implied(maker: Maker, at: usize) -> Result<Option<ImpliedCall>, TreeFault>
    ensures { Tells (spec.implied maker at) result }
{
    match maker {
        Maker::Instance(class, constructor) => Ok(Some(ImpliedCall { class, constructor })),
        _ => Err(TreeFault::new(FaultWord::WrongArguments, at)),
    }
}

/// The constructor of its parent that a constructor of a class calls without saying so, the one without parameters;
/// `None` where the class extends none. At the byte that is handed in, `NotVisible` where it is a private one, and
/// `WrongArguments` where there is none.
pub fn implied_call(
    alloc: Global,
    setting: &Setting,
    class: usize,
    at: usize,
) -> Result<Option<ImpliedCall>, WalkFault>
    ensures { Comes (spec.implied_call (around setting.now) class at) result }
{
    match setting.lines.parent(class) {
        Parent::Class(parent) => {
            let maker = constructor_of(alloc, setting, parent, at, 0)?;
            Ok(implied(maker, at)?)
        }
        Parent::None | Parent::Exception => Ok(None),
    }
}

fn call_or(call: Option<ImpliedCall>) -> ParentCall
    ensures { result ≡ spec.call_or call }
{
    match call {
        Some(call) => ParentCall::Implied(call),
        None => ParentCall::Nothing,
    }
}

fn is_semicolon(tree: &Stmt) -> bool
    ensures { result ≡ spec.is_semicolon (out-Stmt tree.now) }
{
    match tree {
        Stmt::Empty(_) => true,
        _ => false,
    }
}

fn behind_semicolons(trees: &[Stmt]) -> &[Stmt]
    ensures { result.now ≡ spec.behind_semicolons trees.now }
{
    for i in 0..trees.len() {
        if !is_semicolon(&trees[i]) {
            return &trees[i..];
        }
    }
    &[]
}

fn calls(tree: &Stmt) -> bool
    ensures { result ≡ spec.calls (out-Stmt tree.now) }
{
    match tree {
        Stmt::This(..) | Stmt::Super(..) => true,
        _ => false,
    }
}

fn left_of<'a>(front: &'a [Stmt], all: &'a [Stmt]) -> &'a [Stmt]
    ensures { result.now ≡ spec.left_of front.now all.now }
{
    match front.first() {
        Some(first) => { if calls(first) { &front[1..] } else { all } }
        None => all,
    }
}

fn unwritten(
    alloc: Global,
    view: &BodyView,
    class: usize,
    at: usize,
) -> Result<Boxed<ParentCall>, WalkFault>
    ensures { Comes (spec.unwritten (scene view.now) class at) result }
{
    let call = implied_call(alloc, view.setting, class, at)?;
    Ok(Boxed::new(alloc, call_or(call))?)
}

fn call_by(
    alloc: Global,
    view: &BodyView,
    class: usize,
    scope: &Scope,
    at: usize,
    tree: &Stmt,
) -> Result<Boxed<ParentCall>, WalkFault>
    ensures { Comes (spec.call_by (scene view.now) class scope.now at (out-Stmt tree.now)) result }
{
    match tree {
        Stmt::This(span, args) => called_own(alloc, view, scope, span.from, args.as_slice()),
        Stmt::Super(span, args) => called_parent(alloc, view, scope, span.from, args.as_slice()),
        _ => unwritten(alloc, view, class, at),
    }
}

fn call_of(
    alloc: Global,
    view: &BodyView,
    class: usize,
    scope: &Scope,
    at: usize,
    first: Option<&Stmt>,
) -> Result<Boxed<ParentCall>, WalkFault>
    ensures { Comes (spec.call_of (scene view.now) class scope.now at (option_copied first.entry)) result }
{
    match first {
        Some(tree) => call_by(alloc, view, class, scope, at, tree),
        None => unwritten(alloc, view, class, at),
    }
}

fn constructor_with(
    alloc: Global,
    view: &BodyView,
    class: usize,
    locals: Scope,
    at: usize,
    trees: &[Stmt],
) -> Result<Boxed<TypedConstructor>, WalkFault>
    ensures { Comes (spec.constructor_with (scene view.now) class locals at trees.now) result }
{
    let front = behind_semicolons(trees);
    let parent = call_of(alloc, view, class, &locals, at, front.first())?;
    let mut scope = locals;
    let stmts = statements(alloc, view, left_of(front, trees), false, &mut scope)?;
    let parent = parent.into_value();
    Ok(Boxed::new(alloc, TypedConstructor { parent, stmts })?)
}

/// The constructor of a class, whose name stands at this byte, with the locals that its parameters are: the constructor
/// that it calls and its typed statements, or the first fault, where that of a call that isn't written stands at the
/// name. `this(..)` and `super(..)` call one where nothing but `;` stands before them.
pub fn constructor_body(
    alloc: Global,
    view: &BodyView,
    class: usize,
    locals: Scope,
    tree: &Body,
    at: usize,
) -> Result<Boxed<TypedConstructor>, WalkFault>
    ensures { Comes (spec.constructor_body (scene view.now) class locals tree.now at) result }
{
    constructor_with(alloc, view, class, locals, at, tree.stmts.as_slice())
}
