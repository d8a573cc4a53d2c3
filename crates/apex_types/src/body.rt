// Bodies of methods and triggers, and blocks.

ghost use Rattle.statement_walk.specs.Scenes.{scene};
ghost use Rattle.type_names.specs.Walks.{Comes, Tells};
ghost use Rattle.apex_types.specs.Bodies as spec;

use apex_list::Items;
use apex_syntax::{Body, Stmt};
use class_tables::ResultHead;
use fault_words::FaultWord;
use local_scopes::Scope;
use statement_walk::{BodyView, body_statements, ends_surely, statements};
use std::alloc::Global;
use type_names::{TreeFault, WalkFault};
use typed_program::TypedStmt;

fn given(due: &ResultHead, tree: &Body, at: usize) -> Result<(), TreeFault>
    ensures { Tells (spec.given due.now tree.now at) result }
{
    match due {
        ResultHead::Void => Ok(()),
        ResultHead::Value(_) | ResultHead::Faulty => {
            if ends_surely(tree) {
                Ok(())
            } else {
                Err(TreeFault::new(FaultWord::NoReturn, at))
            }
        }
    }
}

/// The body of a method, whose name stands at this byte, with the locals that its parameters are: its typed statements,
/// or the first fault. Behind those of its statements comes `NoReturn` at the name, where the method has to answer a
/// value and the body doesn't end surely.
pub fn method_body(
    alloc: Global,
    view: &BodyView,
    locals: Scope,
    tree: &Body,
    at: usize,
) -> Result<Items<TypedStmt>, WalkFault>
    ensures { Comes (spec.method_body (scene view.now) locals tree.now at) result }
{
    let mut scope = locals;
    let stmts = body_statements(alloc, view, tree, false, &mut scope)?;
    given(view.due, tree, at)?;
    Ok(stmts)
}

/// Statements that stand in no method, those of a trigger or a block: typed, or the first fault.
pub fn plain_body(
    alloc: Global,
    view: &BodyView,
    trees: &[Stmt],
) -> Result<Items<TypedStmt>, WalkFault>
    ensures { Comes (spec.plain_body (scene view.now) trees.now) result }
{
    let mut scope = Scope::new(alloc);
    statements(alloc, view, trees, false, &mut scope)
}
