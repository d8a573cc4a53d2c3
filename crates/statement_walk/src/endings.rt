// Whether statements end surely, with a value or an exception, and never run out.

ghost use Rattle.std.specs.Prelude.{◌≡◌, false, map, option_map};
ghost use Rattle.statement_walk.specs.Endings as spec;

use apex_list::Boxed;
use apex_syntax::{Body, Catch, Stmt};

fn is_empty(tree: &Stmt) -> bool
    ensures { result ≡ (spec.ending tree.now).empty }
{
    match tree {
        Stmt::Empty(_) => true,
        _ => false,
    }
}

#[cycle(ends)]
fn last(trees: &[Stmt]) -> bool
    ensures { result ≡ spec.last_ends false (map spec.ending trees.now) }
{
    let mut sure = false;
    for tree in trees {
        if !is_empty(tree) {
            sure = ends(tree);
        }
    }
    sure
}

#[cycle(ends)]
fn body_ends(tree: &Body) -> bool
    ensures { result ≡ spec.body_ends tree.now }
{
    last(tree.stmts.as_slice())
}

#[cycle(ends)]
fn catch_ends(tree: &Catch) -> bool
    ensures { result ≡ spec.catch_ends tree.now }
{
    body_ends(&tree.body)
}

#[cycle(ends)]
fn catches_end(trees: &[Catch]) -> bool
    ensures { result ≡ spec.all_end (map spec.catch_ends trees.now) }
{
    let mut sure = true;
    for tree in trees {
        sure = sure && catch_ends(tree);
    }
    sure
}

#[cycle(ends)]
fn other_ends(tree: &Option<Boxed<Stmt>>) -> bool
    ensures { result ≡ spec.other_ends (option_map spec.ending tree.now) }
{
    match tree {
        Some(tree) => ends(tree.get()),
        None => false,
    }
}

#[cycle(ends)]
fn finally_ends(tree: &Option<Body>) -> bool
    ensures { result ≡ spec.finally_ends (option_map spec.body_ends tree.now) }
{
    match tree {
        Some(tree) => body_ends(tree),
        None => false,
    }
}

#[cycle(ends)]
fn ends(tree: &Stmt) -> bool
    ensures { result ≡ (spec.ending tree.now).ends }
{
    match tree {
        Stmt::Block(tree) => body_ends(tree),
        Stmt::If(_, _, yes, no) => ends(yes.get()) && other_ends(no),
        Stmt::Try(_, tree, trees, last) => {
            (body_ends(tree) && catches_end(trees.as_slice())) || finally_ends(last)
        }
        Stmt::Return(..) | Stmt::Throw(..) => true,
        Stmt::Empty(_)
        | Stmt::Declare(..)
        | Stmt::Expr(..)
        | Stmt::While(..)
        | Stmt::Do(..)
        | Stmt::For(..)
        | Stmt::ForEach(..)
        | Stmt::Break(_)
        | Stmt::Continue(_)
        | Stmt::Dml(..)
        | Stmt::This(..)
        | Stmt::Super(..) => false,
    }
}

/// Whether the statements of a body end surely: where the last of them that is no `;` is `return` or `throw`, braces that
/// end surely, an `if` both of whose branches do, or a `try` whose braces and all catches do, or whose `finally` does.
pub fn ends_surely(tree: &Body) -> bool
    ensures { result ≡ spec.body_ends tree.now }
{
    body_ends(tree)
}
