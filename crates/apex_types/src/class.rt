// Classes.

ghost use Rattle.std.specs.Prelude.{◌≡◌, slice_get};
ghost use Rattle.std.specs.List.{list_any};
ghost use Rattle.apex_types.specs.Homes.{home as home_of};
ghost use Rattle.type_names.specs.Walks.{Comes};
ghost use Rattle.apex_types.specs.Units as spec;

use crate::constructor::implied_call;
use crate::home::Home;
use crate::member::members;
use crate::open::opened;
use apex_syntax::{ClassTree, MemberTree, Word};
use class_tables::{ClassHeads, Classes};
use class_walk::{class_header, duplicates, missing_fault};
use std::alloc::Global;
use type_names::WalkFault;
use typed_program::{ImpliedCall, TypedClass};

fn declares_constructors(trees: &[MemberTree]) -> bool
    ensures { result ≡ list_any spec.is_constructor trees.now }
{
    for tree in trees {
        if let MemberTree::Constructor(..) = tree {
            return true;
        }
    }
    false
}

fn is_abstract(lines: &ClassHeads, class: usize) -> bool
    ensures { result ≡ spec.abstract_in (slice_get lines.now.heads class) }
{
    match lines.heads.get(class) {
        Some(head) => head.is_abstract,
        None => false,
    }
}

fn parent_place(parent: &Option<Word>, name: &Word) -> usize
    ensures { result ≡ spec.parent_place parent.now name.now }
{
    match parent {
        Some(parent) => parent.span.from,
        None => name.span.from,
    }
}

fn undeclared_call(
    alloc: Global,
    home: &Home,
    class: usize,
    tree: &ClassTree,
) -> Result<Option<ImpliedCall>, WalkFault>
    ensures { Comes (spec.undeclared_call (home_of home.now) class tree.now) result }
{
    if declares_constructors(tree.members.as_slice()) {
        return Ok(None);
    }
    let setting = home.setting(Some(class), false, true);
    implied_call(
        alloc,
        &setting,
        class,
        parent_place(&tree.parent, &tree.name),
    )
}

// The header of a class, what it lacks, and what it calls of its parent.
fn opening(
    alloc: Global,
    classes: &Classes,
    home: &Home,
    unit: usize,
    class: usize,
    tree: &ClassTree,
) -> Result<Option<ImpliedCall>, WalkFault>
    ensures { Comes (spec.opening classes.now.objects.now.names.items classes.now.units.now (home_of home.now) unit class tree.now) result }
{
    class_header(classes, unit, tree)?;
    let is_abstract = is_abstract(home.lines, class);
    missing_fault(
        home.members,
        home.lines,
        class,
        is_abstract,
        tree.name.span.from,
    )?;
    undeclared_call(alloc, home, class, tree)
}

/// A class, the unit with the first number, that has the second one among classes and interfaces.
pub fn class(
    alloc: Global,
    classes: &Classes,
    home: &Home,
    unit: usize,
    class: usize,
    tree: &ClassTree,
) -> Result<TypedClass, WalkFault>
    ensures { Comes (spec.class_step classes.now.objects.now.names.items classes.now.units.now (home_of home.now) unit class tree.now) result }
{
    let implied = opening(alloc, classes, home, unit, class, tree)?;
    let trees = tree.members.as_slice();
    let flags = duplicates(alloc, trees)?;
    let flags = flags.as_slice();
    let mut made = opened(alloc, home.lines, class, &tree.written, implied)?;
    members(alloc, home, class, &tree.name.name, flags, trees, &mut made)?;
    Ok(made)
}
