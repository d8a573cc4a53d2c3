// Interfaces.

ghost use Rattle.type_names.specs.TypeTrees.{known};
ghost use Rattle.type_names.specs.Walks.{Comes};
ghost use Rattle.apex_types.specs.Homes.{home as home_of};
ghost use Rattle.apex_types.specs.OpenClasses.{Grows};
ghost use Rattle.apex_types.specs.Units as spec;

use crate::home::Home;
use crate::member::flag_at;
use crate::open::{add_method, opened};
use apex_syntax::{InterfaceTree, SignatureTree};
use class_tables::Classes;
use class_walk::{signature_declared, signature_duplicates, unit_name};
use std::alloc::Global;
use type_names::{TypeNames, WalkFault};
use typed_program::TypedClass;

fn signature(
    alloc: Global,
    names: &TypeNames,
    tree: &SignatureTree,
    twice: bool,
    so_far: &mut TypedClass,
) -> Result<(), WalkFault>
    ensures { Grows (spec.signature_step (known names.now) tree.now twice so_far.old) result so_far.new }
{
    let params = tree.params.as_slice();
    signature_declared(alloc, names, &tree.result, &tree.name, params, twice, true)?;
    Ok(add_method(so_far, &tree.name, params, false, None)?)
}

fn signatures(
    alloc: Global,
    names: &TypeNames,
    flags: &[bool],
    trees: &[SignatureTree],
    so_far: &mut TypedClass,
) -> Result<(), WalkFault>
    ensures { Grows (spec.signatures_from (known names.now) flags.now 0 trees.now so_far.old) result so_far.new }
{
    for i in 0..trees.len() {
        signature(alloc, names, &trees[i], flag_at(flags, i), so_far)?;
    }
    Ok(())
}

/// An interface, the unit with the first number, that has the second one among classes and interfaces.
pub fn interface(
    alloc: Global,
    classes: &Classes,
    home: &Home,
    unit: usize,
    class: usize,
    tree: &InterfaceTree,
) -> Result<TypedClass, WalkFault>
    ensures { Comes (spec.interface_step classes.now.objects.now.names.items classes.now.units.now (home_of home.now) unit class tree.now) result }
{
    unit_name(classes, unit, &tree.name)?;
    let trees = tree.methods.as_slice();
    let flags = signature_duplicates(alloc, trees)?;
    let mut made = opened(alloc, home.lines, class, &tree.written, None)?;
    signatures(alloc, &home.names, flags.as_slice(), trees, &mut made)?;
    Ok(made)
}
