// Whether a class lacks a method.

ghost use Rattle.std.specs.Prelude.{◌≡◌, IfOk};
ghost use Rattle.std.specs.List.{list_any};
ghost use Rattle.class_tables.specs.Tables.{all_in};
ghost use Rattle.type_names.specs.Walks.{Comes};
ghost use Rattle.class_walk.specs.Missing as spec;

use crate::inherited::lacks_inherited;
use crate::promised::lacks_promised;
use apex_num::NoMemory;
use class_tables::{ClassHeads, MemberTables, MethodHead};
use fault_words::FaultWord;
use type_names::{TreeFault, WalkFault};

fn any_lacks_body(methods: &[MethodHead]) -> bool
    ensures { result ≡ list_any spec.lacks_body methods.now }
{
    for method in methods {
        if !method.has_body {
            return true;
        }
    }
    false
}

fn lacks_own(tables: &MemberTables, class: usize) -> bool
    ensures { result ≡ spec.lacks_own (all_in tables.now) class }
{
    match tables.tables.get(class) {
        Some(table) => any_lacks_body(table.members.methods.as_slice()),
        None => false,
    }
}

fn lacks(tables: &MemberTables, lines: &ClassHeads, class: usize) -> Result<bool, NoMemory>
    ensures { IfOk result (λ b. b ≡ spec.lacks (all_in tables.now) lines.now.heads class) }
{
    if lacks_own(tables, class) {
        return Ok(true);
    }
    if lacks_inherited(tables, lines, class)? {
        return Ok(true);
    }
    lacks_promised(tables, lines, class)
}

/// `MissingMethod` at a class's name, whose byte is handed in, where the class isn't abstract, and has a method without
/// a body itself, or gets one from an ancestor and has none with a body, or an interface that it or an ancestor names
/// has a method that no instance method with equal types meets. Takes the time of as many looks into hash tables as
/// its ancestors leave methods and its interfaces have methods, times the number of its ancestors.
pub fn missing_fault(
    tables: &MemberTables,
    lines: &ClassHeads,
    class: usize,
    is_abstract: bool,
    at: usize,
) -> Result<(), WalkFault>
    ensures { Comes (spec.missing_walk (all_in tables.now) lines.now.heads class is_abstract at) result }
{
    if is_abstract {
        return Ok(());
    }
    if lacks(tables, lines, class)? {
        return Err(TreeFault::new(FaultWord::MissingMethod, at).into());
    }
    Ok(())
}
