// The methods without a body of ancestors.

ghost use Rattle.std.specs.Prelude.{◌≡◌, ◌∷◌, IfOk};
ghost use Rattle.std.specs.List.{list_any};
ghost use Rattle.class_tables.specs.Lines.{ancestors, parent_at};
ghost use Rattle.class_tables.specs.Tables.{all_in};
ghost use Rattle.class_walk.specs.Missing as spec;

use crate::method::is_lacked;
use apex_num::NoMemory;
use class_tables::{ClassHeads, MemberTables, MethodHead, Parent};

fn any_lacked(
    tables: &MemberTables,
    lines: &ClassHeads,
    class: usize,
    methods: &[MethodHead],
) -> Result<bool, NoMemory>
    ensures { IfOk result (λ b. b ≡ list_any (spec.is_lacked (all_in tables.now) lines.now.heads class) methods.now) }
{
    for method in methods {
        if is_lacked(tables, lines, class, method)? {
            return Ok(true);
        }
    }
    Ok(false)
}

fn lacks_of(
    tables: &MemberTables,
    lines: &ClassHeads,
    class: usize,
    ancestor: usize,
) -> Result<bool, NoMemory>
    ensures { IfOk result (λ b. b ≡ spec.lacks_of (all_in tables.now) lines.now.heads class ancestor) }
{
    match tables.tables.get(ancestor) {
        Some(table) => any_lacked(tables, lines, class, table.members.methods.as_slice()),
        None => Ok(false),
    }
}

#[cycle(lacks_within)]
fn lacks_within(
    tables: &MemberTables,
    lines: &ClassHeads,
    most: usize,
    class: usize,
    ancestor: usize,
) -> Result<bool, NoMemory>
    ensures { IfOk result (λ b. b ≡ list_any (spec.lacks_of (all_in tables.now) lines.now.heads class) (ancestor ∷ ancestors lines.now.heads most (parent_at lines.now.heads ancestor))) }
{
    if lacks_of(tables, lines, class, ancestor)? {
        return Ok(true);
    }
    if most == 0 {
        return Ok(false);
    }
    match lines.parent(ancestor) {
        Parent::Class(next) => {
            let more = lacks_within(tables, lines, most - 1, class, next)?;
            Ok(more)
        }
        Parent::None | Parent::Exception => Ok(false),
    }
}

/// Whether an ancestor has a method without a body in whose place the class has none with one.
pub fn lacks_inherited(
    tables: &MemberTables,
    lines: &ClassHeads,
    class: usize,
) -> Result<bool, NoMemory>
    ensures { IfOk result (λ b. b ≡ spec.lacks_inherited (all_in tables.now) lines.now.heads class) }
{
    match lines.parent(class) {
        Parent::Class(next) => lacks_within(tables, lines, 31, class, next),
        Parent::None | Parent::Exception => Ok(false),
    }
}
