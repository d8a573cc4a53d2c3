// The methods of interfaces.

ghost use Rattle.std.specs.Prelude.{◌≡◌, ◌∷◌, IfOk};
ghost use Rattle.std.specs.List.{list_any};
ghost use Rattle.class_tables.specs.Lines.{ancestors, parent_at};
ghost use Rattle.class_tables.specs.Tables.{all_in};
ghost use Rattle.class_walk.specs.Missing as spec;

use crate::method::is_unmet;
use apex_num::NoMemory;
use class_tables::{ClassHeads, MemberTables, MethodHead, Parent};

fn any_unmet(
    tables: &MemberTables,
    lines: &ClassHeads,
    class: usize,
    signatures: &[MethodHead],
) -> Result<bool, NoMemory>
    ensures { IfOk result (λ b. b ≡ list_any (spec.is_unmet (all_in tables.now) lines.now.heads class) signatures.now) }
{
    for signature in signatures {
        if is_unmet(tables, lines, class, signature)? {
            return Ok(true);
        }
    }
    Ok(false)
}

fn lacks_for(
    tables: &MemberTables,
    lines: &ClassHeads,
    class: usize,
    interface: usize,
) -> Result<bool, NoMemory>
    ensures { IfOk result (λ b. b ≡ spec.lacks_for (all_in tables.now) lines.now.heads class interface) }
{
    match tables.tables.get(interface) {
        Some(table) => any_unmet(tables, lines, class, table.members.methods.as_slice()),
        None => Ok(false),
    }
}

fn any_lacks(
    tables: &MemberTables,
    lines: &ClassHeads,
    class: usize,
    interfaces: &[usize],
) -> Result<bool, NoMemory>
    ensures { IfOk result (λ b. b ≡ list_any (spec.lacks_for (all_in tables.now) lines.now.heads class) interfaces.now) }
{
    for interface in interfaces {
        if lacks_for(tables, lines, class, *interface)? {
            return Ok(true);
        }
    }
    Ok(false)
}

fn lacks_named(
    tables: &MemberTables,
    lines: &ClassHeads,
    class: usize,
    namer: usize,
) -> Result<bool, NoMemory>
    ensures { IfOk result (λ b. b ≡ spec.lacks_named (all_in tables.now) lines.now.heads class namer) }
{
    match lines.heads.get(namer) {
        Some(head) => any_lacks(tables, lines, class, head.interfaces.as_slice()),
        None => Ok(false),
    }
}

#[cycle(promised_within)]
fn promised_within(
    tables: &MemberTables,
    lines: &ClassHeads,
    most: usize,
    class: usize,
    namer: usize,
) -> Result<bool, NoMemory>
    ensures { IfOk result (λ b. b ≡ list_any (spec.lacks_named (all_in tables.now) lines.now.heads class) (namer ∷ ancestors lines.now.heads most (parent_at lines.now.heads namer))) }
{
    if lacks_named(tables, lines, class, namer)? {
        return Ok(true);
    }
    if most == 0 {
        return Ok(false);
    }
    match lines.parent(namer) {
        Parent::Class(next) => {
            let more = promised_within(tables, lines, most - 1, class, next)?;
            Ok(more)
        }
        Parent::None | Parent::Exception => Ok(false),
    }
}

/// Whether a method of an interface that a class or an ancestor names isn't met.
pub fn lacks_promised(
    tables: &MemberTables,
    lines: &ClassHeads,
    class: usize,
) -> Result<bool, NoMemory>
    ensures { IfOk result (λ b. b ≡ spec.lacks_promised (all_in tables.now) lines.now.heads class) }
{
    promised_within(tables, lines, 32, class, class)
}
