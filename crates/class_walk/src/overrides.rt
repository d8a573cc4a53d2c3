// Methods that override others.

ghost use Rattle.std.specs.Prelude.{◌≡◌, ◌∷◌, slice_get, IfOk};
ghost use Rattle.std.specs.Option.{option_copied};
ghost use Rattle.class_tables.specs.Lines.{ancestors, parent_at};
ghost use Rattle.class_tables.specs.Lookups.{first_in, in_table};
ghost use Rattle.class_tables.specs.Tables.{all_in};
ghost use Rattle.class_walk.specs.Overrides as spec;

use crate::signature::same_signature;
use apex_num::NoMemory;
use class_tables::{ClassHeads, Member, MemberTable, MemberTables, MethodHead, MethodKey, Parent};

fn is_inherited(method: Option<&MethodHead>) -> bool
    ensures { result ≡ spec.is_inherited (option_copied method.entry) }
{
    match method {
        Some(method) => !method.is_private,
        None => false,
    }
}

fn inherited_in(table: &MemberTable, key: &MethodKey) -> Option<usize>
    ensures { result ≡ spec.own_inherited key.now table.now.members }
{
    match table.method(key) {
        Some(place) => {
            if is_inherited(table.members.methods.get(place)) {
                Some(place)
            } else {
                None
            }
        }
        None => None,
    }
}

fn inherited_from(tables: &MemberTables, class: usize, key: &MethodKey) -> Option<usize>
    ensures { result ≡ in_table (spec.own_inherited key.now) (slice_get (all_in tables.now) class) }
{
    match tables.tables.get(class) {
        Some(table) => inherited_in(table, key),
        None => None,
    }
}

#[cycle(inherited)]
fn inherited(
    tables: &MemberTables,
    lines: &ClassHeads,
    most: usize,
    class: usize,
    key: &MethodKey,
) -> Option<Member>
    ensures { result ≡ first_in (spec.own_inherited key.now) (all_in tables.now) (class ∷ ancestors lines.now.heads most (parent_at lines.now.heads class)) }
{
    if let Some(place) = inherited_from(tables, class, key) {
        return Some(Member { class, place });
    }
    if most == 0 {
        return None;
    }
    match lines.parent(class) {
        Parent::Class(c) => inherited(tables, lines, most - 1, c, key),
        Parent::None | Parent::Exception => None,
    }
}

// The method of this key that a class gets from its nearest ancestor that has one; no private one.
fn overridden(
    tables: &MemberTables,
    lines: &ClassHeads,
    class: usize,
    key: &MethodKey,
) -> Option<Member>
    ensures { result ≡ spec.overridden (all_in tables.now) lines.now.heads class key.now }
{
    match lines.parent(class) {
        Parent::Class(c) => inherited(tables, lines, 31, c, key),
        Parent::None | Parent::Exception => None,
    }
}

/// The method in a place, if there is one.
pub fn method_of(tables: &MemberTables, member: Option<Member>) -> Option<&MethodHead>
    ensures { option_copied result ≡ spec.method_of (all_in tables.now) member }
{
    match member {
        Some(member) => tables.method_at(member),
        None => None,
    }
}

fn may_stand(over: Option<&MethodHead>, method: &MethodHead) -> bool
    ensures { result ≡ spec.may_stand (option_copied over.entry) method.now }
{
    match over {
        Some(over) => method.is_override && over.is_virtual && same_signature(over, method),
        None => !method.is_override,
    }
}

fn fits_over(
    tables: &MemberTables,
    lines: &ClassHeads,
    class: usize,
    method: &MethodHead,
) -> Result<bool, NoMemory>
    ensures { IfOk result (λ b. b ≡ spec.fits_over (all_in tables.now) lines.now.heads class method.now) }
{
    if method.is_static {
        return Ok(!method.is_override);
    }
    let key = method.key()?;
    let over = overridden(tables, lines, class, &key);
    Ok(may_stand(method_of(tables, over), method))
}

/// Whether a method of a class overrides as it may: it says `override` exactly where an ancestor has an instance method of
/// its name and number of parameters that isn't private, and that one is virtual and has the same types.
pub fn overrides_well(
    tables: &MemberTables,
    lines: &ClassHeads,
    class: usize,
    method: Option<&MethodHead>,
) -> Result<bool, NoMemory>
    ensures { IfOk result (λ b. b ≡ spec.overrides_well (all_in tables.now) lines.now.heads class (option_copied method.entry)) }
{
    match method {
        Some(method) => fits_over(tables, lines, class, method),
        None => Ok(true),
    }
}
