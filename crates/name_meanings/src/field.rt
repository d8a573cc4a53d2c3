// Fields of classes.

ghost use Rattle.std.specs.Prelude.{◌≡◌, Some, IfOk};
ghost use Rattle.class_tables.specs.Tables.{all_in};
ghost use Rattle.name_meanings.specs.Fields as spec;
ghost use Rattle.name_meanings.specs.Settings.{around};

use crate::setting::Setting;
use apex_num::NoMemory;
use apex_text::Name;
use class_tables::{FieldHead, Member, MemberTables};
use static_types::ValueType;
use std::alloc::Global;
use typed_program::TypedExpr;
use typed_values::{Kind, Role, Typed};

/// How a name may be used as that of a field.
#[derive(Clone, Copy, Drop)]
pub enum FieldUse {
    /// There is no such field.
    Unknown,
    /// It is private, and the code isn't that of its class.
    Hidden,
    /// It is there, and whether it may be assigned to.
    Found(Member, bool),
}

/// Whether code of this class, if it is a class's, is that of the class that declares something.
pub fn is_own(class: Option<usize>, declares: usize) -> bool
    ensures { result ≡ spec.is_own class declares }
{
    match class {
        Some(c) => c == declares,
        None => false,
    }
}

// A final one is set in the constructors of its class alone, and where it is declared.
fn may_set(setting: &Setting, field: &FieldHead, class: usize) -> bool
    ensures { result ≡ spec.may_set (around setting.now) field.now class }
{
    !field.is_final || (!field.is_static && setting.in_constructor && is_own(setting.class, class))
}

fn use_of(setting: &Setting, member: Member, field: &FieldHead) -> FieldUse
    ensures { result ≡ spec.use_of (around setting.now) member field.now }
{
    if field.is_private && !is_own(setting.class, member.class) {
        FieldUse::Hidden
    } else {
        FieldUse::Found(member, may_set(setting, field, member.class))
    }
}

fn use_at(setting: &Setting, member: Member) -> FieldUse
    ensures { result ≡ spec.use_found (around setting.now) (Some member) }
{
    match setting.members.field_at(member) {
        Some(field) => use_of(setting, member, field),
        None => FieldUse::Unknown,
    }
}

/// How code may use a name as that of a static of a class, or of a field of its instances.
pub fn field_use(setting: &Setting, class: usize, is_static: bool, name: &Name) -> FieldUse
    ensures { result ≡ spec.field_use (around setting.now) class is_static name.now }
{
    match setting.members.field(setting.lines, class, is_static, name) {
        Some(member) => use_at(setting, member),
        None => FieldUse::Unknown,
    }
}

fn known_kind(kind: &Option<ValueType>) -> Result<Kind, NoMemory>
    ensures { IfOk result (λ k. k ≡ spec.known_kind kind.now) }
{
    match kind {
        Some(kind) => Ok(Kind::Is(kind.copy()?)),
        None => Ok(Kind::Faulty),
    }
}

/// The type of a field.
pub fn field_kind(members: &MemberTables, member: Member) -> Result<Kind, NoMemory>
    ensures { IfOk result (λ k. k ≡ spec.field_kind (all_in members.now) member) }
{
    match members.field_at(member) {
        Some(field) => known_kind(&field.kind),
        None => Ok(Kind::Faulty),
    }
}

/// What may be done with something that may be assigned to, or not.
pub fn role_of(sets: bool) -> Role
    ensures { result ≡ spec.role_of sets }
{
    if sets { Role::Variable } else { Role::Plain }
}

/// The static that a member is, named at this byte.
pub fn static_value(
    alloc: Global,
    members: &MemberTables,
    at: usize,
    member: Member,
    sets: bool,
) -> Result<Typed, NoMemory>
    ensures { IfOk result (λ t. t ≡ spec.static_value (all_in members.now) at member sets) }
{
    let kind = field_kind(members, member)?;
    let tree = TypedExpr::Static(member.class, member.place);
    Typed::of(alloc, at, kind, role_of(sets), tree)
}
