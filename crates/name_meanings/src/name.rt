// Names that stand alone.

ghost use Rattle.std.specs.Prelude.{◌≡◌, IfOk};
ghost use Rattle.class_tables.specs.Tables.{all_in};
ghost use Rattle.type_names.specs.Walks.{Comes, Tells};
ghost use Rattle.name_meanings.specs.NamesAlone as spec;
ghost use Rattle.name_meanings.specs.Settings.{around};

use crate::field::{FieldUse, field_kind, field_use, role_of, static_value};
use crate::part::with_part;
use crate::setting::Setting;
use crate::space::space_named;
use apex_list::Boxed;
use apex_num::NoMemory;
use apex_syntax::Word;
use apex_text::Name;
use class_tables::{Member, MemberTables};
use fault_words::FaultWord;
use local_scopes::Scope;
use static_types::ValueType;
use std::alloc::Global;
use type_names::{TreeFault, WalkFault};
use typed_program::{Constant, TypedExpr, TypedPart};
use typed_values::{Kind, Role, Space, Typed};

/// What a name that stands alone means.
#[derive(Clone, Copy, Drop)]
pub enum Meaning {
    /// The local in a slot.
    Local(usize),
    /// A static of the class whose code it is, and whether it may be assigned to.
    Static(Member, bool),
    /// A field of `this`, and whether it may be assigned to.
    Own(Member, bool),
    /// Something that is no value.
    Space(Space),
}

fn space_meaning(setting: &Setting, word: &Word) -> Result<Meaning, TreeFault>
    ensures { Tells (spec.space_meaning (around setting.now) word.now) result }
{
    let space = space_named(&setting.names, word)?;
    Ok(Meaning::Space(space))
}

fn static_meaning(setting: &Setting, found: FieldUse, word: &Word) -> Result<Meaning, TreeFault>
    ensures { Tells (spec.static_meaning (around setting.now) found word.now) result }
{
    match found {
        FieldUse::Unknown => space_meaning(setting, word),
        FieldUse::Hidden => Err(TreeFault::new(FaultWord::NotVisible, word.span.from)),
        FieldUse::Found(member, sets) => Ok(Meaning::Static(member, sets)),
    }
}

fn field_meaning(
    setting: &Setting,
    class: usize,
    found: FieldUse,
    word: &Word,
) -> Result<Meaning, TreeFault>
    ensures { Tells (spec.field_meaning (around setting.now) class found word.now) result }
{
    match found {
        FieldUse::Unknown => {
            static_meaning(setting, field_use(setting, class, true, &word.name), word)
        }
        FieldUse::Hidden => Err(TreeFault::new(FaultWord::NotVisible, word.span.from)),
        FieldUse::Found(member, sets) => Ok(Meaning::Own(member, sets)),
    }
}

// Where there is no `this`, fields of instances are passed over.
fn own_use(setting: &Setting, class: usize, name: &Name) -> FieldUse
    ensures { result ≡ spec.own_use (around setting.now) class name.now }
{
    if setting.is_static {
        FieldUse::Unknown
    } else {
        field_use(setting, class, false, name)
    }
}

fn class_meaning(setting: &Setting, word: &Word) -> Result<Meaning, TreeFault>
    ensures { Tells (spec.class_meaning (around setting.now) word.now) result }
{
    match setting.class {
        Some(class) => { field_meaning(setting, class, own_use(setting, class, &word.name), word) }
        None => space_meaning(setting, word),
    }
}

fn meaning_of(setting: &Setting, scope: &Scope, word: &Word) -> Result<Meaning, TreeFault>
    ensures { Tells (spec.meaning_of (around setting.now) scope.now word.now) result }
{
    match scope.slot(&word.name) {
        Some(slot) => Ok(Meaning::Local(slot)),
        None => class_meaning(setting, word),
    }
}

fn local_kind(scope: &Scope, slot: usize) -> Result<Kind, NoMemory>
    ensures { IfOk result (λ k. k ≡ spec.local_kind scope.now slot) }
{
    match scope.kind(slot) {
        Some(kind) => Ok(Kind::Is(kind.copy()?)),
        None => Ok(Kind::Faulty),
    }
}

fn own_field(
    alloc: Global,
    members: &MemberTables,
    at: usize,
    member: Member,
    sets: bool,
) -> Result<Typed, NoMemory>
    ensures { IfOk result (λ t. t ≡ spec.own_field (all_in members.now) at member sets) }
{
    let kind = field_kind(members, member)?;
    let this = Boxed::new(alloc, TypedExpr::This)?;
    let tree = with_part(alloc, this, TypedPart::Field(member.class, member.place))?;
    Ok(Typed {
        at,
        kind,
        role: role_of(sets),
        tree,
    })
}

fn meant(
    alloc: Global,
    members: &MemberTables,
    scope: &Scope,
    at: usize,
    meaning: Meaning,
) -> Result<Typed, NoMemory>
    ensures { IfOk result (λ t. t ≡ spec.meant (all_in members.now) scope.now at meaning) }
{
    match meaning {
        Meaning::Local(slot) => {
            let kind = local_kind(scope, slot)?;
            Typed::of(alloc, at, kind, Role::Variable, TypedExpr::Local(slot))
        }
        Meaning::Static(member, sets) => static_value(alloc, members, at, member, sets),
        Meaning::Own(member, sets) => own_field(alloc, members, at, member, sets),
        Meaning::Space(space) => {
            let tree = TypedExpr::Constant(Constant::Null);
            Typed::of(alloc, at, Kind::Nothing, Role::Space(space), tree)
        }
    }
}

/// What a name that stands alone means: a local; a field of `this`, where there is one; a static of the class whose code
/// it is or of an ancestor; before a dot a word of the platform, a built-in type, a class or an object, looked for in
/// this order. `UnknownName` where it means nothing, `NotVisible` where it is a private field or static of an ancestor;
/// `DoubleRefused`.
pub fn name_in(
    alloc: Global,
    setting: &Setting,
    scope: &Scope,
    word: &Word,
) -> Result<Typed, WalkFault>
    ensures { Comes (spec.name_in (around setting.now) scope.now word.now) result }
{
    let meaning = meaning_of(setting, scope, word)?;
    Ok(meant(alloc, setting.members, scope, word.span.from, meaning)?)
}

// The class whose instance `this` is.
fn this_class(setting: &Setting) -> Option<usize>
    ensures { result ≡ spec.this_class (around setting.now) }
{
    if setting.is_static {
        None
    } else {
        setting.class
    }
}

/// `this`, or `UnknownName` at it where there is none.
pub fn this_in(alloc: Global, setting: &Setting, at: usize) -> Result<Typed, WalkFault>
    ensures { Comes (spec.this_in (around setting.now) at) result }
{
    match this_class(setting) {
        Some(class) => {
            let kind = Kind::Is(ValueType::Class(class));
            Ok(Typed::plain(alloc, at, kind, TypedExpr::This)?)
        }
        None => Err(TreeFault::new(FaultWord::UnknownName, at).into()),
    }
}

/// `super`, which is no value by itself, or `UnknownName` at it where there is no `this`.
pub fn super_in(alloc: Global, setting: &Setting, at: usize) -> Result<Typed, WalkFault>
    ensures { Comes (spec.super_in (around setting.now) at) result }
{
    match this_class(setting) {
        Some(_) => Ok(Typed::of(alloc, at, Kind::Nothing, Role::Super, TypedExpr::This)?),
        None => Err(TreeFault::new(FaultWord::UnknownName, at).into()),
    }
}
