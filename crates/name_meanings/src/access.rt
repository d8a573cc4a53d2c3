// Names behind a dot.

ghost use Rattle.std.specs.Prelude.{◌≡◌, IfOk};
ghost use Rattle.std.specs.Option.{option_copied};
ghost use Rattle.class_tables.specs.Tables.{all_in};
ghost use Rattle.static_types.specs.declared.kind.ValueType.TheViews.{out-ValueType};
ghost use Rattle.type_names.specs.Walks.{Comes, Tells};
ghost use Rattle.name_meanings.specs.Accesses as spec;
ghost use Rattle.name_meanings.specs.Settings.{around};

use crate::field::{FieldUse, field_kind, field_use, role_of, static_value};
use crate::part::with_part;
use crate::record::{cell_type, field_in, may_set_cell, parent_object};
use crate::setting::Setting;
use crate::space::system_member;
use crate::variable::{variable_named, variable_type};
use apex_list::Boxed;
use apex_num::NoMemory;
use apex_schema::{Field, FieldKind, Object};
use apex_syntax::Word;
use class_tables::{Member, MemberTables};
use fault_words::FaultWord;
use record_words::{RecordKey, RecordWord, RecordWords};
use static_types::{Primitive, ValueType};
use std::alloc::Global;
use type_names::{TreeFault, WalkFault};
use typed_program::{TriggerVariable, TypedExpr, TypedPart};
use typed_values::{Kind, Role, Space, Typed};

/// What a name behind a dot leads to.
#[derive(Clone, Copy, Drop)]
pub enum Access {
    /// Something that is no value.
    Space(Space),
    /// A static, and whether it may be assigned to.
    Static(Member, bool),
    /// A variable of a trigger on an object.
    Variable(TriggerVariable, usize),
    /// A field of an instance, and whether it may be assigned to.
    Field(Member, bool),
    /// A cell of a record: its object, its field, the type of that, and whether it may be assigned to.
    Cell(usize, usize, Primitive, bool),
    /// The parent of a record: the record's object, the field that leads to it, and its object.
    Parent(usize, usize, usize),
    /// The children of a record: their object, and the field that leads to the record.
    Children(usize, usize),
    /// What stands behind a value whose type has a fault of its own.
    Faulty,
}

fn static_access(found: FieldUse, at: usize) -> Result<Access, TreeFault>
    ensures { Tells (spec.static_access found at) result }
{
    match found {
        FieldUse::Found(member, sets) => Ok(Access::Static(member, sets)),
        FieldUse::Hidden => Err(TreeFault::new(FaultWord::NotVisible, at)),
        FieldUse::Unknown => Err(TreeFault::new(FaultWord::UnknownName, at)),
    }
}

fn instance_access(found: FieldUse, at: usize) -> Result<Access, TreeFault>
    ensures { Tells (spec.instance_access found at) result }
{
    match found {
        FieldUse::Found(member, sets) => Ok(Access::Field(member, sets)),
        FieldUse::Hidden => Err(TreeFault::new(FaultWord::NotVisible, at)),
        FieldUse::Unknown => Err(TreeFault::new(FaultWord::UnknownName, at)),
    }
}

fn variable_access(object: usize, word: &Word) -> Result<Access, TreeFault>
    ensures { Tells (spec.variable_access object word.now) result }
{
    match variable_named(word.name.bytes()) {
        Some(variable) => Ok(Access::Variable(variable, object)),
        None => Err(TreeFault::new(FaultWord::UnknownName, word.span.from)),
    }
}

fn trigger_access(trigger: Option<usize>, at: usize, word: &Word) -> Result<Access, TreeFault>
    ensures { Tells (spec.trigger_access trigger at word.now) result }
{
    match trigger {
        Some(object) => variable_access(object, word),
        None => Err(TreeFault::new(FaultWord::BadTrigger, at)),
    }
}

// Behind a name that is no value and begins at this byte.
fn space_access(
    setting: &Setting,
    space: Space,
    at: usize,
    word: &Word,
) -> Result<Access, TreeFault>
    ensures { Tells (spec.space_access (around setting.now) space at word.now) result }
{
    match space {
        Space::System => {
            let space = system_member(at, word)?;
            Ok(Access::Space(space))
        }
        Space::Class(c) => {
            let found = field_use(setting, c, true, &word.name);
            static_access(found, word.span.from)
        }
        Space::Trigger => trigger_access(setting.trigger, at, word),
        Space::Record(_)
        | Space::Named(_)
        | Space::Database
        | Space::Math
        | Space::Limits
        | Space::UserInfo => Err(TreeFault::new(FaultWord::UnknownName, word.span.from)),
    }
}

fn cell_access(object: usize, n: usize, field: Option<&Field>) -> Option<Access>
    ensures { result ≡ spec.cell_access object n (option_copied field.entry) }
{
    match field {
        Some(field) => {
            let sets = may_set_cell(&field.kind);
            Some(Access::Cell(object, n, cell_type(&field.kind), sets))
        }
        None => None,
    }
}

fn parent_through(object: usize, n: usize, kind: &FieldKind) -> Option<Access>
    ensures { result ≡ spec.parent_through object n kind.now }
{
    match parent_object(kind) {
        Some(to) => Some(Access::Parent(object, n, to)),
        None => None,
    }
}

fn parent_access(object: usize, n: usize, field: Option<&Field>) -> Option<Access>
    ensures { result ≡ spec.parent_access object n (option_copied field.entry) }
{
    match field {
        Some(field) => parent_through(object, n, &field.kind),
        None => None,
    }
}

fn word_access(objects: &[Object], object: usize, word: RecordWord) -> Option<Access>
    ensures { result ≡ spec.word_access objects.now object word }
{
    match word {
        RecordWord::Field(n) => cell_access(object, n, field_in(objects, object, n)),
        RecordWord::Parent(n) => parent_access(object, n, field_in(objects, object, n)),
        RecordWord::Children(child, n) => Some(Access::Children(child, n)),
    }
}

fn known_word(words: &RecordWords, key: &RecordKey) -> Option<Access>
    ensures { result ≡ spec.known_word words.now.schema.now.objects key.now }
{
    match words.word(key) {
        Some(word) => word_access(words.schema.objects.as_slice(), key.object, word),
        None => None,
    }
}

fn record_access(words: &RecordWords, object: usize, word: &Word) -> Result<Access, WalkFault>
    ensures { Comes (spec.record_access words.now.schema.now.objects object word.now) result }
{
    let name = word.name.copy()?;
    match known_word(words, &RecordKey { object, name }) {
        Some(access) => Ok(access),
        None => Err(TreeFault::new(FaultWord::UnknownName, word.span.from).into()),
    }
}

fn type_access(setting: &Setting, kind: &ValueType, word: &Word) -> Result<Access, WalkFault>
    ensures { Comes (spec.type_access (around setting.now) (out-ValueType kind.now) word.now) result }
{
    match kind {
        ValueType::Class(c) => {
            let found = field_use(setting, *c, false, &word.name);
            Ok(instance_access(found, word.span.from)?)
        }
        ValueType::Record(object) => record_access(setting.words, *object, word),
        _ => Err(TreeFault::new(FaultWord::UnknownName, word.span.from).into()),
    }
}

fn value_access(setting: &Setting, kind: &Kind, word: &Word) -> Result<Access, WalkFault>
    ensures { Comes (spec.value_access (around setting.now) kind.now word.now) result }
{
    match kind {
        Kind::Is(kind) => type_access(setting, kind, word),
        Kind::Faulty => Ok(Access::Faulty),
        Kind::Nothing | Kind::Null => {
            Err(TreeFault::new(FaultWord::UnknownName, word.span.from).into())
        }
    }
}

fn access_of(setting: &Setting, receiver: &Typed, word: &Word) -> Result<Access, WalkFault>
    ensures { Comes (spec.access_of (around setting.now) receiver.now word.now) result }
{
    match receiver.role {
        Role::Space(space) => Ok(space_access(setting, space, receiver.at, word)?),
        _ => value_access(setting, &receiver.kind, word),
    }
}

fn is_relation(role: Role) -> bool
    ensures { result ≡ spec.is_relation role }
{
    match role {
        Role::Relation => true,
        _ => false,
    }
}

// A value with one part more.
fn going_on(
    alloc: Global,
    receiver: Typed,
    kind: Kind,
    role: Role,
    part: TypedPart,
) -> Result<Typed, NoMemory>
    ensures { IfOk result (λ t. t ≡ spec.going_on receiver kind role part) }
{
    let at = receiver.at;
    let tree = with_part(alloc, receiver.tree, part)?;
    Ok(Typed {
        at,
        kind,
        role,
        tree,
    })
}

fn field_value(
    alloc: Global,
    members: &MemberTables,
    receiver: Typed,
    member: Member,
    sets: bool,
) -> Result<Typed, NoMemory>
    ensures { IfOk result (λ t. t ≡ spec.field_value (all_in members.now) receiver member sets) }
{
    let kind = field_kind(members, member)?;
    let part = TypedPart::Field(member.class, member.place);
    going_on(alloc, receiver, kind, role_of(sets), part)
}

fn children_value(
    alloc: Global,
    receiver: Typed,
    child: usize,
    field: usize,
) -> Result<Typed, NoMemory>
    ensures { IfOk result (λ t. t ≡ spec.children_value receiver child field) }
{
    let kind = ValueType::List(Boxed::new(alloc, ValueType::Record(child))?);
    let part = TypedPart::Children(child, field, is_relation(receiver.role));
    going_on(alloc, receiver, Kind::Is(kind), Role::Plain, part)
}

fn variable_value(
    alloc: Global,
    at: usize,
    variable: TriggerVariable,
    object: usize,
) -> Result<Typed, NoMemory>
    ensures { IfOk result (λ t. t ≡ spec.variable_value at variable object) }
{
    let kind = variable_type(alloc, variable, object)?;
    Typed::plain(
        alloc,
        at,
        Kind::Is(kind),
        TypedExpr::TriggerVariable(variable),
    )
}

fn reached(
    alloc: Global,
    members: &MemberTables,
    receiver: Typed,
    access: Access,
) -> Result<Typed, NoMemory>
    ensures { IfOk result (λ t. t ≡ spec.reached (all_in members.now) receiver access) }
{
    let lenient = is_relation(receiver.role);
    match access {
        Access::Space(space) => Ok(Typed {
            at: receiver.at,
            kind: Kind::Nothing,
            role: Role::Space(space),
            tree: receiver.tree,
        }),
        Access::Static(member, sets) => static_value(alloc, members, receiver.at, member, sets),
        Access::Variable(variable, object) => variable_value(alloc, receiver.at, variable, object),
        Access::Field(member, sets) => field_value(alloc, members, receiver, member, sets),
        Access::Cell(object, n, p, sets) => {
            let kind = Kind::Is(ValueType::Primitive(p));
            going_on(
                alloc,
                receiver,
                kind,
                role_of(sets),
                TypedPart::Cell(object, n, lenient),
            )
        }
        Access::Parent(object, n, to) => {
            let kind = Kind::Is(ValueType::Record(to));
            going_on(
                alloc,
                receiver,
                kind,
                Role::Relation,
                TypedPart::Parent(object, n, lenient),
            )
        }
        Access::Children(child, field) => children_value(alloc, receiver, child, field),
        Access::Faulty => {
            let part = TypedPart::Field(0, 0);
            going_on(alloc, receiver, Kind::Faulty, Role::Variable, part)
        }
    }
}

/// What an expression, a dot and a name mean together: a static of a class, a field of an instance, a field of a record,
/// its parent or its children, a variable of a trigger, or what stands behind `System`. `UnknownName` at the name where
/// there is no such thing, `NotVisible` at it where it is a private field of another class, `BadTrigger` at `Trigger`
/// outside of one.
pub fn member_of(
    alloc: Global,
    setting: &Setting,
    receiver: Typed,
    word: &Word,
) -> Result<Typed, WalkFault>
    ensures { Comes (spec.member_of (around setting.now) receiver word.now) result }
{
    let access = access_of(setting, &receiver, word)?;
    Ok(reached(alloc, setting.members, receiver, access)?)
}
