// What a call means.

ghost use Rattle.std.specs.Prelude.{◌≡◌, IfOk};
ghost use Rattle.name_meanings.specs.Settings.{around};
ghost use Rattle.static_types.specs.declared.kind.ValueType.TheViews.{out-ValueType};
ghost use Rattle.type_names.specs.Walks.{Comes, Tells};
ghost use Rattle.method_calls.specs.Callees as spec;
ghost use Rattle.method_calls.specs.MethodNamings.{namings};

use crate::builtin::{BuiltinUse, Target, builtin_use, space_word, type_word};
use crate::found::{MethodUse, method_use};
use crate::named::{MethodNames, Way};
use apex_num::NoMemory;
use apex_syntax::Word;
use apex_text::Name;
use builtin_table::Builtin;
use class_tables::{Member, Parent};
use fault_words::FaultWord;
use name_meanings::Setting;
use static_types::ValueType;
use std::alloc::Global;
use type_names::{TreeFault, WalkFault};
use typed_values::{Kind, Role, Space, Typed};

/// What a call means, whatever its arguments are.
#[derive(Clone, Copy, Drop)]
pub enum Callee {
    /// The static method of a class.
    Static(Member),
    /// A method of an instance, and whether the nearest one of the instance's own class is called.
    Method(Member, bool),
    /// A built-in method of a value.
    Builtin(Builtin),
    /// A built-in method of a type.
    OfType(Builtin),
    /// `System.debug`
    Debug,
    /// There are methods of the name, and none with so many parameters.
    WrongCount,
    /// What is behind a value whose type has a fault of its own.
    Faulty,
}

// A method that isn't there, unless it is a built-in one.
fn built_in(found: BuiltinUse, at: usize) -> Result<Callee, TreeFault>
    ensures { Tells (spec.built_in found at) result }
{
    match found {
        BuiltinUse::Found(builtin) => Ok(Callee::Builtin(builtin)),
        BuiltinUse::WrongCount => Ok(Callee::WrongCount),
        BuiltinUse::Unknown => Err(TreeFault::new(FaultWord::UnknownName, at)),
    }
}

fn of_type(found: BuiltinUse, at: usize) -> Result<Callee, TreeFault>
    ensures { Tells (spec.of_type found at) result }
{
    match found {
        BuiltinUse::Found(builtin) => Ok(Callee::OfType(builtin)),
        BuiltinUse::WrongCount => Ok(Callee::WrongCount),
        BuiltinUse::Unknown => Err(TreeFault::new(FaultWord::UnknownName, at)),
    }
}

fn on_instance(found: MethodUse, at: usize) -> Result<Callee, TreeFault>
    ensures { Tells (spec.on_instance found at) result }
{
    match found {
        MethodUse::Found(member, nearest) => Ok(Callee::Method(member, nearest)),
        MethodUse::Builtin(builtin) => Ok(Callee::Builtin(builtin)),
        MethodUse::WrongCount => Ok(Callee::WrongCount),
        MethodUse::Hidden => Err(TreeFault::new(FaultWord::NotVisible, at)),
        MethodUse::Unknown => Err(TreeFault::new(FaultWord::UnknownName, at)),
    }
}

fn on_class(found: MethodUse, at: usize) -> Result<Callee, TreeFault>
    ensures { Tells (spec.on_class found at) result }
{
    match found {
        MethodUse::Found(member, _) => Ok(Callee::Static(member)),
        MethodUse::Builtin(builtin) => Ok(Callee::Builtin(builtin)),
        MethodUse::WrongCount => Ok(Callee::WrongCount),
        MethodUse::Hidden => Err(TreeFault::new(FaultWord::NotVisible, at)),
        MethodUse::Unknown => Err(TreeFault::new(FaultWord::UnknownName, at)),
    }
}

fn or_wrong(found: MethodUse, at: usize) -> Result<Callee, TreeFault>
    ensures { Tells (spec.or_wrong found at) result }
{
    match found {
        MethodUse::Unknown => Ok(Callee::WrongCount),
        found => on_class(found, at),
    }
}

// A method of `this`, and then a static one.
fn or_static(own: MethodUse, other: MethodUse, at: usize) -> Result<Callee, TreeFault>
    ensures { Tells (spec.or_static own other at) result }
{
    match own {
        MethodUse::Unknown => on_class(other, at),
        MethodUse::WrongCount => or_wrong(other, at),
        own => on_instance(own, at),
    }
}

fn is_plain_list(kind: &ValueType) -> bool
    ensures { result ≡ spec.is_plain_list (out-ValueType kind.now) }
{
    match kind {
        ValueType::List(item) => match item.get() {
            ValueType::Primitive(_) => true,
            _ => false,
        },
        _ => false,
    }
}

fn other_method(
    alloc: Global,
    kind: &ValueType,
    word: &Word,
    count: usize,
) -> Result<Callee, WalkFault>
    ensures { Comes (spec.other_method (out-ValueType kind.now) word.now count) result }
{
    let on = Target::OnValue(is_plain_list(kind));
    let found = builtin_use(alloc, type_word(kind), &word.name, count, on)?;
    Ok(built_in(found, word.span.from)?)
}

fn type_method(
    alloc: Global,
    setting: &Setting,
    names: &MethodNames,
    kind: &ValueType,
    word: &Word,
    count: usize,
) -> Result<Callee, WalkFault>
    ensures { Comes (spec.type_method (around setting.now) (namings names.now) (out-ValueType kind.now) word.now count) result }
{
    match kind {
        ValueType::Class(class) => {
            let name = &word.name;
            let found = method_use(alloc, setting, names, Way::Instance, *class, name, count)?;
            Ok(on_instance(found, word.span.from)?)
        }
        kind => other_method(alloc, kind, word, count),
    }
}

fn value_method(
    alloc: Global,
    setting: &Setting,
    names: &MethodNames,
    kind: &Kind,
    word: &Word,
    count: usize,
) -> Result<Callee, WalkFault>
    ensures { Comes (spec.value_method (around setting.now) (namings names.now) kind.now word.now count) result }
{
    match kind {
        Kind::Is(kind) => type_method(alloc, setting, names, kind, word, count),
        Kind::Faulty => Ok(Callee::Faulty),
        Kind::Nothing | Kind::Null => {
            Err(TreeFault::new(FaultWord::UnknownName, word.span.from).into())
        }
    }
}

fn system_method(word: &Word, count: usize) -> Result<Callee, TreeFault>
    ensures { Tells (spec.system_method word.now count) result }
{
    if word.name.bytes() != b"debug".as_slice() {
        return Err(TreeFault::new(FaultWord::UnknownName, word.span.from));
    }
    if count == 1 {
        Ok(Callee::Debug)
    } else {
        Ok(Callee::WrongCount)
    }
}

fn trigger_method(trigger: Option<usize>, at: usize, word: &Word) -> Result<Callee, TreeFault>
    ensures { Tells (spec.trigger_method trigger at word.now) result }
{
    match trigger {
        Some(_) => Err(TreeFault::new(FaultWord::UnknownName, word.span.from)),
        None => Err(TreeFault::new(FaultWord::BadTrigger, at)),
    }
}

// Behind a name that is no value and begins at this byte.
fn space_method(
    alloc: Global,
    setting: &Setting,
    names: &MethodNames,
    space: Space,
    at: usize,
    word: &Word,
    count: usize,
) -> Result<Callee, WalkFault>
    ensures { Comes (spec.space_method (around setting.now) (namings names.now) space at word.now count) result }
{
    match space {
        Space::Class(class) => {
            let name = &word.name;
            let found = method_use(alloc, setting, names, Way::Static, class, name, count)?;
            Ok(on_class(found, word.span.from)?)
        }
        Space::System => Ok(system_method(word, count)?),
        Space::Trigger => Ok(trigger_method(setting.trigger, at, word)?),
        space => {
            let found = builtin_use(alloc, space_word(space), &word.name, count, Target::OnType)?;
            Ok(of_type(found, word.span.from)?)
        }
    }
}

fn behind_super(
    alloc: Global,
    setting: &Setting,
    names: &MethodNames,
    parent: Parent,
    word: &Word,
    count: usize,
) -> Result<Callee, WalkFault>
    ensures { Comes (spec.behind_super (around setting.now) (namings names.now) parent word.now count) result }
{
    let name = &word.name;
    match parent {
        Parent::Class(class) => {
            let found = method_use(alloc, setting, names, Way::Super, class, name, count)?;
            Ok(on_instance(found, word.span.from)?)
        }
        Parent::Exception => {
            let found = builtin_use(alloc, "exception", name, count, Target::OnValue(false))?;
            Ok(built_in(found, word.span.from)?)
        }
        Parent::None => Err(TreeFault::new(FaultWord::UnknownName, word.span.from).into()),
    }
}

fn own_parent(setting: &Setting) -> Parent
    ensures { result ≡ spec.own_parent (around setting.now) }
{
    match setting.class {
        Some(class) => setting.lines.parent(class),
        None => Parent::None,
    }
}

/// What a call behind a dot means. `UnknownName` at the name where there is no such method, `NotVisible` at it where it is
/// a private one of another class, `BadTrigger` at `Trigger` outside of one.
pub fn called_on(
    alloc: Global,
    setting: &Setting,
    names: &MethodNames,
    receiver: &Typed,
    word: &Word,
    count: usize,
) -> Result<Callee, WalkFault>
    ensures { Comes (spec.called_on (around setting.now) (namings names.now) receiver.now word.now count) result }
{
    match receiver.role {
        Role::Space(space) => {
            space_method(alloc, setting, names, space, receiver.at, word, count)
        }
        Role::Super => behind_super(alloc, setting, names, own_parent(setting), word, count),
        _ => value_method(alloc, setting, names, &receiver.kind, word, count),
    }
}

// Where there is no `this`, methods of instances are passed over.
fn own_use(
    alloc: Global,
    setting: &Setting,
    names: &MethodNames,
    class: usize,
    name: &Name,
    count: usize,
) -> Result<MethodUse, NoMemory>
    ensures { IfOk result (λ u. u ≡ spec.own_use (around setting.now) (namings names.now) class name.now count) }
{
    if setting.is_static {
        Ok(MethodUse::Unknown)
    } else {
        method_use(alloc, setting, names, Way::Instance, class, name, count)
    }
}

fn own_method(
    alloc: Global,
    setting: &Setting,
    names: &MethodNames,
    class: usize,
    word: &Word,
    count: usize,
) -> Result<Callee, WalkFault>
    ensures { Comes (spec.own_method (around setting.now) (namings names.now) class word.now count) result }
{
    let name = &word.name;
    let own = own_use(alloc, setting, names, class, name, count)?;
    let other = method_use(alloc, setting, names, Way::Static, class, name, count)?;
    Ok(or_static(own, other, word.span.from)?)
}

/// What a call of a name alone means: a method of the class whose code it is, or of an ancestor, on `this` or static.
/// `UnknownName` at the name where there is none, or one of `this` where there is no `this`, and `NotVisible` at it where
/// it is a private one of an ancestor.
pub fn called_alone(
    alloc: Global,
    setting: &Setting,
    names: &MethodNames,
    word: &Word,
    count: usize,
) -> Result<Callee, WalkFault>
    ensures { Comes (spec.called_alone (around setting.now) (namings names.now) word.now count) result }
{
    match setting.class {
        Some(class) => own_method(alloc, setting, names, class, word, count),
        None => Err(TreeFault::new(FaultWord::UnknownName, word.span.from).into()),
    }
}
