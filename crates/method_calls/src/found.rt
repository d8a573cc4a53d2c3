// Methods of classes.

ghost use Rattle.std.specs.Prelude.{◌≡◌, ◌∷◌, IfOk};
ghost use Rattle.std.specs.Option.{option_copied};
ghost use Rattle.class_tables.specs.Lines.{ancestors, parent_at};
ghost use Rattle.class_tables.specs.Lookups.{first_in, own_method};
ghost use Rattle.class_tables.specs.Tables.{all_in};
ghost use Rattle.name_meanings.specs.Settings.{around};
ghost use Rattle.method_calls.specs.MethodNamings.{namings, may_run};
ghost use Rattle.method_calls.specs.MethodUses as spec;

use crate::builtin::{BuiltinUse, Target, builtin_use};
use crate::named::{MethodNames, Way, may_run, open_at};
use apex_num::NoMemory;
use apex_text::Name;
use builtin_table::Builtin;
use class_tables::{ClassHeads, Member, MemberTables, MethodHead, MethodKey, Parent};
use name_meanings::{Setting, is_own};
use std::alloc::Global;

/// How a name and a number of arguments may be used as those of a method.
#[derive(Clone, Copy, Drop)]
pub enum MethodUse {
    /// There is no such method, or none that could run.
    Unknown,
    /// There are methods of the name that may be called so, and none with so many parameters.
    WrongCount,
    /// It is private, and the code isn't that of its class.
    Hidden,
    /// It is there, and whether the nearest one of the instance's own class is called.
    Found(Member, bool),
    /// It is one of all exceptions.
    Builtin(Builtin),
}

// The first of these interfaces that has this method.
fn first_among(tables: &MemberTables, classes: &[usize], key: &MethodKey) -> Option<Member>
    ensures { result ≡ first_in (own_method key.now) (all_in tables.now) classes.now }
{
    for class in classes {
        if let Some(place) = tables.own_method(*class, key) {
            return Some(Member {
                class: *class,
                place,
            });
        }
    }
    None
}

// The first of the interfaces that a class, or one of so many ancestors, leaves open.
#[cycle(open_within)]
fn open_within(
    tables: &MemberTables,
    lines: &ClassHeads,
    most: usize,
    class: usize,
    key: &MethodKey,
) -> Option<Member>
    ensures { result ≡ spec.first_open key.now (all_in tables.now) lines.now.heads (class ∷ ancestors lines.now.heads most (parent_at lines.now.heads class)) }
{
    if let Some(member) = first_among(tables, open_at(lines, class), key) {
        return Some(member);
    }
    if most == 0 {
        return None;
    }
    match lines.parent(class) {
        Parent::Class(c) => open_within(tables, lines, most - 1, c, key),
        Parent::None | Parent::Exception => None,
    }
}

fn found_called(
    tables: &MemberTables,
    lines: &ClassHeads,
    class: usize,
    key: &MethodKey,
) -> Option<Member>
    ensures { result ≡ spec.found_called (all_in tables.now) lines.now.heads class key.now }
{
    match tables.method(lines, class, key) {
        Some(member) => Some(member),
        None => open_within(tables, lines, 32, class, key),
    }
}

fn is_static_way(way: Way) -> bool
    ensures { result ≡ spec.is_static_way way }
{
    match way {
        Way::Static => true,
        Way::Instance | Way::Super => false,
    }
}

// Calls of private methods aren't virtual.
fn is_nearest(way: Way, method: &MethodHead) -> bool
    ensures { result ≡ spec.is_nearest way method.now }
{
    match way {
        Way::Instance => !method.is_private,
        Way::Static | Way::Super => false,
    }
}

fn use_of(setting: &Setting, way: Way, member: Member, method: &MethodHead) -> MethodUse
    ensures { result ≡ spec.use_of (around setting.now) way member method.now }
{
    if !may_run(way, method) {
        return MethodUse::Unknown;
    }
    if method.is_private && !is_own(setting.class, member.class) {
        return MethodUse::Hidden;
    }
    MethodUse::Found(member, is_nearest(way, method))
}

fn use_at(setting: &Setting, way: Way, member: Member, method: Option<&MethodHead>) -> MethodUse
    ensures { result ≡ spec.use_at (around setting.now) way member (option_copied method.entry) }
{
    match method {
        Some(method) => use_of(setting, way, member, method),
        None => MethodUse::Unknown,
    }
}

// The methods of all exceptions, of a class that is one.
fn exceptions_use(
    alloc: Global,
    setting: &Setting,
    class: usize,
    name: &Name,
    count: usize,
) -> Result<BuiltinUse, NoMemory>
    ensures { IfOk result (λ u. u ≡ spec.exceptions_use (around setting.now) class name.now count) }
{
    if setting.lines.is_exception(class) {
        builtin_use(alloc, "exception", name, count, Target::OnValue(false))
    } else {
        Ok(BuiltinUse::Unknown)
    }
}

fn exception_use(
    alloc: Global,
    setting: &Setting,
    way: Way,
    class: usize,
    name: &Name,
    count: usize,
) -> Result<BuiltinUse, NoMemory>
    ensures { IfOk result (λ u. u ≡ spec.exception_use (around setting.now) way class name.now count) }
{
    match way {
        Way::Static => Ok(BuiltinUse::Unknown),
        Way::Instance | Way::Super => exceptions_use(alloc, setting, class, name, count),
    }
}

fn absent(found: BuiltinUse, named: bool) -> MethodUse
    ensures { result ≡ spec.absent found named }
{
    match found {
        BuiltinUse::Found(builtin) => MethodUse::Builtin(builtin),
        BuiltinUse::WrongCount => MethodUse::WrongCount,
        BuiltinUse::Unknown => {
            if named {
                MethodUse::WrongCount
            } else {
                MethodUse::Unknown
            }
        }
    }
}

fn use_found(
    alloc: Global,
    setting: &Setting,
    names: &MethodNames,
    way: Way,
    class: usize,
    key: &MethodKey,
    found: Option<Member>,
) -> Result<MethodUse, NoMemory>
    ensures { IfOk result (λ u. u ≡ spec.use_found (around setting.now) (namings names.now) way class key.now.name key.now.count found) }
{
    match found {
        Some(member) => Ok(use_at(setting, way, member, setting.members.method_at(member))),
        None => {
            let of_all = exception_use(alloc, setting, way, class, &key.name, key.count)?;
            let named = names.has(way, setting.lines, class, &key.name);
            Ok(absent(of_all, named))
        }
    }
}

/// How code may use a name and a number of arguments as those of a method of a class that is called in this way.
pub fn method_use(
    alloc: Global,
    setting: &Setting,
    names: &MethodNames,
    way: Way,
    class: usize,
    name: &Name,
    count: usize,
) -> Result<MethodUse, NoMemory>
    ensures { IfOk result (λ u. u ≡ spec.method_use (around setting.now) (namings names.now) way class name.now count) }
{
    let key = MethodKey {
        is_static: is_static_way(way),
        name: name.copy()?,
        count,
    };
    let found = found_called(setting.members, setting.lines, class, &key);
    use_found(alloc, setting, names, way, class, &key, found)
}
