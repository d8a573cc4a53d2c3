// What is made, whatever the arguments are.

ghost use Rattle.std.specs.Prelude.{◌≡◌, slice_get, IfOk};
ghost use Rattle.std.specs.Option.{option_copied};
ghost use Rattle.class_tables.specs.Tables.{all_in};
ghost use Rattle.name_meanings.specs.Settings.{around};
ghost use Rattle.static_types.specs.declared.kind.ValueType.TheViews.{out-ValueType};
ghost use Rattle.type_names.specs.Walks.{Comes, Tells};
ghost use Rattle.typed_calls.specs.Makers as spec;

use apex_num::NoMemory;
use builtin_table::ExceptionClass;
use class_tables::{ClassHeads, ConstructorHead, MemberTables};
use fault_words::FaultWord;
use name_meanings::{Setting, is_own};
use static_types::{Primitive, ValueType};
use std::alloc::Global;
use type_names::{TreeFault, WalkFault};
use typed_program::Constructor;

/// What `new` makes of a type and so many arguments.
#[derive(Clone, Copy, Drop)]
pub enum Maker {
    /// An instance of a class.
    Instance(usize, Constructor),
    /// An exception of a built-in class.
    Exception(ExceptionClass),
    /// A record of an object.
    Record(usize),
    List,
    /// Of items of this type.
    Set(Primitive),
    /// Of keys of this type.
    Map(Primitive),
    /// Nothing is made with so many arguments.
    Nothing,
}

/// The constructor of a class at this place.
pub fn constructor_at(
    members: &MemberTables,
    class: usize,
    place: usize,
) -> Option<&ConstructorHead>
    ensures { option_copied result ≡ spec.constructor_at (all_in members.now) class place }
{
    match members.tables.get(class) {
        Some(table) => table.members.constructors.get(place),
        None => None,
    }
}

// Interfaces and abstract classes have no instances of their own.
fn has_instances(lines: &ClassHeads, class: usize) -> bool
    ensures { result ≡ spec.has_instances (slice_get lines.now.heads class) }
{
    match lines.heads.get(class) {
        Some(head) => !head.interface && !head.is_abstract,
        None => false,
    }
}

fn declared(setting: &Setting, class: usize, place: usize, at: usize) -> Result<Maker, TreeFault>
    ensures { Tells (spec.declared_maker (around setting.now) class place at) result }
{
    match constructor_at(setting.members, class, place) {
        Some(constructor) => {
            if constructor.is_private && !is_own(setting.class, class) {
                Err(TreeFault::new(FaultWord::NotVisible, at))
            } else {
                Ok(Maker::Instance(class, Constructor::Declared(place)))
            }
        }
        None => Ok(Maker::Nothing),
    }
}

fn declares_none(members: &MemberTables, class: usize) -> bool
    ensures { result ≡ spec.declares_none (slice_get (all_in members.now) class) }
{
    match members.tables.get(class) {
        Some(table) => table.members.constructors.len() == 0,
        None => false,
    }
}

// The constructors that a class has without declaring them.
fn undeclared(setting: &Setting, class: usize, count: usize) -> Maker
    ensures { result ≡ spec.undeclared (around setting.now) class count }
{
    if setting.lines.is_exception(class) && count < 2 {
        return Maker::Instance(class, Constructor::Exception);
    }
    if count == 0 && declares_none(setting.members, class) {
        return Maker::Instance(class, Constructor::Implied);
    }
    Maker::Nothing
}

fn own_constructor(
    alloc: Global,
    members: &MemberTables,
    class: usize,
    count: usize,
) -> Result<Option<usize>, NoMemory>
    ensures { IfOk result (λ n. n ≡ spec.own_place (slice_get (all_in members.now) class) count) }
{
    match members.tables.get(class) {
        Some(table) => table.constructor(alloc, count),
        None => Ok(None),
    }
}

/// The constructor of a class for so many arguments, named at this byte: a declared one, or one that the class has
/// without declaring it. `NotVisible` at the byte where it is a private one of another class.
pub fn constructor_of(
    alloc: Global,
    setting: &Setting,
    class: usize,
    at: usize,
    count: usize,
) -> Result<Maker, WalkFault>
    ensures { Comes (spec.constructor_of (around setting.now) class at count) result }
{
    match own_constructor(alloc, setting.members, class, count)? {
        Some(place) => Ok(declared(setting, class, place, at)?),
        None => Ok(undeclared(setting, class, count)),
    }
}

fn class_maker(
    alloc: Global,
    setting: &Setting,
    class: usize,
    at: usize,
    count: usize,
) -> Result<Maker, WalkFault>
    ensures { Comes (spec.class_maker (around setting.now) class at count) result }
{
    if !has_instances(setting.lines, class) {
        return Err(TreeFault::new(FaultWord::WrongType, at).into());
    }
    constructor_of(alloc, setting, class, at, count)
}

// Some built-in exceptions are thrown by the platform alone.
fn exception_maker(class: ExceptionClass) -> Maker
    ensures { result ≡ spec.exception_maker class }
{
    match class {
        ExceptionClass::Limit | ExceptionClass::Assert => Maker::Nothing,
        class => Maker::Exception(class),
    }
}

/// What `new` makes of a type, which stands at this byte, and so many arguments. `WrongType` at the type where it is an
/// interface or an abstract class, `NotVisible` at it where the constructor is a private one of another class.
pub fn maker_of(
    alloc: Global,
    setting: &Setting,
    kind: &ValueType,
    at: usize,
    count: usize,
) -> Result<Maker, WalkFault>
    ensures { Comes (spec.maker_of (around setting.now) (out-ValueType kind.now) at count) result }
{
    match kind {
        ValueType::Class(class) => class_maker(alloc, setting, *class, at, count),
        ValueType::Exception(class) => Ok(exception_maker(*class)),
        ValueType::Record(object) => Ok(Maker::Record(*object)),
        ValueType::List(_) => Ok(Maker::List),
        ValueType::Set(p) => Ok(Maker::Set(*p)),
        ValueType::Map(key, _) => Ok(Maker::Map(*key)),
        ValueType::Primitive(_) | ValueType::AnyException | ValueType::Platform(_) => {
            Ok(Maker::Nothing)
        }
    }
}
