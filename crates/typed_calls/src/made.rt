// What is made of arguments.

ghost use Rattle.std.specs.Prelude.{◌≡◌, [], IfOk};
ghost use Rattle.name_meanings.specs.Settings.{around};
ghost use Rattle.type_names.specs.Walks.{Comes};
ghost use Rattle.typed_calls.specs.Made as spec;

use crate::copies::{Copying, copying_of};
use crate::fitted_arguments;
use crate::maker::{Maker, constructor_at};
use apex_list::{Boxed, Items};
use apex_num::NoMemory;
use builtin_table::ExceptionClass;
use class_tables::ClassHeads;
use fault_words::FaultWord;
use name_meanings::Setting;
use static_types::{Primitive, ValueType};
use std::alloc::Global;
use type_names::{TreeFault, WalkFault};
use typed_program::{CollectionKind, Constructor, TypedExpr, TypedNew};
use typed_values::{Kind, Typed};

/// The arguments of an exception's constructor: nothing, or a message. `WrongArguments` at this byte where they don't fit.
pub fn message(
    alloc: Global,
    lines: &ClassHeads,
    at: usize,
    args: Items<Typed>,
) -> Result<Items<TypedExpr>, WalkFault>
    ensures { Comes (spec.message lines.now.heads at args) result }
{
    if args.len() == 0 {
        return fitted_arguments(alloc, lines, &[], at, args);
    }
    let text = [Some(ValueType::Primitive(Primitive::String))];
    fitted_arguments(alloc, lines, &text, at, args)
}

fn declared_arguments(
    alloc: Global,
    setting: &Setting,
    class: usize,
    place: usize,
    at: usize,
    args: Items<Typed>,
) -> Result<Items<TypedExpr>, WalkFault>
    ensures { Comes (spec.declared_arguments (around setting.now) class place at args) result }
{
    match constructor_at(setting.members, class, place) {
        Some(constructor) => {
            fitted_arguments(
                alloc,
                setting.lines,
                constructor.params.as_slice(),
                at,
                args,
            )
        }
        None => Err(TreeFault::new(FaultWord::WrongArguments, at).into()),
    }
}

/// The arguments of a constructor of a class; `WrongArguments` at this byte where they don't fit.
pub fn instance_arguments(
    alloc: Global,
    setting: &Setting,
    class: usize,
    constructor: Constructor,
    at: usize,
    args: Items<Typed>,
) -> Result<Items<TypedExpr>, WalkFault>
    ensures { Comes (spec.instance_arguments (around setting.now) class constructor at args) result }
{
    match constructor {
        Constructor::Declared(place) => declared_arguments(alloc, setting, class, place, at, args),
        Constructor::Exception => message(alloc, setting.lines, at, args),
        Constructor::Implied => fitted_arguments(alloc, setting.lines, &[], at, args),
    }
}

fn no_fields(
    alloc: Global,
    lines: &ClassHeads,
    object: usize,
    at: usize,
    args: Items<Typed>,
) -> Result<Boxed<TypedNew>, WalkFault>
    ensures { Comes (spec.no_fields lines.now.heads object at args) result }
{
    fitted_arguments(alloc, lines, &[], at, args)?;
    Ok(Boxed::new(alloc, TypedNew::Record(object, Items::new(alloc)))?)
}

fn copied(
    alloc: Global,
    kind: CollectionKind,
    how: Copying,
    tree: Boxed<TypedExpr>,
) -> Result<Boxed<TypedNew>, NoMemory>
    ensures { IfOk result (λ t. t ≡ spec.copied kind how tree) }
{
    match how {
        Copying::Same => Boxed::new(alloc, TypedNew::Copy(kind, tree)),
        Copying::ById => Boxed::new(alloc, TypedNew::ById(tree)),
    }
}

fn copy_of(
    alloc: Global,
    lines: &ClassHeads,
    to: &ValueType,
    kind: CollectionKind,
    at: usize,
    arg: Typed,
) -> Result<Boxed<TypedNew>, WalkFault>
    ensures { Comes (spec.copy_of lines.now.heads to.now kind at arg) result }
{
    match copying_of(lines, to, &arg.kind) {
        Some(how) => Ok(copied(alloc, kind, how, arg.tree)?),
        None => Err(TreeFault::new(FaultWord::WrongArguments, at).into()),
    }
}

fn empty(alloc: Global, kind: CollectionKind) -> Result<Boxed<TypedNew>, NoMemory>
    ensures { IfOk result (λ t. t ≡ spec.empty kind) }
{
    match kind {
        CollectionKind::Map(key) => Boxed::new(alloc, TypedNew::Map(key, Items::new(alloc))),
        kind => Boxed::new(alloc, TypedNew::Collection(kind, Items::new(alloc))),
    }
}

fn collection(
    alloc: Global,
    lines: &ClassHeads,
    to: &ValueType,
    kind: CollectionKind,
    at: usize,
    args: Items<Typed>,
) -> Result<Boxed<TypedNew>, WalkFault>
    ensures { Comes (spec.collection lines.now.heads to.now kind at args) result }
{
    let mut args = args;
    match args.pop() {
        None => Ok(empty(alloc, kind)?),
        Some(arg) => {
            if args.is_empty() {
                copy_of(alloc, lines, to, kind, at, arg)
            } else {
                Err(TreeFault::new(FaultWord::WrongArguments, at).into())
            }
        }
    }
}

fn instance(
    alloc: Global,
    setting: &Setting,
    class: usize,
    constructor: Constructor,
    at: usize,
    args: Items<Typed>,
) -> Result<Boxed<TypedNew>, WalkFault>
    ensures { Comes (spec.instance (around setting.now) class constructor at args) result }
{
    let trees = instance_arguments(alloc, setting, class, constructor, at, args)?;
    Ok(Boxed::new(alloc, TypedNew::Instance(class, constructor, trees))?)
}

fn exception(
    alloc: Global,
    lines: &ClassHeads,
    class: ExceptionClass,
    at: usize,
    args: Items<Typed>,
) -> Result<Boxed<TypedNew>, WalkFault>
    ensures { Comes (spec.exception lines.now.heads class at args) result }
{
    let trees = message(alloc, lines, at, args)?;
    Ok(Boxed::new(alloc, TypedNew::Exception(class, trees))?)
}

fn new_tree(
    alloc: Global,
    setting: &Setting,
    kind: &ValueType,
    maker: Maker,
    at: usize,
    args: Items<Typed>,
) -> Result<Boxed<TypedNew>, WalkFault>
    ensures { Comes (spec.new_tree (around setting.now) kind.now maker at args) result }
{
    let lines = setting.lines;
    match maker {
        Maker::Instance(class, constructor) => {
            instance(alloc, setting, class, constructor, at, args)
        }
        Maker::Exception(class) => exception(alloc, lines, class, at, args),
        Maker::Record(object) => no_fields(alloc, lines, object, at, args),
        Maker::List => collection(alloc, lines, kind, CollectionKind::List, at, args),
        Maker::Set(p) => collection(alloc, lines, kind, CollectionKind::Set(p), at, args),
        Maker::Map(p) => collection(alloc, lines, kind, CollectionKind::Map(p), at, args),
        Maker::Nothing => Err(TreeFault::new(FaultWord::WrongArguments, at).into()),
    }
}

/// `new` of a type with arguments: it begins at one byte, and the type at another one. `WrongArguments` at the type where
/// their number or one of them doesn't fit.
pub fn made_with(
    alloc: Global,
    setting: &Setting,
    at: usize,
    kind: ValueType,
    maker: Maker,
    type_at: usize,
    args: Items<Typed>,
) -> Result<Typed, WalkFault>
    ensures { Comes (spec.made_with (around setting.now) at kind maker type_at args) result }
{
    let tree = new_tree(alloc, setting, &kind, maker, type_at, args)?;
    Ok(Typed::plain(alloc, at, Kind::Is(kind), TypedExpr::New(tree))?)
}
