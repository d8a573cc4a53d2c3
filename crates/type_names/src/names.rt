// Types of trees.

ghost use Rattle.std.specs.Prelude.{◌≡◌, map, IfOk};
ghost use Rattle.type_names.specs.TypeTrees as spec;
ghost use Rattle.type_names.specs.Walks.{Comes, Tells, all};

use crate::fault::{TreeFault, WalkFault};
use crate::head::{TypeHead, head_of};
use apex_list::{Boxed, Items};
use apex_num::NoMemory;
use apex_syntax::{TypeTree, Word};
use apex_text::Name;
use fault_words::FaultWord;
use schema_names::Places;
use static_types::{PlatformType, Primitive, TypeName, ValueType};
use std::alloc::Global;

/// The names that a type may have beside the built-in ones, without case: those of the objects, and those of the
/// classes and interfaces. A name's place is the number of what it names.
#[derive(Drop)]
pub struct TypeNames<'a> {
    pub objects: &'a Places,
    pub classes: &'a Places,
}

/// A type, and where it is written: the byte place of its first token, from 0.
#[derive(Drop)]
pub struct PlacedType {
    pub at: usize,
    pub kind: ValueType,
}

// A type without `<` and `>`.
fn plain(head: TypeHead, at: usize) -> Result<ValueType, TreeFault>
    ensures { Tells (spec.plain head at) result }
{
    match head {
        TypeHead::Named(TypeName::Primitive(p)) => Ok(ValueType::Primitive(p)),
        TypeHead::Named(TypeName::Savepoint) => Ok(ValueType::Platform(PlatformType::Savepoint)),
        TypeHead::Named(TypeName::AnyException) => Ok(ValueType::AnyException),
        TypeHead::Named(TypeName::Exception(class)) => Ok(ValueType::Exception(class)),
        TypeHead::Platform(kind) => Ok(ValueType::Platform(kind)),
        TypeHead::Record(n) => Ok(ValueType::Record(n)),
        TypeHead::Class(n) => Ok(ValueType::Class(n)),
        TypeHead::Named(TypeName::Double | TypeName::List | TypeName::Set | TypeName::Map) => {
            Err(TreeFault::new(FaultWord::UnknownType, at))
        }
    }
}

/// The type that a name alone says, and the name behind its dot: `UnknownType` or `DoubleRefused` at this byte where it
/// is none, and `UnknownType` where types in `<` and `>` are due.
pub fn named_type(
    names: &TypeNames,
    name: &Name,
    behind: &Option<Word>,
    at: usize,
) -> Result<ValueType, TreeFault>
    ensures { Tells (spec.named_type (spec.known names.now) name.now behind.now at) result }
{
    let head = head_of(names, name, behind, at)?;
    plain(head, at)
}

// The primitive type that keys and items of sets have.
fn key_of(arg: PlacedType) -> Result<Primitive, TreeFault>
    ensures { Tells (spec.key_of arg) result }
{
    match arg.kind {
        ValueType::Primitive(p) => Ok(p),
        _ => Err(TreeFault::new(FaultWord::WrongType, arg.at)),
    }
}

// A type of one type.
fn of_one(alloc: Global, head: TypeHead, arg: PlacedType, at: usize) -> Result<ValueType, WalkFault>
    ensures { Comes (spec.of_one head arg at) result }
{
    match head {
        TypeHead::Named(TypeName::List) => Ok(ValueType::List(Boxed::new(alloc, arg.kind)?)),
        TypeHead::Named(TypeName::Set) => {
            let key = key_of(arg)?;
            Ok(ValueType::Set(key))
        }
        _ => Err(TreeFault::new(FaultWord::UnknownType, at).into()),
    }
}

// A type of two types.
fn of_two(
    alloc: Global,
    head: TypeHead,
    key: PlacedType,
    value: PlacedType,
    at: usize,
) -> Result<ValueType, WalkFault>
    ensures { Comes (spec.of_two head key value at) result }
{
    match head {
        TypeHead::Named(TypeName::Map) => {
            let key = key_of(key)?;
            Ok(ValueType::Map(key, Boxed::new(alloc, value.kind)?))
        }
        _ => Err(TreeFault::new(FaultWord::UnknownType, at).into()),
    }
}

// A type of these types, which are taken out from behind.
fn applied(
    alloc: Global,
    head: TypeHead,
    args: Items<PlacedType>,
    at: usize,
) -> Result<ValueType, WalkFault>
    ensures { Comes (spec.applied head args at) result }
{
    let mut args = args;
    if args.len() == 2 {
        match (args.pop(), args.pop()) {
            (Some(value), Some(key)) => return of_two(alloc, head, key, value, at),
            _ => unreachable!(),
        }
    }
    match args.pop() {
        None => Ok(plain(head, at)?),
        Some(arg) => {
            if args.is_empty() {
                of_one(alloc, head, arg, at)
            } else {
                Err(TreeFault::new(FaultWord::UnknownType, at).into())
            }
        }
    }
}

// So many lists, each of the one before.
fn listed(alloc: Global, kind: ValueType, count: usize) -> Result<ValueType, NoMemory>
    ensures { IfOk result (λ k. k ≡ spec.listed count kind) }
{
    let mut kind = kind;
    for _level in 0..count {
        kind = ValueType::List(Boxed::new(alloc, kind)?);
    }
    Ok(kind)
}

#[cycle(types)]
fn args_of(
    alloc: Global,
    names: &TypeNames,
    trees: &[TypeTree],
) -> Result<Items<PlacedType>, WalkFault>
    ensures { Comes (all (map (spec.placed_of (spec.known names.now)) trees.now)) result }
{
    let mut done = Items::new(alloc);
    for tree in trees {
        let kind = placed(alloc, names, tree)?;
        done.push(kind)?;
    }
    Ok(done)
}

#[cycle(types)]
fn placed(alloc: Global, names: &TypeNames, tree: &TypeTree) -> Result<PlacedType, WalkFault>
    ensures { Comes (spec.placed_of (spec.known names.now) tree.now) result }
{
    let at = tree.span.from;
    let head = head_of(names, &tree.name.name, &tree.member, at)?;
    let args = args_of(alloc, names, tree.args.as_slice())?;
    let kind = applied(alloc, head, args, at)?;
    let kind = listed(alloc, kind, tree.arrays)?;
    Ok(PlacedType { at, kind })
}

/// The type that a tree names. Its first fault is `UnknownType` or `DoubleRefused` at a name, or `WrongType` at a key of
/// a Map or an item of a Set that isn't primitive: first that of its own name, then those of the types behind it from
/// left to right, then that of the whole.
pub fn type_of(alloc: Global, names: &TypeNames, tree: &TypeTree) -> Result<ValueType, WalkFault>
    ensures { Comes (spec.type_of (spec.known names.now) tree.now) result }
{
    Ok(placed(alloc, names, tree)?.kind)
}
