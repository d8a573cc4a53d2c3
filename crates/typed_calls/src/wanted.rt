// The types that arguments have to fit.

ghost use Rattle.std.specs.Prelude.{◌≡◌, map, IfOk};
ghost use Rattle.static_types.specs.declared.kind.ValueType.TheViews.{out-ValueType};
ghost use Rattle.builtin_signatures.specs.Dues.{each};
ghost use Rattle.typed_calls.specs.Wants as spec;

use crate::widest::widest;
use apex_list::{Boxed, Items};
use apex_num::NoMemory;
use builtin_signatures::{Due, Dues, dues_of};
use builtin_table::Builtin;
use static_types::{PlatformType, Primitive, ValueType};
use std::alloc::Global;
use typed_values::{Kind, Typed};

/// The type of the items of a collection.
pub fn item_type(kind: &ValueType) -> Result<Option<ValueType>, NoMemory>
    ensures { IfOk result (λ t. t ≡ spec.item_type (out-ValueType kind.now)) }
{
    match kind {
        ValueType::List(item) => Ok(Some(item.get().copy()?)),
        ValueType::Set(p) => Ok(Some(ValueType::Primitive(*p))),
        _ => Ok(None),
    }
}

/// The type of the keys of a map.
pub fn key_type(kind: &ValueType) -> Option<Primitive>
    ensures { result ≡ spec.key_type (out-ValueType kind.now) }
{
    match kind {
        ValueType::Map(key, _) => Some(*key),
        _ => None,
    }
}

/// The type of the values of a map.
pub fn value_type(kind: &ValueType) -> Result<Option<ValueType>, NoMemory>
    ensures { IfOk result (λ t. t ≡ spec.value_type (out-ValueType kind.now)) }
{
    match kind {
        ValueType::Map(_, value) => Ok(Some(value.get().copy()?)),
        _ => Ok(None),
    }
}

fn primitive(p: Option<Primitive>) -> Option<ValueType>
    ensures { result ≡ spec.primitive p }
{
    match p {
        Some(p) => Some(ValueType::Primitive(p)),
        None => None,
    }
}

fn part_of(kind: &ValueType, due: Due) -> Result<Option<ValueType>, NoMemory>
    ensures { IfOk result (λ t. t ≡ spec.part_of kind.now due) }
{
    match due {
        Due::Item => item_type(kind),
        Due::Key => Ok(primitive(key_type(kind))),
        Due::Value => value_type(kind),
        Due::Same => Ok(Some(kind.copy()?)),
        _ => Ok(None),
    }
}

fn of_receiver(receiver: &Kind, due: Due) -> Result<Option<ValueType>, NoMemory>
    ensures { IfOk result (λ t. t ≡ spec.of_receiver receiver.now due) }
{
    match receiver {
        Kind::Is(kind) => part_of(kind, due),
        Kind::Nothing | Kind::Null | Kind::Faulty => Ok(None),
    }
}

fn texts(alloc: Global) -> Result<ValueType, NoMemory>
    ensures { IfOk result (λ t. t ≡ spec.texts) }
{
    let text = ValueType::Primitive(Primitive::String);
    Ok(ValueType::List(Boxed::new(alloc, text)?))
}

fn wanted(alloc: Global, receiver: &Kind, due: Due) -> Result<Option<ValueType>, NoMemory>
    ensures { IfOk result (λ t. t ≡ spec.wanted receiver.now due) }
{
    match due {
        Due::Is(p) => Ok(Some(ValueType::Primitive(p))),
        Due::Texts => Ok(Some(texts(alloc)?)),
        Due::Savepoint => Ok(Some(ValueType::Platform(PlatformType::Savepoint))),
        due => of_receiver(receiver, due),
    }
}

fn wanted_at(
    alloc: Global,
    receiver: &Kind,
    due: Option<Due>,
) -> Result<Option<ValueType>, NoMemory>
    ensures { IfOk result (λ t. t ≡ spec.wanted_at receiver.now due) }
{
    match due {
        Some(due) => wanted(alloc, receiver, due),
        None => Ok(None),
    }
}

fn all_wanted(
    alloc: Global,
    receiver: &Kind,
    dues: Dues,
) -> Result<Items<Option<ValueType>>, NoMemory>
    ensures { IfOk result (λ all. all ≡ map (spec.wanted receiver.now) (each dues)) }
{
    let mut all = Items::new(alloc);
    for i in 0..dues.count() {
        all.push(wanted_at(alloc, receiver, dues.at(i))?)?;
    }
    Ok(all)
}

fn numbers(alloc: Global, args: &[Typed]) -> Result<Items<Option<ValueType>>, NoMemory>
    ensures { IfOk result (λ all. all ≡ spec.numbers args.now) }
{
    let p = widest(args);
    let mut all = Items::new(alloc);
    for _arg in args {
        all.push(Some(ValueType::Primitive(p)))?;
    }
    Ok(all)
}

fn is_math(builtin: Builtin) -> bool
    ensures { result ≡ spec.is_math builtin }
{
    match builtin {
        Builtin::Math(_) => true,
        _ => false,
    }
}

/// The types that the arguments of a method have to fit, in their order; `None` for what is due of several types. The
/// numbers that `Math` takes become the widest of them.
pub fn wanted_by(
    alloc: Global,
    receiver: &Kind,
    builtin: Builtin,
    args: &[Typed],
) -> Result<Items<Option<ValueType>>, NoMemory>
    ensures { IfOk result (λ all. all ≡ spec.wanted_by receiver.now builtin args.now) }
{
    if is_math(builtin) {
        numbers(alloc, args)
    } else {
        all_wanted(alloc, receiver, dues_of(builtin))
    }
}
