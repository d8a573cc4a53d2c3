// What methods answer.

ghost use Rattle.std.specs.Prelude.{◌≡◌, IfOk};
ghost use Rattle.static_types.specs.declared.kind.ValueType.TheViews.{out-ValueType};
ghost use Rattle.typed_calls.specs.Answered as spec;

use crate::wanted::{item_type, key_type, value_type};
use crate::widest::widest;
use apex_list::Boxed;
use apex_num::NoMemory;
use builtin_signatures::{Answer, answer_of};
use builtin_table::Builtin;
use static_types::{PlatformType, ValueType};
use std::alloc::Global;
use typed_values::{Kind, Typed};

fn known(kind: Option<ValueType>) -> Kind
    ensures { result ≡ spec.known kind }
{
    match kind {
        Some(kind) => Kind::Is(kind),
        None => Kind::Nothing,
    }
}

fn listed(alloc: Global, kind: Option<ValueType>) -> Result<Kind, NoMemory>
    ensures { IfOk result (λ k. k ≡ spec.listed kind) }
{
    match kind {
        Some(kind) => Ok(Kind::Is(ValueType::List(Boxed::new(alloc, kind)?))),
        None => Ok(Kind::Nothing),
    }
}

fn keys(kind: &ValueType) -> Kind
    ensures { result ≡ spec.keys (out-ValueType kind.now) }
{
    match key_type(kind) {
        Some(key) => Kind::Is(ValueType::Set(key)),
        None => Kind::Nothing,
    }
}

fn of_type(alloc: Global, kind: &ValueType, answer: Answer) -> Result<Kind, NoMemory>
    ensures { IfOk result (λ k. k ≡ spec.of_type kind.now answer) }
{
    match answer {
        Answer::Item => Ok(known(item_type(kind)?)),
        Answer::Value => Ok(known(value_type(kind)?)),
        Answer::Same => Ok(Kind::Is(kind.copy()?)),
        Answer::Keys => Ok(keys(kind)),
        Answer::Values => listed(alloc, value_type(kind)?),
        _ => Ok(Kind::Nothing),
    }
}

fn of_receiver(alloc: Global, receiver: &Kind, answer: Answer) -> Result<Kind, NoMemory>
    ensures { IfOk result (λ k. k ≡ spec.of_receiver receiver.now answer) }
{
    match receiver {
        Kind::Is(kind) => of_type(alloc, kind, answer),
        Kind::Nothing | Kind::Null | Kind::Faulty => Ok(Kind::Nothing),
    }
}

// One result for a record, and a list of them for a list.
fn results_for(alloc: Global, kind: &ValueType, one: PlatformType) -> Result<Kind, NoMemory>
    ensures { IfOk result (λ k. k ≡ spec.results_for (out-ValueType kind.now) one) }
{
    match kind {
        ValueType::List(_) => listed(alloc, Some(ValueType::Platform(one))),
        _ => Ok(Kind::Is(ValueType::Platform(one))),
    }
}

fn results_of(alloc: Global, kind: &Kind, one: PlatformType) -> Result<Kind, NoMemory>
    ensures { IfOk result (λ k. k ≡ spec.results_of kind.now one) }
{
    match kind {
        Kind::Is(kind) => results_for(alloc, kind, one),
        Kind::Nothing | Kind::Null | Kind::Faulty => Ok(Kind::Faulty),
    }
}

fn results(alloc: Global, args: &[Typed], one: PlatformType) -> Result<Kind, NoMemory>
    ensures { IfOk result (λ k. k ≡ spec.results args.now one) }
{
    match args.first() {
        Some(arg) => results_of(alloc, &arg.kind, one),
        None => Ok(Kind::Faulty),
    }
}

/// The type of what a method answers to these arguments.
pub fn answered(
    alloc: Global,
    receiver: &Kind,
    builtin: Builtin,
    args: &[Typed],
) -> Result<Kind, NoMemory>
    ensures { IfOk result (λ k. k ≡ spec.answered receiver.now builtin args.now) }
{
    match answer_of(builtin) {
        Answer::Nothing => Ok(Kind::Nothing),
        Answer::Is(p) => Ok(Kind::Is(ValueType::Primitive(p))),
        Answer::Widest => Ok(Kind::Is(ValueType::Primitive(widest(args)))),
        Answer::Errors => listed(alloc, Some(ValueType::Platform(PlatformType::Error))),
        Answer::Results(one) => results(alloc, args, one),
        Answer::Savepoint => Ok(Kind::Is(ValueType::Platform(PlatformType::Savepoint))),
        answer => of_receiver(alloc, receiver, answer),
    }
}
