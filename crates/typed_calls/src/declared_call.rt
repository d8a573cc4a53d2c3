// Calls.

ghost use Rattle.std.specs.Prelude.{◌≡◌, IfOk};
ghost use Rattle.class_tables.specs.Tables.{all_in};
ghost use Rattle.name_meanings.specs.Settings.{around};
ghost use Rattle.type_names.specs.Walks.{Comes, Gives};
ghost use Rattle.typed_calls.specs.DeclaredCalls as spec;

use crate::arguments::fitted_arguments;
use apex_list::Items;
use apex_num::NoMemory;
use class_tables::{Member, MemberTables, ResultHead};
use fault_words::FaultWord;
use name_meanings::{Setting, with_part};
use std::alloc::Global;
use type_names::{TreeFault, WalkFault};
use typed_program::{TypedExpr, TypedPart};
use typed_values::{Kind, Role, Typed};

fn answered(answer: &ResultHead) -> Result<Kind, NoMemory>
    ensures { IfOk result (λ k. k ≡ spec.answered answer.now) }
{
    match answer {
        ResultHead::Void => Ok(Kind::Nothing),
        ResultHead::Value(kind) => Ok(Kind::Is(kind.copy()?)),
        ResultHead::Faulty => Ok(Kind::Faulty),
    }
}

fn answer_of(members: &MemberTables, member: Member) -> Result<Kind, NoMemory>
    ensures { IfOk result (λ k. k ≡ spec.answer_of (all_in members.now) member) }
{
    match members.method_at(member) {
        Some(method) => answered(&method.result),
        None => Ok(Kind::Faulty),
    }
}

fn arguments(
    alloc: Global,
    setting: &Setting,
    member: Member,
    name_at: usize,
    args: Items<Typed>,
) -> Result<Items<TypedExpr>, WalkFault>
    ensures { Comes (spec.arguments (around setting.now) member name_at args) result }
{
    match setting.members.method_at(member) {
        Some(method) => {
            fitted_arguments(
                alloc,
                setting.lines,
                method.params.as_slice(),
                name_at,
                args,
            )
        }
        None => Err(TreeFault::new(FaultWord::WrongArguments, name_at).into()),
    }
}

fn declared(
    alloc: Global,
    setting: &Setting,
    member: Member,
    name_at: usize,
    args: Items<Typed>,
) -> Result<(Items<TypedExpr>, Kind), WalkFault>
    ensures { Comes (spec.declared (around setting.now) member name_at args) result }
{
    let kind = answer_of(setting.members, member)?;
    let trees = arguments(alloc, setting, member, name_at, args)?;
    Ok((trees, kind))
}

/// The call of a static method, which begins at one byte, and whose name stands at another one. `WrongArguments` at the
/// name where an argument doesn't fit its parameter.
pub fn static_call(
    alloc: Global,
    setting: &Setting,
    at: usize,
    member: Member,
    name_at: usize,
    args: Items<Typed>,
) -> Result<Typed, WalkFault>
    ensures { Comes (spec.static_call (around setting.now) at member name_at args) result }
{
    let (trees, kind) = declared(alloc, setting, member, name_at, args)?;
    let tree = TypedExpr::CallStatic(member.class, member.place, trees);
    Ok(Typed::plain(alloc, at, kind, tree)?)
}

/// A value with a call behind it, which answers this.
pub fn grown(
    alloc: Global,
    receiver: Typed,
    kind: Kind,
    part: TypedPart,
) -> Result<Typed, WalkFault>
    ensures { Comes (Gives (spec.grown receiver kind part)) result }
{
    let at = receiver.at;
    let tree = with_part(alloc, receiver.tree, part)?;
    Ok(Typed {
        at,
        kind,
        role: Role::Plain,
        tree,
    })
}

/// The call of a method on an instance; the mark says whether the nearest method of the instance's own class is called.
/// `WrongArguments` at the name, which stands at this byte, where an argument doesn't fit its parameter.
pub fn method_call(
    alloc: Global,
    setting: &Setting,
    receiver: Typed,
    member: Member,
    nearest: bool,
    name_at: usize,
    args: Items<Typed>,
) -> Result<Typed, WalkFault>
    ensures { Comes (spec.method_call (around setting.now) receiver member nearest name_at args) result }
{
    let (trees, kind) = declared(alloc, setting, member, name_at, args)?;
    let part = TypedPart::Call(member.class, member.place, nearest, trees);
    grown(alloc, receiver, kind, part)
}
