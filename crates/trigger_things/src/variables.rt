// The variables of a trigger.

ghost use Rattle.std.specs.Prelude.{◌≡◌, ◌<◌, ◌^◌, ◌∷◌, ◌++◌, [], length, not, IfOk, OnOk};
ghost use Rattle.heap_methods.specs.Operands.{count as count_of, truth as truth_of};
ghost use Rattle.trigger_things.specs.Things as spec;

use apex_list::Items;
use apex_num::{Cell, NoMemory};
use apex_requests::{Context, Op};
use txn_heap::Value;
use typed_program::TriggerVariable;

/// The place of a variable among those of the thing that has them all.
pub fn place_of(variable: TriggerVariable) -> usize
    ensures { result ≡ spec.place_of variable }
{
    match variable {
        TriggerVariable::New => 0,
        TriggerVariable::Old => 1,
        TriggerVariable::NewMap => 2,
        TriggerVariable::OldMap => 3,
        TriggerVariable::IsInsert => 4,
        TriggerVariable::IsUpdate => 5,
        TriggerVariable::IsDelete => 6,
        TriggerVariable::IsBefore => 7,
        TriggerVariable::IsAfter => 8,
        TriggerVariable::Size => 9,
    }
}

fn is_insert(op: Op) -> bool
    ensures { result ≡ spec.is_insert op }
{
    match op {
        Op::Insert => true,
        _ => false,
    }
}

fn is_update(op: Op) -> bool
    ensures { result ≡ spec.is_update op }
{
    match op {
        Op::Update => true,
        _ => false,
    }
}

fn is_delete(op: Op) -> bool
    ensures { result ≡ spec.is_delete op }
{
    match op {
        Op::Delete => true,
        _ => false,
    }
}

/// Whether there is `Trigger.new`.
pub(crate) fn has_new(op: Op) -> bool
    ensures { result ≡ spec.has_new op }
{
    match op {
        Op::Insert | Op::Update => true,
        _ => false,
    }
}

/// Whether there are `Trigger.old` and `Trigger.oldMap`.
pub(crate) fn has_old(op: Op) -> bool
    ensures { result ≡ spec.has_old op }
{
    match op {
        Op::Update | Op::Delete => true,
        _ => false,
    }
}

/// Whether there is `Trigger.newMap`: the records of an insert have no Ids before the write.
pub(crate) fn has_new_map(op: Op, before: bool) -> bool
    ensures { result ≡ spec.has_new_map op before }
{
    match op {
        Op::Insert => !before,
        Op::Update => true,
        _ => false,
    }
}

/// How many records the firing is for: those of `Trigger.new`, or of `Trigger.old` in a delete.
pub fn own_count(context: &Context) -> usize
    ensures value { result ≡ length (spec.own_rows context.now) }
    ensures small { result < 2 ^ 63 }
{
    if has_new(context.op) {
        context.news.as_slice().len()
    } else {
        context.olds.as_slice().len()
    }
}

fn truth(b: bool) -> Value
    ensures { result ≡ truth_of b }
{
    Value::Plain(Cell::Bool(b))
}

fn count(n: usize) -> Value
    requires { n < 2 ^ 63 }
    ensures { result ≡ count_of n }
{
    Value::Plain(Cell::Whole(n as i64))
}

fn add_operation(op: Op, variables: &mut Items<Value>) -> Result<(), NoMemory>
    ensures { OnOk result (variables.new ≡ variables.old ++ truth_of (spec.is_insert op) ∷ truth_of (spec.is_update op) ∷ truth_of (spec.is_delete op) ∷ []) }
{
    variables.push(truth(is_insert(op)))?;
    variables.push(truth(is_update(op)))?;
    variables.push(truth(is_delete(op)))
}

fn add_side(before: bool, size: usize, variables: &mut Items<Value>) -> Result<(), NoMemory>
    requires { size < 2 ^ 63 }
    ensures { OnOk result (variables.new ≡ variables.old ++ truth_of before ∷ truth_of (not before) ∷ count_of size ∷ []) }
{
    variables.push(truth(before))?;
    variables.push(truth(!before))?;
    variables.push(count(size))
}

/// Adds the variables that say what fires, and for how many records.
pub(crate) fn add_facts(
    op: Op,
    before: bool,
    size: usize,
    variables: &mut Items<Value>,
) -> Result<(), NoMemory>
    requires { size < 2 ^ 63 }
    ensures { OnOk result (variables.new ≡ variables.old ++ truth_of (spec.is_insert op) ∷ truth_of (spec.is_update op) ∷ truth_of (spec.is_delete op) ∷ truth_of before ∷ truth_of (not before) ∷ count_of size ∷ []) }
{
    add_operation(op, variables)?;
    add_side(before, size, variables)
}
