// `String.join`.

ghost use Rattle.std.specs.Prelude.{◌≡◌, ◌++◌, Some, string_bytes, IfOk, OnOk};
ghost use Rattle.txn_heap.specs.declared.thing.Thing.TheVariants as T;
ghost use Rattle.heap_methods.specs.Lists as spec;
ghost use Rattle.heap_methods.specs.Outcomes.{Spells, Answers, done};
ghost use Rattle.std.specs.Prelude.{ℕ, List};
ghost use Rattle.std.specs.Option.{option_copied};
ghost use Rattle.apex_num.specs.declared.cell.Cell.TheVariants as C;
ghost use Rattle.txn_heap.specs.declared.thing.Thing.{Thing as TheThing};
ghost use Rattle.txn_heap.specs.declared.thing.Value.TheVariants as V;
ghost use Rattle.heap_methods.specs.declared.plan.Plan.TheVariants as P;
ghost use Rattle.heap_methods.specs.Plans.{Plans, planned};

use crate::operands::null;
use crate::plan::{Plan, Planned, null_object};
use apex_list::Items;
use apex_num::{Cell, NoMemory, Text};
use std::alloc::Global;
use txn_heap::{Thing, Value};

/// The text that a value is joined as.
pub fn word_of(value: &Value) -> &str
    ensures { result.now ≡ spec.word_of value.now }
{
    match value {
        Value::Plain(Cell::Text(text)) => text.as_str(),
        _ => "null",
    }
}

fn push_between(all: &mut String, between: &str, word: &str) -> Result<(), NoMemory>
    ensures { OnOk result (string_bytes all.new ≡ string_bytes all.old ++ (between.now ++ word.now)) }
{
    all.push_str(between)?;
    all.push_str(word)?;
    Ok(())
}

fn push_rest(all: &mut String, between: &str, items: &[Value]) -> Result<(), NoMemory>
    ensures { OnOk result (string_bytes all.new ≡ string_bytes all.old ++ spec.joined_behind between.now items.now) }
{
    for item in items {
        push_between(all, between, word_of(item))?;
    }
    Ok(())
}

fn join_all(all: &mut String, between: &str, items: &[Value]) -> Result<(), NoMemory>
    ensures { OnOk result (string_bytes all.new ≡ string_bytes all.old ++ spec.joined between.now items.now) }
{
    match items {
        [] => Ok(()),
        [first, rest @ ..] => {
            all.push_str(word_of(first))?;
            push_rest(all, between, rest)
        }
    }
}

fn joined(alloc: Global, between: &str, items: &[Value]) -> Result<Text, NoMemory>
    ensures { IfOk result (λ text. text ≡ spec.joined between.now items.now) }
{
    let mut all = String::new(alloc);
    join_all(&mut all, between, items)?;
    Text::from_string(alloc, all)
}

fn plan_join(items: &Items<Value>, between: &Text) -> Planned
    ensures { Plans (Spells (spec.joined between.now items.now)) (Some (T.List items.now)) result }
{
    Ok(Plan::Joins(between.copy()?))
}

/// A call of `String.join` on its list.
pub(crate) fn join(items: &Items<Value>, args: &[Value]) -> Planned
    ensures { Plans (spec.join items.now args.now) (Some (T.List items.now)) result }
{
    match args {
        [Value::Plain(Cell::Text(between))] => plan_join(items, between),
        _ => Err(null_object(items.allocator())),
    }
}

fn joined_value(items: &Items<Value>, between: &Text) -> Result<Value, NoMemory>
    ensures { IfOk result (λ v. v ≡ V.Plain (C.Text (spec.joined between.now items.now))) }
{
    Ok(Value::Plain(Cell::Text(joined(items.allocator(), between.as_str(), items.as_slice())?)))
}

/// The texts of a list with another between each two, or null for another thing.
pub(crate) fn joined_on(thing: Option<&Thing>, between: &Text) -> Result<Value, NoMemory>
    ensures { IfOk result (λ v. (place : ℕ) (heap : List TheThing) → done place heap (planned (P.Joins between.now) (option_copied thing.entry)) ≡ Answers v heap) }
{
    match thing {
        Some(Thing::List(items)) => joined_value(items, between),
        _ => Ok(null()),
    }
}
