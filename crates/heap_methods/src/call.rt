// Calls of methods.

ghost use Rattle.std.specs.Prelude.{◌≡◌, slice_get, MatchResult};
ghost use Rattle.std.specs.Option.{option_copied};
ghost use Rattle.heap_methods.specs.Methods as spec;
ghost use Rattle.heap_methods.specs.Outcomes.{Outcome, done, Answers};
ghost use Rattle.heap_methods.specs.declared.plan.Plan.TheVariants as P;
ghost use Rattle.heap_methods.specs.Plans.{Plans, Ends, planned};

use crate::guarded::{stays, unchanging};
use crate::lists::list_method;
use crate::maps::map_method;
use crate::plan::{Plan, Planned, null_object};
use crate::sets::set_method;
use crate::text::{join, joined_on};
use apex_num::{NoMemory, Text};
use builtin_table::{Builtin, BuiltinEnd, ListMethod, MapMethod, SetMethod};
use txn_heap::{Change, Heap, Ref, Thing, Value};

fn on_list(heap: &Heap, which: ListMethod, thing: Option<&Thing>, args: &[Value]) -> Planned
    ensures { Plans (spec.on_list which heap.now (option_copied thing.entry) args.now) (option_copied thing.entry) result }
{
    match thing {
        Some(Thing::List(items)) => list_method(heap, which, items, args),
        _ => Err(null_object(heap.allocator())),
    }
}

fn on_set(heap: &Heap, which: SetMethod, thing: Option<&Thing>, args: &[Value]) -> Planned
    ensures { Plans (spec.on_set which heap.now (option_copied thing.entry) args.now) (option_copied thing.entry) result }
{
    match thing {
        Some(Thing::Set(keys)) => set_method(heap, which, keys, args),
        _ => Err(null_object(heap.allocator())),
    }
}

fn on_map(heap: &Heap, which: MapMethod, thing: Option<&Thing>, args: &[Value]) -> Planned
    ensures { Plans (spec.on_map which heap.now (option_copied thing.entry) args.now) (option_copied thing.entry) result }
{
    match thing {
        Some(Thing::Map(entries)) => map_method(heap, which, entries, args),
        _ => Err(null_object(heap.allocator())),
    }
}

fn on_join(heap: &Heap, thing: Option<&Thing>, args: &[Value]) -> Planned
    ensures { Plans (spec.on_join (option_copied thing.entry) args.now) (option_copied thing.entry) result }
{
    match thing {
        Some(Thing::List(items)) => join(items, args),
        _ => Err(null_object(heap.allocator())),
    }
}

fn on_thing(heap: &Heap, which: Builtin, thing: Option<&Thing>, args: &[Value]) -> Planned
    ensures { Plans (spec.on_thing which heap.now (option_copied thing.entry) args.now) (option_copied thing.entry) result }
{
    match which {
        Builtin::List(which) => on_list(heap, which, thing, args),
        Builtin::Set(which) => on_set(heap, which, thing, args),
        Builtin::Map(which) => on_map(heap, which, thing, args),
        Builtin::Join => on_join(heap, thing, args),
        _ => Err(null_object(heap.allocator())),
    }
}

fn change(heap: &mut Heap, on: Ref, change: Change, answer: Value) -> Result<Value, NoMemory>
    ensures { MatchResult result
        (λ v. done on.place heap.old (planned (P.Changes change answer) (slice_get heap.old on.place)) ≡ Answers v heap.new)
        (λ _. heap.new ≡ heap.old) }
{
    match heap.change(on, change) {
        Ok(()) => Ok(answer),
        Err(end) => Err(end),
    }
}

fn make(heap: &mut Heap, on: Ref, thing: Thing) -> Result<Value, NoMemory>
    ensures { MatchResult result
        (λ v. done on.place heap.old (planned (P.Makes thing) (slice_get heap.old on.place)) ≡ Answers v heap.new)
        (λ _. heap.new ≡ heap.old) }
{
    match heap.make(thing) {
        Ok(made) => Ok(Value::Object(made)),
        Err(end) => Err(end),
    }
}

fn join_on(heap: &mut Heap, on: Ref, between: &Text) -> Result<Value, NoMemory>
    ensures { MatchResult result
        (λ v. done on.place heap.old (planned (P.Joins between.now) (slice_get heap.old on.place)) ≡ Answers v heap.new)
        (λ _. heap.new ≡ heap.old) }
{
    joined_on(heap.get(on), between)
}

/// Does what is planned for a thing. Want of memory is the only error, and changes nothing.
pub fn carry_out(heap: &mut Heap, on: Ref, plan: Plan) -> Result<Value, NoMemory>
    ensures { MatchResult result
        (λ v. done on.place heap.old (planned plan (slice_get heap.old on.place)) ≡ Answers v heap.new)
        (λ _. heap.new ≡ heap.old) }
{
    match plan {
        Plan::Tells(answer) => Ok(answer),
        Plan::Joins(between) => join_on(heap, on, &between),
        Plan::Changes(by, answer) => change(heap, on, by, answer),
        Plan::Replaces(thing, answer) => {
            heap.replace(on, thing);
            Ok(answer)
        }
        Plan::Makes(thing) => make(heap, on, thing),
    }
}

fn carry(heap: &mut Heap, on: Ref, plan: Planned) -> Result<Value, BuiltinEnd>
    ensures { (o : Outcome) → Plans o (slice_get heap.old on.place) plan → Ends (done on.place heap.old o) heap.old heap.new result }
{
    match plan {
        Ok(plan) => match carry_out(heap, on, plan) {
            Ok(answer) => Ok(answer),
            Err(_) => Err(BuiltinEnd::NoMemory),
        },
        Err(end) => Err(end),
    }
}

fn at(heap: &Heap, which: Builtin, on: Ref, args: &[Value]) -> Planned
    ensures { Plans (spec.on_thing which heap.now (slice_get heap.now on.place) args.now) (slice_get heap.now on.place) result }
{
    on_thing(heap, which, heap.get(on), args)
}

/// What a call of a method of a list, set or map on a thing does; `String.join` is called on its list. A thing or arguments that
/// the method isn't for throw `NullPointerException`; code that was checked hands in none. A method that would change the list or
/// map of a trigger throws `FinalException`, but for a null it throws `NullPointerException` there too.
pub fn plan_call(heap: &Heap, which: Builtin, on: Ref, args: &[Value]) -> Planned
    ensures { Plans (spec.outcome which on.place args.now heap.now) (slice_get heap.now on.place) result }
{
    if stays(heap, which, on) {
        unchanging(heap.allocator(), at(heap, which, on, args))
    } else {
        at(heap, which, on, args)
    }
}

/// Calls a method of a list, set or map on a thing, as `plan_call` and `carry_out`. After an error nothing has changed.
pub fn call_method(
    heap: &mut Heap,
    which: Builtin,
    on: Ref,
    args: &[Value],
) -> Result<Value, BuiltinEnd>
    ensures { Ends (spec.method which on.place args.now heap.old) heap.old heap.new result }
{
    let plan = plan_call(heap, which, on, args);
    carry(heap, on, plan)
}
