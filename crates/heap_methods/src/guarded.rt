// What may not be changed: the lists and maps of triggers.

ghost use Rattle.std.specs.Prelude.{◌≡◌, List, ℕ, Option, MatchBool};
ghost use Rattle.builtin_table.specs.declared.exception.ExceptionClass.TheVariants as Class;
ghost use Rattle.txn_heap.specs.Guards.{guard_of};
ghost use Rattle.txn_heap.specs.declared.thing.Thing.{Thing as TheThing};
ghost use Rattle.heap_methods.specs.Methods as spec;
ghost use Rattle.heap_methods.specs.Outcomes.{Outcome, Fails, read_only};
ghost use Rattle.heap_methods.specs.Plans.{Plans, FailsBy};

use crate::plan::{Planned, read_only};
use builtin_table::{Builtin, BuiltinEnd, ExceptionClass, ListMethod, MapMethod};
use std::alloc::Global;
use txn_heap::{Heap, Ref};

fn list_changes(which: ListMethod) -> bool
    ensures { result ≡ spec.list_changes which }
{
    match which {
        ListMethod::Add
        | ListMethod::Insert
        | ListMethod::AddAll
        | ListMethod::Set
        | ListMethod::Remove
        | ListMethod::Clear
        | ListMethod::Sort => true,
        ListMethod::Get
        | ListMethod::Size
        | ListMethod::IsEmpty
        | ListMethod::Clone
        | ListMethod::Contains
        | ListMethod::IndexOf => false,
    }
}

fn map_changes(which: MapMethod) -> bool
    ensures { result ≡ spec.map_changes which }
{
    match which {
        MapMethod::Put | MapMethod::PutAll | MapMethod::Remove | MapMethod::Clear => true,
        MapMethod::Get
        | MapMethod::ContainsKey
        | MapMethod::KeySet
        | MapMethod::Values
        | MapMethod::Size
        | MapMethod::IsEmpty
        | MapMethod::Clone => false,
    }
}

// Whether the method changes its list or map, even where it comes out the same.
fn changes(which: Builtin) -> bool
    ensures { result ≡ spec.changes which }
{
    match which {
        Builtin::List(which) => list_changes(which),
        Builtin::Map(which) => map_changes(which),
        _ => false,
    }
}

/// Whether the thing may not be changed, and the method would change it.
pub(crate) fn stays(heap: &Heap, which: Builtin, on: Ref) -> bool
    ensures { result ≡ spec.stays which (guard_of heap.now on.place) }
{
    changes(which) && !heap.takes_change(on)
}

fn is_null_pointer(class: ExceptionClass) -> bool
    ensures { MatchBool result (class ≡ Class.NullPointer) ((message : List ℕ) → spec.unchanging (Fails class message) ≡ read_only) }
{
    match class {
        ExceptionClass::NullPointer => true,
        _ => false,
    }
}

fn unchanging_end(alloc: Global, end: BuiltinEnd) -> BuiltinEnd
    ensures { (o : Outcome) → FailsBy o end → FailsBy (spec.unchanging o) result }
{
    match end {
        BuiltinEnd::Throw(class, message) => {
            if is_null_pointer(class) {
                BuiltinEnd::Throw(class, message)
            } else {
                read_only(alloc)
            }
        }
        BuiltinEnd::NoMemory => BuiltinEnd::NoMemory,
    }
}

/// What stands in the place of a change of a thing that may not be changed.
pub(crate) fn unchanging(alloc: Global, plan: Planned) -> Planned
    ensures { (o : Outcome) (thing : Option TheThing) → Plans o thing plan → Plans (spec.unchanging o) thing result }
{
    match plan {
        Ok(_) => Err(read_only(alloc)),
        Err(end) => Err(unchanging_end(alloc, end)),
    }
}
