// Headers of triggers.

ghost use Rattle.std.specs.Prelude.{◌≡◌, []};
ghost use Rattle.std.specs.List.{list_any};
ghost use Rattle.type_names.specs.TypeTrees.{known};
ghost use Rattle.type_names.specs.Walks.{Tells};
ghost use Rattle.class_walk.specs.Triggers as spec;

use crate::heading::unit_name;
use apex_syntax::{EventTree, TriggerTree, Word};
use class_tables::Classes;
use fault_words::FaultWord;
use static_types::TypeName;
use type_names::{TreeFault, TypeHead, TypeNames, type_head};

fn object_of(names: &TypeNames, word: &Word) -> Result<usize, TreeFault>
    ensures { Tells (spec.object_walk (known names.now) word.now) result }
{
    let at = word.span.from;
    match type_head(names, &word.name) {
        Some(TypeHead::Record(n)) => Ok(n),
        Some(TypeHead::Named(TypeName::Double)) => {
            Err(TreeFault::new(FaultWord::DoubleRefused, at))
        }
        Some(_) => Err(TreeFault::new(FaultWord::WrongType, at)),
        None => Err(TreeFault::new(FaultWord::UnknownName, at)),
    }
}

fn same_flag(one: bool, other: bool) -> bool
    ensures { result ≡ spec.same_flag one other }
{
    if one { other } else { !other }
}

fn same_event(one: &EventTree, other: &EventTree) -> bool
    ensures { result ≡ spec.same_event one.now other.now }
{
    same_flag(one.after, other.after) && one.op == other.op
}

// Whether one of these events is this one.
fn is_among(events: &[EventTree], event: &EventTree) -> bool
    ensures { result ≡ list_any (spec.same_event event.now) events.now }
{
    for one in events {
        if same_event(event, one) {
            return true;
        }
    }
    false
}

// The events from left to right. There are six, so a seventh is named twice.
fn events(all: &[EventTree]) -> Result<(), TreeFault>
    ensures { Tells (spec.events_walk [] all.now) result }
{
    for i in 0..all.len() {
        if is_among(&all[..i], &all[i]) {
            return Err(TreeFault::new(FaultWord::BadTrigger, all[i].span.from));
        }
    }
    Ok(())
}

/// The object of a trigger, the unit with this number, by its number in the schema; or the first fault in front of its
/// body: `Duplicate` at its name; at the name behind `on`, `UnknownName` where it names nothing, `DoubleRefused`, or
/// `WrongType` where it names no object; `BadTrigger` at an event that one before it is equal to.
pub fn trigger_header(
    classes: &Classes,
    unit: usize,
    tree: &TriggerTree,
) -> Result<usize, TreeFault>
    ensures { Tells (spec.trigger_header classes.now.objects.now.names.items classes.now.units.now unit tree.now) result }
{
    unit_name(classes, unit, &tree.name)?;
    let names = classes.names();
    let object = object_of(&names, &tree.object)?;
    events(tree.events.as_slice())?;
    Ok(object)
}
