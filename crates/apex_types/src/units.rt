// Units.

ghost use Rattle.std.specs.Prelude.{◌≡◌, map, IfOk};
ghost use Rattle.apex_types.specs.Homes.{home as home_of};
ghost use Rattle.type_names.specs.Walks.{Comes, Gives, onward};
ghost use Rattle.apex_types.specs.OpenClasses.{Grows};
ghost use Rattle.apex_types.specs.Units as spec;

use crate::body::plain_body;
use crate::class::class as class_of;
use crate::code::Code;
use crate::home::Home;
use crate::interface::interface;
use crate::written::text_of;
use apex_list::Items;
use apex_num::NoMemory;
use apex_syntax::{ClassTree, EventTree, InterfaceTree, Stmt, TriggerTree, Unit};
use class_tables::{Classes, ResultHead};
use class_walk::trigger_header;
use statement_walk::BodyView;
use std::alloc::Global;
use type_names::WalkFault;
use typed_program::{TypedEvent, TypedStmt, TypedTrigger};

fn trigger_body(
    alloc: Global,
    home: &Home,
    object: usize,
    trees: &[Stmt],
) -> Result<Items<TypedStmt>, WalkFault>
    ensures { Comes (spec.trigger_body (home_of home.now) object trees.now) result }
{
    let setting = home.trigger(object);
    let due = ResultHead::Void;
    let view = BodyView {
        setting: &setting,
        methods: home.methods,
        due: &due,
    };
    plain_body(alloc, &view, trees)
}

fn events_of(alloc: Global, trees: &[EventTree]) -> Result<Items<TypedEvent>, NoMemory>
    ensures { IfOk result (λ all. all ≡ map spec.event_of trees.now) }
{
    let mut all = Items::new(alloc);
    for tree in trees {
        all.push(TypedEvent {
            after: tree.after,
            op: tree.op,
        })?;
    }
    Ok(all)
}

fn trigger_of(
    alloc: Global,
    tree: &TriggerTree,
    object: usize,
    body: Items<TypedStmt>,
) -> Result<TypedTrigger, NoMemory>
    ensures { IfOk result (λ t. t ≡ spec.trigger_of tree.now object body) }
{
    let name = text_of(alloc, &tree.written)?;
    let folded = tree.name.name.copy()?;
    let events = events_of(alloc, tree.events.as_slice())?;
    Ok(TypedTrigger {
        name,
        folded,
        object,
        events,
        body,
    })
}

fn trigger(
    alloc: Global,
    classes: &Classes,
    home: &Home,
    unit: usize,
    tree: &TriggerTree,
    code: &mut Code,
) -> Result<(), WalkFault>
    ensures { Grows (onward (spec.trigger_step classes.now.objects.now.names.items classes.now.units.now (home_of home.now) unit tree.now) (λ made. Gives (spec.with_trigger code.old made))) result code.new }
{
    let object = trigger_header(classes, unit, tree)?;
    let stmts = trigger_body(alloc, home, object, tree.body.stmts.as_slice())?;
    code.triggers.push(trigger_of(alloc, tree, object, stmts)?)?;
    Ok(())
}

fn class_unit(
    alloc: Global,
    classes: &Classes,
    home: &Home,
    unit: usize,
    tree: &ClassTree,
    code: &mut Code,
) -> Result<(), WalkFault>
    ensures { Grows (spec.class_unit classes.now.objects.now.names.items classes.now.units.now (home_of home.now) unit tree.now code.old) result code.new }
{
    let made = class_of(alloc, classes, home, unit, code.classes.len(), tree)?;
    Ok(code.classes.push(made)?)
}

fn interface_unit(
    alloc: Global,
    classes: &Classes,
    home: &Home,
    unit: usize,
    tree: &InterfaceTree,
    code: &mut Code,
) -> Result<(), WalkFault>
    ensures { Grows (spec.interface_unit classes.now.objects.now.names.items classes.now.units.now (home_of home.now) unit tree.now code.old) result code.new }
{
    let made = interface(alloc, classes, home, unit, code.classes.len(), tree)?;
    Ok(code.classes.push(made)?)
}

/// The statements of a block, or their first fault.
pub fn block_stmts(
    alloc: Global,
    home: &Home,
    trees: &[Stmt],
) -> Result<Items<TypedStmt>, WalkFault>
    ensures { Comes (spec.block_step (home_of home.now) trees.now) result }
{
    let setting = home.setting(None, true, false);
    let due = ResultHead::Void;
    let view = BodyView {
        setting: &setting,
        methods: home.methods,
        due: &due,
    };
    plain_body(alloc, &view, trees)
}

fn block_unit(alloc: Global, home: &Home, trees: &[Stmt], code: &mut Code) -> Result<(), WalkFault>
    ensures { Grows (onward (spec.block_step (home_of home.now) trees.now) (λ _. Gives code.old)) result code.new }
{
    let _ = block_stmts(alloc, home, trees)?;
    Ok(())
}

/// The unit with this number, behind the code of those before it: its typed form comes to that code, or its first fault.
/// The header of a class comes first, then `MissingMethod`, the parent's constructor that it calls without saying so, and
/// its members. A block has no place among units; its fault is told all the same.
pub fn unit(
    alloc: Global,
    classes: &Classes,
    home: &Home,
    number: usize,
    tree: &Unit,
    code: &mut Code,
) -> Result<(), WalkFault>
    ensures { Grows (spec.unit_step classes.now.objects.now.names.items classes.now.units.now (home_of home.now) number tree.now code.old) result code.new }
{
    match tree {
        Unit::Class(tree) => class_unit(alloc, classes, home, number, tree, code),
        Unit::Interface(tree) => interface_unit(alloc, classes, home, number, tree, code),
        Unit::Trigger(tree) => trigger(alloc, classes, home, number, tree, code),
        Unit::Block(trees) => block_unit(alloc, home, trees.as_slice(), code),
    }
}
