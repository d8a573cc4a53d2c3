// The names of units and classes.

ghost use Rattle.std.specs.Prelude.{◌≡◌, map, IfOk};
ghost use Rattle.class_tables.specs.Heads as spec;

use apex_list::{Boxed, Items};
use apex_num::NoMemory;
use apex_syntax::Unit;
use apex_text::Name;
use schema_names::Places;
use std::alloc::Global;

fn unit_name(alloc: Global, unit: &Unit) -> Result<Name, NoMemory>
    ensures { IfOk result (λ n. n ≡ spec.unit_name unit.now) }
{
    match unit {
        Unit::Class(tree) => tree.name.name.copy(),
        Unit::Interface(tree) => tree.name.name.copy(),
        Unit::Trigger(tree) => tree.name.name.copy(),
        Unit::Block(_) => Name::of(alloc, b""),
    }
}

/// The places of the names of all units.
pub fn unit_names(alloc: Global, units: &[Unit]) -> Result<Boxed<Places>, NoMemory>
    ensures { IfOk result (λ places. places.names.items ≡ map spec.unit_name units.now) }
{
    let mut names = Vec::new(alloc);
    for unit in units {
        names.push(unit_name(alloc, unit)?)?;
    }
    Boxed::new(alloc, Places::of(alloc, names)?)
}

/// The places of the names of classes and interfaces, which are their numbers.
pub fn class_names(alloc: Global, units: &[Unit]) -> Result<Boxed<Places>, NoMemory>
    ensures { IfOk result (λ places. places.names.items ≡ spec.class_names units.now) }
{
    let mut names = Vec::new(alloc);
    for unit in units {
        match unit {
            Unit::Class(tree) => names.push(tree.name.name.copy()?)?,
            Unit::Interface(tree) => names.push(tree.name.name.copy()?)?,
            Unit::Trigger(_) | Unit::Block(_) => {}
        }
    }
    Boxed::new(alloc, Places::of(alloc, names)?)
}

/// Which of the classes and interfaces are interfaces.
pub fn interfaces_among(alloc: Global, units: &[Unit]) -> Result<Items<bool>, NoMemory>
    ensures { IfOk result (λ all. all ≡ spec.interfaces_among units.now) }
{
    let mut all = Items::new(alloc);
    for unit in units {
        match unit {
            Unit::Class(_) => all.push(false)?,
            Unit::Interface(_) => all.push(true)?,
            Unit::Trigger(_) | Unit::Block(_) => {}
        }
    }
    Ok(all)
}
