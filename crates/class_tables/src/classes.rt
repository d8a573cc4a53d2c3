// The classes of a tenant.

ghost use Rattle.std.specs.Prelude.{◌≡◌, map, IfOk};
ghost use Rattle.type_names.specs.TypeTrees.{known};
ghost use Rattle.class_tables.specs.Heads as spec;

use crate::head::{ClassHead, heads};
use crate::line::ClassHeads;
use crate::names::{class_names, interfaces_among, unit_names};
use apex_list::{Boxed, Items};
use apex_num::NoMemory;
use apex_syntax::Unit;
use schema_names::Places;
use std::alloc::Global;
use type_names::TypeNames;

/// The units of a tenant, with the names of its objects, and what stands in front of the members of its classes and
/// interfaces. These are numbered from 0 in the order of their units.
#[derive(Drop)]
pub struct Classes<'a> {
    pub units: &'a [Unit],
    pub objects: &'a Places,
    unit_places: Boxed<Places>,
    class_places: Boxed<Places>,
    lines: ClassHeads,
    ghost units_are: { unit_places.names.items ≡ map spec.unit_name units.now },
    ghost classes_are: { class_places.names.items ≡ spec.class_names units.now },
    ghost heads_are: { lines.heads ≡ spec.heads_of objects.now.names.items units.now },
}

fn heads_of(
    alloc: Global,
    objects: &Places,
    classes: &Places,
    units: &[Unit],
) -> Result<Items<ClassHead>, NoMemory>
    requires { classes.now.names.items ≡ spec.class_names units.now }
    ensures { IfOk result (λ all. all ≡ spec.heads_of objects.now.names.items units.now) }
{
    let names = TypeNames { objects, classes };
    let interfaces = interfaces_among(alloc, units)?;
    heads(alloc, &names, interfaces.as_slice(), units)
}

impl<'a> Classes<'a> {
    /// The classes and interfaces among units.
    pub fn of(
        alloc: Global,
        objects: &'a Places,
        units: &'a [Unit],
    ) -> Result<Classes<'a>, NoMemory>
        ensures units { IfOk result (λ c. c.units.now ≡ units.now) }
        ensures objects { IfOk result (λ c. c.objects.now ≡ objects.now) }
    {
        let unit_places = unit_names(alloc, units)?;
        let class_places = class_names(alloc, units)?;
        let heads = heads_of(alloc, objects, class_places.get(), units)?;
        let lines = ClassHeads::of(alloc, heads)?;
        Ok(Classes {
            units,
            objects,
            unit_places,
            class_places,
            lines,
        })
    }

    /// The names that types have.
    pub fn names(&self) -> TypeNames<'_>
        ensures { known result ≡ spec.known_of self.now.objects.now.names.items self.now.units.now }
    {
        TypeNames {
            objects: self.objects,
            classes: self.class_places.get(),
        }
    }

    /// The heads of the classes and interfaces.
    pub fn lines(&self) -> &ClassHeads
        ensures { result.now.heads ≡ spec.heads_of self.now.objects.now.names.items self.now.units.now }
    {
        &self.lines
    }

    /// The names of the units, by their places.
    pub fn unit_places(&self) -> &Places
        ensures { result.now.names.items ≡ map spec.unit_name self.now.units.now }
    {
        self.unit_places.get()
    }
}
