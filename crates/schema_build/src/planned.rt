// What the items of a planned schema have in common: a name, and the place of a fault.

ghost use Rattle.std.specs.Prelude.{◌≡◌, ◌++◌, codes, map, IfOk};
ghost use Rattle.apex_text.specs.Fold.{folded};
ghost use Rattle.schema_names.specs.Names.{place_of};
ghost use Rattle.schema_plans.specs.Plans as spec;

use apex_num::{NoMemory, Text};
use apex_text::Name;
use fault_words::{Fault, FaultWord};
use schema_names::{Places, name_of};
use schema_plans::{FieldPlan, ObjectPlan, RolePlan, UserPlan};
use std::alloc::Global;

/// An item with a name.
pub trait Planned {
    ghost use Rattle.std.specs.Prelude.{ℕ, List};

    ghost name: { Self → List ℕ };

    fn name(&self) -> &Text
        ensures { result.now ≡ name self.now };
}

impl Planned for RolePlan {
    ghost name = { λ r. r.name };

    fn name(&self) -> &Text {
        &self.name
    }
}

impl Planned for UserPlan {
    ghost name = { λ u. u.name };

    fn name(&self) -> &Text {
        &self.name
    }
}

impl Planned for ObjectPlan {
    ghost name = { λ o. o.name };

    fn name(&self) -> &Text {
        &self.name
    }
}

impl Planned for FieldPlan {
    ghost name = { λ f. f.name };

    fn name(&self) -> &Text {
        &self.name
    }
}

/// The folded names of items.
pub fn names_of<T: Planned>(alloc: Global, items: &[T]) -> Result<Vec<Name>, NoMemory>
    ensures { IfOk result (λ names. names.items ≡ map (λ x. folded (T.name x)) items.now) }
{
    let mut names = Vec::new(alloc);
    for item in items {
        names.push(name_of(alloc, item.name())?)?;
    }
    Ok(names)
}

/// The place among names that a name stands for, where it is given.
pub fn named(alloc: Global, places: &Places, name: &Option<Text>) -> Result<Option<usize>, NoMemory>
    ensures { IfOk result (λ place. place ≡ spec.named places.now.names.items name.now) }
{
    match name {
        Some(text) => {
            let name = name_of(alloc, text)?;
            Ok(places.place(&name))
        }
        None => Ok(None),
    }
}

/// Whether an earlier one of these names is this one.
pub fn is_taken(places: &Places, name: &Name, at: usize) -> bool
    ensures { result ≡ spec.is_before (place_of places.now.names.items name.now) at }
{
    match places.place(name) {
        Some(first) => first < at,
        None => false,
    }
}

/// The fault of an item, where it has one.
pub fn standing(
    alloc: Global,
    name: &str,
    word: Option<FaultWord>,
) -> Result<Option<Fault>, NoMemory>
    ensures { IfOk result (λ fault. fault ≡ spec.standing name.now word) }
{
    let Some(word) = word else {
        return Ok(None);
    };
    let mut place = String::from_str(alloc, "schema ")?;
    place.push_str(name)?;
    let place = Text::from_str(alloc, place.as_str())?;
    Ok(Some(Fault { place, word }))
}
