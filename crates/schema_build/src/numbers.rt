// The Numbers of planned objects.

ghost use Rattle.std.specs.Prelude.{◌≡◌, ◌&&◌, ℕ, List, IfOk, OnOk, bytes_eq};
ghost use Rattle.apex_text.specs.Fold.{folded};
ghost use Rattle.indexmap.specs.IndexMap.{get};
ghost use Rattle.schema_build.specs.Lookups.{found_at};
ghost use Rattle.schema_names.specs.Names.{or_at};
ghost use Rattle.schema_plans.specs.Plans as spec;

use apex_num::NoMemory;
use apex_text::Name;
use indexmap::IndexMap;
use schema_names::{name_of, note};
use schema_plans::{FieldPlan, PlanKind, SchemaPlan};
use std::alloc::Global;

/// Whether a field is a Number.
pub fn is_number(kind: PlanKind) -> bool
    ensures { result ≡ spec.is_number kind }
{
    match kind {
        PlanKind::Number => true,
        _ => false,
    }
}

// With a field's name, where it is a Number and the first of its name.
fn add_number(
    alloc: Global,
    map: &mut IndexMap<Name, usize>,
    field: &FieldPlan,
    at: usize,
) -> Result<(), NoMemory>
    ensures { OnOk result ((n : List ℕ) → get bytes_eq map.new n ≡ or_at (get bytes_eq map.old n) (spec.is_number field.now.kind && bytes_eq (folded field.now.name) n) at) }
{
    if !is_number(field.kind) {
        return Ok(());
    }
    let name = name_of(alloc, &field.name)?;
    note(map, &name, at)
}

fn numbers_among(alloc: Global, fields: &[FieldPlan]) -> Result<IndexMap<Name, usize>, NoMemory>
    ensures { IfOk result (λ m. (n : List ℕ) → get bytes_eq m n ≡ spec.number_from 2 fields.now n) }
{
    let mut map = IndexMap::new(alloc);
    for i in 0..fields.len() {
        add_number(alloc, &mut map, &fields[i], i + 2)?;
    }
    Ok(map)
}

/// The numbers of each object's Numbers, by their names.
pub fn all_numbers(alloc: Global, plan: &SchemaPlan) -> Result<Vec<IndexMap<Name, usize>>, NoMemory>
    ensures { IfOk result (λ all. (d : ℕ) → (n : List ℕ) → found_at all.items d n ≡ spec.number_in plan.now.objects d n) }
{
    let mut all = Vec::new(alloc);
    for object in plan.objects.as_slice() {
        all.push(numbers_among(alloc, object.fields.as_slice())?)?;
    }
    Ok(all)
}
