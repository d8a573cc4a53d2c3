// Objects of a planned schema.

ghost use Rattle.std.specs.Prelude.{◌≡◌, ◌++◌, ◌∷◌, [], take, map, codes, ℕ, List, IfOk, OnOk, bytes_eq, ◌||◌};
ghost use Rattle.indexmap.specs.IndexSet.{contains};
ghost use Rattle.std.specs.List.{list_all};
ghost use Rattle.schema_names.specs.Names.{has, is_letter as the_letter, is_digit as the_digit};
ghost use Rattle.schema_build.specs.Lookups.{masters_in};
ghost use Rattle.schema_plans.specs.Plans as spec;

use crate::planned::{is_taken, named, names_of, standing};
use crate::sets::Masters;
use apex_num::{NoMemory, Text};
use apex_text::Name;
use fault_words::{Fault, FaultWord};
use indexmap::IndexSet;
use schema_names::{Places, is_bad_name, is_digit, is_letter, name_of};
use schema_plans::{FieldPlan, ObjectPlan, PlanKind, SchemaPlan};
use std::alloc::{AllocError, Global};

const ROW_SHARE: &[u8] = b"rowshare";

/// The names of the objects, that of RowShare behind them.
pub fn object_names(alloc: Global, plan: &SchemaPlan) -> Result<Places, NoMemory>
    ensures { IfOk result (λ places. places.names.items ≡ spec.object_names plan.now) }
{
    let mut names = names_of(alloc, plan.objects.as_slice())?;
    names.push(Name::of(alloc, ROW_SHARE)?)?;
    Places::of(alloc, names)
}

fn are_prefix_bytes(prefix: &[u8]) -> bool
    ensures { result ≡ list_all (λ b. the_letter b || the_digit b) prefix.now }
{
    for b in prefix {
        if !is_letter(*b) && !is_digit(*b) {
            return false;
        }
    }
    true
}

fn is_prefix(prefix: &[u8]) -> bool
    ensures { result ≡ spec.is_prefix prefix.now }
{
    prefix.len() == 3
        && are_prefix_bytes(prefix)
        && prefix != b"005".as_slice()
        && prefix != b"00r".as_slice()
}

fn object_word(
    alloc: Global,
    plan: &SchemaPlan,
    places: &Places,
    at: usize,
    object: &ObjectPlan,
    used: bool,
) -> Result<Option<FaultWord>, NoMemory>
    requires names { places.now.names.items ≡ spec.object_names plan.now }
    requires used { used ≡ has (take at (spec.prefixes plan.now)) object.now.prefix }
    ensures { IfOk result (λ word. word ≡ spec.object_word plan.now at object.now) }
{
    let _ = plan;
    let name = name_of(alloc, &object.name)?;
    if is_taken(places, &name, at) || name.bytes() == ROW_SHARE {
        return Ok(Some(FaultWord::Duplicate));
    }
    if is_bad_name(object.name.bytes(), &name) {
        return Ok(Some(FaultWord::BadName));
    }
    if !is_prefix(object.prefix.bytes()) || used {
        return Ok(Some(FaultWord::BadPrefix));
    }
    Ok(None)
}

fn object_fault(
    alloc: Global,
    plan: &SchemaPlan,
    places: &Places,
    at: usize,
    object: &ObjectPlan,
    used: bool,
) -> Result<Option<Fault>, NoMemory>
    requires names { places.now.names.items ≡ spec.object_names plan.now }
    requires used { used ≡ has (take at (spec.prefixes plan.now)) object.now.prefix }
    ensures { IfOk result (λ fault. fault ≡ spec.object_fault plan.now at object.now) }
{
    let word = object_word(alloc, plan, places, at, object, used)?;
    standing(alloc, object.name.as_str(), word)
}

// With one prefix more.
fn add_prefix(seen: &mut IndexSet<Text>, prefix: &Text) -> Result<(), NoMemory>
    ensures { OnOk result ((n : List ℕ) → contains bytes_eq seen.new n ≡ contains bytes_eq seen.old n || bytes_eq prefix.now n) }
{
    seen.insert(prefix.copy()?).map_err(AllocError::from)?;
    Ok(())
}

/// The first fault of the objects, their fields apart.
pub fn objects_fault(
    alloc: Global,
    plan: &SchemaPlan,
    places: &Places,
) -> Result<Option<Fault>, NoMemory>
    requires { places.now.names.items ≡ spec.object_names plan.now }
    ensures { IfOk result (λ fault. fault ≡ spec.first_of (spec.object_fault plan.now) 0 plan.now.objects) }
{
    let objects = plan.objects.as_slice();
    let mut seen = IndexSet::new(alloc);
    'objects: for i in 0..objects.len() {
        let used = seen.contains(&objects[i].prefix);
        let fault = object_fault(alloc, plan, places, i, &objects[i], used)?;
        if let Some(fault) = fault {
            return Ok(Some(fault));
        }
        add_prefix(&mut seen, &objects[i].prefix)?;
    }
    Ok(None)
}

/// Whether a field leads to another object.
pub fn is_link(kind: PlanKind) -> bool
    ensures { result ≡ spec.is_link kind }
{
    match kind {
        PlanKind::Lookup | PlanKind::MasterDetail => true,
        _ => false,
    }
}

/// Whether a field leads to a master.
pub fn is_master(kind: PlanKind) -> bool
    ensures { result ≡ spec.is_master kind }
{
    match kind {
        PlanKind::MasterDetail => true,
        _ => false,
    }
}

/// The number of the object that a field leads to.
pub fn target(
    alloc: Global,
    plan: &SchemaPlan,
    places: &Places,
    field: &FieldPlan,
) -> Result<Option<usize>, NoMemory>
    requires { places.now.names.items ≡ spec.object_names plan.now }
    ensures { IfOk result (λ n. n ≡ spec.target plan.now field.now) }
{
    let _ = plan;
    if is_link(field.kind) {
        named(alloc, places, &field.to)
    } else {
        Ok(None)
    }
}

// The number of the object that a MasterDetail field leads to.
fn master(
    alloc: Global,
    plan: &SchemaPlan,
    places: &Places,
    field: &FieldPlan,
) -> Result<Option<usize>, NoMemory>
    requires { places.now.names.items ≡ spec.object_names plan.now }
    ensures { IfOk result (λ n. n ≡ spec.master plan.now field.now) }
{
    if is_master(field.kind) {
        target(alloc, plan, places, field)
    } else {
        Ok(None)
    }
}

// With one master more, where there is one.
fn with_master(all: Masters, master: Option<usize>) -> Result<Masters, NoMemory>
    ensures { IfOk result (λ more. more.list.items ≡ all.list.items ++ spec.one_or_none master) }
{
    match master {
        Some(master) => all.with(master),
        None => Ok(all),
    }
}

fn masters_among(
    alloc: Global,
    plan: &SchemaPlan,
    places: &Places,
    fields: &[FieldPlan],
) -> Result<Masters, NoMemory>
    requires { places.now.names.items ≡ spec.object_names plan.now }
    ensures { IfOk result (λ all. all.list.items ≡ spec.masters_among plan.now fields.now) }
{
    let mut all = Masters::new(alloc);
    for field in fields {
        let master = master(alloc, plan, places, field)?;
        all = with_master(all, master)?;
    }
    Ok(all)
}

/// The masters of each object.
pub fn masters(alloc: Global, plan: &SchemaPlan, places: &Places) -> Result<Vec<Masters>, NoMemory>
    requires { places.now.names.items ≡ spec.object_names plan.now }
    ensures { IfOk result (λ all. map masters_in all.items ≡ spec.masters plan.now) }
{
    let mut all = Vec::new(alloc);
    for object in plan.objects.as_slice() {
        all.push(masters_among(alloc, plan, places, object.fields.as_slice())?)?;
    }
    Ok(all)
}
