// Fields of a planned schema.

ghost use Rattle.std.specs.Prelude.{◌≡◌, ◌++◌, not, string_bytes, IfOk};
ghost use Rattle.apex_text.specs.Fold.{folded};
ghost use Rattle.schema_build.specs.Lookups.{before_of};
ghost use Rattle.schema_plans.specs.Plans as spec;

use crate::before::Seen;
use crate::heights::ends_at;
use crate::lookup::{Lookup, has_master, has_word, number, with_field};
use crate::objects::{is_link, is_master, target};
use crate::planned::{named, standing};
use crate::sets::{Children, Words};
use apex_num::{NoMemory, Text};
use apex_schema::{Rollup, RollupBy};
use apex_text::Name;
use fault_words::{Fault, FaultWord};
use schema_names::{is_bad_name, name_of};
use schema_plans::{ChildWord, FieldPlan, ObjectPlan, PlanKind, PlanLength};
use std::alloc::Global;

// Whether a name that has to be given isn't, or is a bad one.
fn is_bad_given(alloc: Global, name: &Option<Text>) -> Result<bool, NoMemory>
    ensures { IfOk result (λ b. b ≡ spec.is_bad_given name.now) }
{
    match name {
        Some(text) => {
            let name = name_of(alloc, text)?;
            Ok(is_bad_name(text.bytes(), &name))
        }
        None => Ok(true),
    }
}

fn has_bad_name(alloc: Global, field: &FieldPlan, name: &Name) -> Result<bool, NoMemory>
    requires { name.now ≡ folded field.now.name }
    ensures { IfOk result (λ b. b ≡ spec.has_bad_name field.now) }
{
    if is_bad_name(field.name.bytes(), name) {
        return Ok(true);
    }
    if !is_link(field.kind) {
        return Ok(false);
    }
    let relation = is_bad_given(alloc, &field.relation)?;
    if relation {
        return Ok(true);
    }
    is_bad_given(alloc, &field.children)
}

// Whether a relation word is a word before the field, or its name.
fn is_own(
    alloc: Global,
    words: &Words,
    name: &Name,
    relation: &Option<Text>,
) -> Result<bool, NoMemory>
    ensures { IfOk result (λ b. b ≡ spec.is_own words.now.list.items name.now relation.now) }
{
    match relation {
        Some(text) => {
            let relation = name_of(alloc, text)?;
            Ok(words.has(&relation) || *name == relation)
        }
        None => Ok(false),
    }
}

fn relation_is_taken(
    alloc: Global,
    words: &Words,
    name: &Name,
    field: &FieldPlan,
) -> Result<bool, NoMemory>
    requires { name.now ≡ folded field.now.name }
    ensures { IfOk result (λ b. b ≡ spec.relation_is_taken words.now.list.items field.now) }
{
    if is_link(field.kind) {
        is_own(alloc, words, name, &field.relation)
    } else {
        Ok(false)
    }
}

// The children word of a field, and its object.
fn child_word(
    alloc: Global,
    lookup: &Lookup,
    field: &FieldPlan,
) -> Result<Option<ChildWord>, NoMemory>
    ensures { IfOk result (λ child. child ≡ spec.child_word lookup.now.plan.now field.now) }
{
    let Some(to) = target(alloc, lookup.plan, &lookup.objects, field)? else {
        return Ok(None);
    };
    match &field.children {
        Some(text) => {
            let word = name_of(alloc, text)?;
            Ok(Some(ChildWord { to, word }))
        }
        None => Ok(None),
    }
}

fn child_is_taken(lookup: &Lookup, earlier: &Children, child: &Option<ChildWord>) -> bool
    ensures { result ≡ spec.child_is_taken lookup.now.plan.now earlier.now.list.items child.now }
{
    match child {
        Some(child) => has_word(lookup, child.to, &child.word) || earlier.has(child),
        None => false,
    }
}

fn is_double(
    alloc: Global,
    lookup: &Lookup,
    seen: &Seen,
    field: &FieldPlan,
    name: &Name,
) -> Result<bool, NoMemory>
    requires { name.now ≡ folded field.now.name }
    ensures { IfOk result (λ b. b ≡ spec.is_double lookup.now.plan.now (before_of seen.now) field.now) }
{
    if seen.words.has(name) {
        return Ok(true);
    }
    let relation = relation_is_taken(alloc, &seen.words, name, field)?;
    if relation {
        return Ok(true);
    }
    let child = child_word(alloc, lookup, field)?;
    Ok(child_is_taken(lookup, &seen.children, &child))
}

fn is_bad_length(length: Option<PlanLength>) -> bool
    ensures { result ≡ spec.is_bad_length length }
{
    match length {
        Some(PlanLength::Whole(n)) => n == 0 || 100_000 < n,
        Some(PlanLength::Other) => true,
        None => false,
    }
}

// The field that a roll-up sums up, where it has to have one.
fn summed(
    alloc: Global,
    lookup: &Lookup,
    detail: usize,
    by: RollupBy,
    name: &Option<Text>,
) -> Result<Option<Option<usize>>, NoMemory>
    ensures { IfOk result (λ n. n ≡ spec.summed lookup.now.plan.now detail by name.now) }
{
    match by {
        RollupBy::Count => Ok(Some(None)),
        RollupBy::Sum | RollupBy::Min | RollupBy::Max => match name {
            Some(name) => {
                let name = name_of(alloc, name)?;
                Ok(number(lookup, detail, &name).map(Some))
            }
            None => Ok(None),
        },
    }
}

// The object that has this one among its masters.
fn detail_of(
    alloc: Global,
    lookup: &Lookup,
    at: usize,
    field: &FieldPlan,
) -> Result<Option<usize>, NoMemory>
    ensures { IfOk result (λ n. n ≡ spec.detail_of lookup.now.plan.now at field.now) }
{
    let Some(detail) = named(alloc, &lookup.objects, &field.of)? else {
        return Ok(None);
    };
    if has_master(lookup, detail, at) {
        Ok(Some(detail))
    } else {
        Ok(None)
    }
}

/// The roll-up that a field is.
pub fn rollup_of(
    alloc: Global,
    lookup: &Lookup,
    at: usize,
    field: &FieldPlan,
) -> Result<Option<Rollup>, NoMemory>
    ensures { IfOk result (λ r. r ≡ spec.rollup_of lookup.now.plan.now at field.now) }
{
    let Some(by) = field.by else {
        return Ok(None);
    };
    let Some(detail) = detail_of(alloc, lookup, at, field)? else {
        return Ok(None);
    };
    summed_by(alloc, lookup, detail, by, &field.field)
}

// The roll-up of a detail object.
fn summed_by(
    alloc: Global,
    lookup: &Lookup,
    detail: usize,
    by: RollupBy,
    name: &Option<Text>,
) -> Result<Option<Rollup>, NoMemory>
    ensures { IfOk result (λ r. r ≡ spec.rolled_by lookup.now.plan.now detail by name.now) }
{
    let Some(field) = summed(alloc, lookup, detail, by, name)? else {
        return Ok(None);
    };
    Ok(Some(Rollup { detail, by, field }))
}

fn is_text(kind: PlanKind) -> bool
    ensures { result ≡ spec.is_text kind }
{
    match kind {
        PlanKind::Text => true,
        _ => false,
    }
}

fn is_rollup(kind: PlanKind) -> bool
    ensures { result ≡ spec.is_rollup kind }
{
    match kind {
        PlanKind::Rollup => true,
        _ => false,
    }
}

fn is_looped(lookup: &Lookup, target: Option<usize>) -> bool
    ensures { result ≡ not (spec.none_or (spec.all_end_within (spec.masters lookup.now.plan.now) 2) target) }
{
    match target {
        Some(master) => !ends_at(&lookup.short, master),
        None => false,
    }
}

// What is wrong with where a field leads, or what it holds.
fn kind_word(
    alloc: Global,
    lookup: &Lookup,
    at: usize,
    mastered: bool,
    field: &FieldPlan,
) -> Result<Option<FaultWord>, NoMemory>
    ensures { IfOk result (λ word. word ≡ spec.kind_word lookup.now.plan.now at mastered field.now) }
{
    let to = target(alloc, lookup.plan, &lookup.objects, field)?;
    if is_link(field.kind) && to.is_none() {
        return Ok(Some(FaultWord::UnknownObject));
    }
    if is_master(field.kind) && mastered {
        return Ok(Some(FaultWord::TooManyMasters));
    }
    if is_master(field.kind) && is_looped(lookup, to) {
        return Ok(Some(FaultWord::MasterLoop));
    }
    if is_text(field.kind) && is_bad_length(field.length) {
        return Ok(Some(FaultWord::BadLength));
    }
    let rollup = rollup_of(alloc, lookup, at, field)?;
    if is_rollup(field.kind) && rollup.is_none() {
        return Ok(Some(FaultWord::BadRollup));
    }
    Ok(None)
}

fn field_word(
    alloc: Global,
    lookup: &Lookup,
    at: usize,
    seen: &Seen,
    field: &FieldPlan,
) -> Result<Option<FaultWord>, NoMemory>
    ensures { IfOk result (λ word. word ≡ spec.field_word lookup.now.plan.now at (before_of seen.now) field.now) }
{
    let name = name_of(alloc, &field.name)?;
    let double = is_double(alloc, lookup, seen, field, &name)?;
    if double {
        return Ok(Some(FaultWord::Duplicate));
    }
    let bad = has_bad_name(alloc, field, &name)?;
    if bad {
        return Ok(Some(FaultWord::BadName));
    }
    kind_word(alloc, lookup, at, seen.mastered, field)
}

/// What stands behind a field.
pub fn behind(
    alloc: Global,
    lookup: &Lookup,
    seen: Seen,
    field: &FieldPlan,
) -> Result<Seen, NoMemory>
    ensures { IfOk result (λ next. before_of next ≡ spec.behind lookup.now.plan.now (before_of seen) field.now) }
{
    let child = child_word(alloc, lookup, field)?;
    let words = with_field(alloc, seen.words, field)?;
    let children = added(seen.children, child)?;
    Ok(Seen {
        words,
        mastered: seen.mastered || is_master(field.kind),
        children,
    })
}

fn added(children: Children, child: Option<ChildWord>) -> Result<Children, NoMemory>
    ensures { IfOk result (λ all. all.list.items ≡ children.list.items ++ spec.added child) }
{
    match child {
        Some(child) => children.with(child),
        None => Ok(children),
    }
}

/// The fault of a field.
pub fn field_fault(
    alloc: Global,
    lookup: &Lookup,
    at: usize,
    object: &ObjectPlan,
    seen: &Seen,
    field: &FieldPlan,
) -> Result<Option<Fault>, NoMemory>
    ensures { IfOk result (λ fault. fault ≡ spec.standing (spec.field_place object.now field.now.name) (spec.field_word lookup.now.plan.now at (before_of seen.now) field.now)) }
{
    let word = field_word(alloc, lookup, at, seen, field)?;
    let place = field_place(alloc, object, &field.name)?;
    standing(alloc, place.as_str(), word)
}

/// The name of an object's item, behind the object's.
pub fn field_place(alloc: Global, object: &ObjectPlan, name: &Text) -> Result<String, NoMemory>
    ensures { IfOk result (λ place. string_bytes place ≡ spec.field_place object.now name.now) }
{
    let mut place = String::from_str(alloc, object.name.as_str())?;
    place.push_str(".")?;
    place.push_str(name.as_str())?;
    Ok(place)
}
