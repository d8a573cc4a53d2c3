// The first fault of a planned schema.

ghost use Rattle.std.specs.Prelude.{◌≡◌, ◌++◌, [], IfOk, MatchResult};
ghost use Rattle.schema_build.specs.Lookups.{before_of};
ghost use Rattle.schema_plans.specs.Plans as spec;

use crate::before::Seen;
use crate::fields::{behind, field_fault, field_place};
use crate::lookup::{Lookup, own_words};
use crate::objects::objects_fault;
use crate::planned::{names_of, standing};
use crate::roles::{parents, roles_fault, users_fault};
use crate::sets::Children;
use apex_num::NoMemory;
use fault_words::{Fault, FaultWord};
use schema_names::{Places, is_bad_name, name_of};
use schema_plans::{ObjectPlan, RulePlan, SchemaPlan};
use std::alloc::Global;

// The first fault of an object's fields, or the children words behind them.
fn fields_fault(
    alloc: Global,
    lookup: &Lookup,
    at: usize,
    object: &ObjectPlan,
    start: Seen,
) -> Result<Result<Children, Fault>, NoMemory>
    ensures { IfOk result (λ r. MatchResult r (λ all. (spec.fields_fault lookup.now.plan.now at object.now (before_of start) object.now.fields ≡ None) × (all.list.items ≡ start.children.list.items ++ spec.children_of lookup.now.plan.now object.now.fields)) (λ fault. spec.fields_fault lookup.now.plan.now at object.now (before_of start) object.now.fields ≡ Some fault)) }
{
    let mut seen = start;
    for field in object.fields.as_slice() {
        let fault = field_fault(alloc, lookup, at, object, &seen, field)?;
        if let Some(fault) = fault {
            return Ok(Err(fault));
        }
        seen = behind(alloc, lookup, seen, field)?;
    }
    Ok(Ok(seen.children))
}

// What stands before the fields of an object.
fn begin(alloc: Global, children: Children) -> Result<Seen, NoMemory>
    ensures { IfOk result (λ seen. before_of seen ≡ spec.start children.list.items) }
{
    Ok(Seen {
        words: own_words(alloc)?,
        mastered: false,
        children,
    })
}

// The first fault of all fields.
fn all_fields_fault(
    alloc: Global,
    lookup: &Lookup,
    plan: &SchemaPlan,
) -> Result<Option<Fault>, NoMemory>
    requires { plan.now ≡ lookup.now.plan.now }
    ensures { IfOk result (λ fault. fault ≡ spec.all_fields_fault plan.now 0 [] plan.now.objects) }
{
    let objects = plan.objects.as_slice();
    let mut children = Children::new(alloc);
    'objects: for i in 0..objects.len() {
        let start = begin(alloc, children)?;
        match fields_fault(alloc, lookup, i, &objects[i], start)? {
            Ok(all) => children = all,
            Err(fault) => return Ok(Some(fault)),
        }
    }
    Ok(None)
}

fn rule_fault(
    alloc: Global,
    object: &ObjectPlan,
    rule: &RulePlan,
) -> Result<Option<Fault>, NoMemory>
    ensures { IfOk result (λ fault. fault ≡ spec.rule_fault object.now 0 rule.now) }
{
    let name = name_of(alloc, &rule.name)?;
    if !is_bad_name(rule.name.bytes(), &name) {
        return Ok(None);
    }
    let place = field_place(alloc, object, &rule.name)?;
    standing(alloc, place.as_str(), Some(FaultWord::BadName))
}

// The first fault of an object's rules, their formulas apart.
fn rules_fault(alloc: Global, object: &ObjectPlan) -> Result<Option<Fault>, NoMemory>
    ensures { IfOk result (λ fault. fault ≡ spec.first_of (spec.rule_fault object.now) 0 object.now.rules) }
{
    let rules = object.rules.as_slice();
    'rules: for i in 0..rules.len() {
        let fault = rule_fault(alloc, object, &rules[i])?;
        if let Some(fault) = fault {
            return Ok(Some(fault));
        }
    }
    Ok(None)
}

// The first fault of all rules.
fn all_rules_fault(alloc: Global, plan: &SchemaPlan) -> Result<Option<Fault>, NoMemory>
    ensures { IfOk result (λ fault. fault ≡ spec.first_of spec.rules_fault 0 plan.now.objects) }
{
    let objects = plan.objects.as_slice();
    'objects: for i in 0..objects.len() {
        let fault = rules_fault(alloc, &objects[i])?;
        if let Some(fault) = fault {
            return Ok(Some(fault));
        }
    }
    Ok(None)
}

/// The names of the roles.
pub fn role_places(alloc: Global, plan: &SchemaPlan) -> Result<Places, NoMemory>
    ensures { IfOk result (λ places. places.names.items ≡ spec.role_names plan.now) }
{
    let names = names_of(alloc, plan.roles.as_slice())?;
    Places::of(alloc, names)
}

fn user_places(alloc: Global, plan: &SchemaPlan) -> Result<Places, NoMemory>
    ensures { IfOk result (λ places. places.names.items ≡ spec.user_names plan.now) }
{
    let names = names_of(alloc, plan.users.as_slice())?;
    Places::of(alloc, names)
}

// The first fault of the roles, or of the users behind them.
fn people_fault(alloc: Global, plan: &SchemaPlan, roles: &Places) -> Result<Option<Fault>, NoMemory>
    requires { roles.now.names.items ≡ spec.role_names plan.now }
    ensures { IfOk result (λ fault. fault ≡ spec.people_fault plan.now) }
{
    let above = parents(alloc, plan, roles)?;
    let fault = roles_fault(alloc, plan, roles, &above)?;
    if let Some(fault) = fault {
        return Ok(Some(fault));
    }
    let users = user_places(alloc, plan)?;
    users_fault(alloc, plan, roles, &users)
}

// The first fault of the objects, or of the fields behind them, or of the rules behind these.
fn data_fault(alloc: Global, plan: &SchemaPlan, lookup: &Lookup) -> Result<Option<Fault>, NoMemory>
    requires { plan.now ≡ lookup.now.plan.now }
    ensures { IfOk result (λ fault. fault ≡ spec.data_fault plan.now) }
{
    let fault = objects_fault(alloc, plan, &lookup.objects)?;
    if let Some(fault) = fault {
        return Ok(Some(fault));
    }
    let fault = all_fields_fault(alloc, lookup, plan)?;
    if let Some(fault) = fault {
        return Ok(Some(fault));
    }
    all_rules_fault(alloc, plan)
}

/// The first fault of a planned schema, its formulas apart.
pub fn schema_fault(
    alloc: Global,
    plan: &SchemaPlan,
    roles: &Places,
    lookup: &Lookup,
) -> Result<Option<Fault>, NoMemory>
    requires roles { roles.now.names.items ≡ spec.role_names plan.now }
    requires lookup { plan.now ≡ lookup.now.plan.now }
    ensures { IfOk result (λ fault. fault ≡ spec.schema_fault plan.now) }
{
    let fault = people_fault(alloc, plan, roles)?;
    if let Some(fault) = fault {
        return Ok(Some(fault));
    }
    data_fault(alloc, plan, lookup)
}
