// Roles and users of a planned schema.

ghost use Rattle.std.specs.Prelude.{◌≡◌, ◌<◌, length, IfOk};
ghost use Rattle.schema_plans.specs.Plans as spec;

use crate::chains::ends;
use crate::planned::{is_taken, named, standing};
use apex_num::{NoMemory, Text};
use fault_words::{Fault, FaultWord};
use schema_names::{Places, is_bad_name, name_of};
use schema_plans::{RolePlan, SchemaPlan, UserPlan};
use std::alloc::Global;

/// The numbers of the roles' parents.
pub fn parents(
    alloc: Global,
    plan: &SchemaPlan,
    places: &Places,
) -> Result<Vec<Option<usize>>, NoMemory>
    requires { places.now.names.items ≡ spec.role_names plan.now }
    ensures { IfOk result (λ all. all.items ≡ spec.parents plan.now) }
{
    let mut all = Vec::new(alloc);
    for role in plan.roles.as_slice() {
        all.push(named(alloc, places, &role.parent)?)?;
    }
    Ok(all)
}

// Whether a name is given, and it is none of these.
fn is_unknown(alloc: Global, places: &Places, name: &Option<Text>) -> Result<bool, NoMemory>
    ensures { IfOk result (λ b. b ≡ spec.is_unknown places.now.names.items name.now) }
{
    match name {
        Some(text) => {
            let name = name_of(alloc, text)?;
            Ok(places.place(&name).is_none())
        }
        None => Ok(false),
    }
}

fn role_word(
    alloc: Global,
    plan: &SchemaPlan,
    places: &Places,
    at: usize,
    role: &RolePlan,
    ends: bool,
) -> Result<Option<FaultWord>, NoMemory>
    requires names { places.now.names.items ≡ spec.role_names plan.now }
    requires ends { ends ≡ spec.ends_within (spec.parents plan.now) (length plan.now.roles) at }
    ensures { IfOk result (λ word. word ≡ spec.role_word plan.now at role.now) }
{
    let _ = plan;
    let name = name_of(alloc, &role.name)?;
    if is_taken(places, &name, at) {
        return Ok(Some(FaultWord::Duplicate));
    }
    if is_bad_name(role.name.bytes(), &name) {
        return Ok(Some(FaultWord::BadName));
    }
    let unknown = is_unknown(alloc, places, &role.parent)?;
    if unknown {
        return Ok(Some(FaultWord::UnknownRole));
    }
    if ends {
        Ok(None)
    } else {
        Ok(Some(FaultWord::RoleLoop))
    }
}

fn role_fault(
    alloc: Global,
    plan: &SchemaPlan,
    places: &Places,
    at: usize,
    role: &RolePlan,
    ends: bool,
) -> Result<Option<Fault>, NoMemory>
    requires names { places.now.names.items ≡ spec.role_names plan.now }
    requires ends { ends ≡ spec.ends_within (spec.parents plan.now) (length plan.now.roles) at }
    ensures { IfOk result (λ fault. fault ≡ spec.role_fault plan.now at role.now) }
{
    let word = role_word(alloc, plan, places, at, role, ends)?;
    standing(alloc, role.name.as_str(), word)
}

/// The first fault of the roles.
pub fn roles_fault(
    alloc: Global,
    plan: &SchemaPlan,
    places: &Places,
    parents: &[Option<usize>],
) -> Result<Option<Fault>, NoMemory>
    requires names { places.now.names.items ≡ spec.role_names plan.now }
    requires parents { parents.now ≡ spec.parents plan.now }
    ensures { IfOk result (λ fault. fault ≡ spec.first_of (spec.role_fault plan.now) 0 plan.now.roles) }
{
    let roles = plan.roles.as_slice();
    let mut notes = vec![in alloc; None; roles.len()]?;
    'roles: for i in 0..roles.len() {
        let ends = ends(parents, &mut notes, i);
        let fault = role_fault(alloc, plan, places, i, &roles[i], ends)?;
        if let Some(fault) = fault {
            return Ok(Some(fault));
        }
    }
    Ok(None)
}

fn user_word(
    alloc: Global,
    plan: &SchemaPlan,
    roles: &Places,
    users: &Places,
    at: usize,
    user: &UserPlan,
) -> Result<Option<FaultWord>, NoMemory>
    requires roles { roles.now.names.items ≡ spec.role_names plan.now }
    requires users { users.now.names.items ≡ spec.user_names plan.now }
    ensures { IfOk result (λ word. word ≡ spec.user_word plan.now at user.now) }
{
    let _ = plan;
    let name = name_of(alloc, &user.name)?;
    if is_taken(users, &name, at) {
        return Ok(Some(FaultWord::Duplicate));
    }
    if is_bad_name(user.name.bytes(), &name) {
        return Ok(Some(FaultWord::BadName));
    }
    let unknown = is_unknown(alloc, roles, &user.role)?;
    if unknown {
        return Ok(Some(FaultWord::UnknownRole));
    }
    Ok(None)
}

fn user_fault(
    alloc: Global,
    plan: &SchemaPlan,
    roles: &Places,
    users: &Places,
    at: usize,
    user: &UserPlan,
) -> Result<Option<Fault>, NoMemory>
    requires roles { roles.now.names.items ≡ spec.role_names plan.now }
    requires users { users.now.names.items ≡ spec.user_names plan.now }
    ensures { IfOk result (λ fault. fault ≡ spec.user_fault plan.now at user.now) }
{
    let word = user_word(alloc, plan, roles, users, at, user)?;
    standing(alloc, user.name.as_str(), word)
}

/// The first fault of the users.
pub fn users_fault(
    alloc: Global,
    plan: &SchemaPlan,
    roles: &Places,
    users: &Places,
) -> Result<Option<Fault>, NoMemory>
    requires roles { roles.now.names.items ≡ spec.role_names plan.now }
    requires users { users.now.names.items ≡ spec.user_names plan.now }
    ensures { IfOk result (λ fault. fault ≡ spec.first_of (spec.user_fault plan.now) 0 plan.now.users) }
{
    let all = plan.users.as_slice();
    'users: for i in 0..all.len() {
        let fault = user_fault(alloc, plan, roles, users, i, &all[i])?;
        if let Some(fault) = fault {
            return Ok(Some(fault));
        }
    }
    Ok(None)
}
