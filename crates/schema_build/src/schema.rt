// The schema of a plan without fault.

ghost use Rattle.std.specs.Prelude.{◌≡◌, ◌++◌, ◌≤◌, length, map, IfOk, MatchResult};
ghost use Rattle.schema_plans.specs.Plans as spec;
ghost use Rattle.schema_plans.specs.Schemas as made;
ghost use Rattle.schema_plans.specs.Validity.{IsValid};

use crate::faults::{role_places, schema_fault};
use crate::fields::rollup_of;
use crate::lookup::Lookup;
use crate::objects::target;
use crate::planned::named;
use apex_list::Items;
use apex_num::Text;
use apex_schema::{
    Access, Field, FieldKind, Link, Object, Role, Rollup, RollupBy, RuleHead, Schema, User,
};
use fault_words::Fault;
use schema_names::Places;
use schema_plans::{
    FieldPlan, ObjectPlan, PlanKind, PlanLength, RolePlan, RulePlan, SchemaFault, SchemaPlan,
    UserPlan,
};
use std::alloc::{AllocError, Global};

fn role_of(
    alloc: Global,
    plan: &SchemaPlan,
    roles: &Places,
    role: &RolePlan,
) -> Result<Role, AllocError>
    requires { roles.now.names.items ≡ spec.role_names plan.now }
    ensures { IfOk result (λ r. r ≡ made.role_of plan.now role.now) }
{
    let _ = plan;
    Ok(Role {
        name: role.name.copy()?,
        parent: named(alloc, roles, &role.parent)?,
    })
}

fn roles_of(alloc: Global, plan: &SchemaPlan, roles: &Places) -> Result<Items<Role>, AllocError>
    requires { roles.now.names.items ≡ spec.role_names plan.now }
    ensures { IfOk result (λ all. all ≡ map (made.role_of plan.now) plan.now.roles) }
{
    let mut all = Items::new(alloc);
    for role in plan.roles.as_slice() {
        all.push(role_of(alloc, plan, roles, role)?)?;
    }
    Ok(all)
}

fn user_of(
    alloc: Global,
    plan: &SchemaPlan,
    roles: &Places,
    user: &UserPlan,
) -> Result<User, AllocError>
    requires { roles.now.names.items ≡ spec.role_names plan.now }
    ensures { IfOk result (λ u. u ≡ made.user_of plan.now user.now) }
{
    let _ = plan;
    Ok(User {
        name: user.name.copy()?,
        role: named(alloc, roles, &user.role)?,
    })
}

fn users_of(alloc: Global, plan: &SchemaPlan, roles: &Places) -> Result<Items<User>, AllocError>
    requires { roles.now.names.items ≡ spec.role_names plan.now }
    ensures { IfOk result (λ all. all ≡ map (made.user_of plan.now) plan.now.users) }
{
    let mut all = Items::new(alloc);
    for user in plan.users.as_slice() {
        all.push(user_of(alloc, plan, roles, user)?)?;
    }
    Ok(all)
}

// A text, or the empty one.
fn text_or(alloc: Global, text: &Option<Text>) -> Result<Text, AllocError>
    ensures { IfOk result (λ t. t ≡ made.text_or text.now) }
{
    match text {
        Some(text) => text.copy(),
        None => Text::from_str(alloc, ""),
    }
}

fn length_of(length: Option<PlanLength>) -> u32
    ensures { result ≡ made.length_of length }
{
    match length {
        None => 255,
        Some(PlanLength::Whole(n)) => { if 100_000 < n { 0 } else { n as u32 } }
        Some(PlanLength::Other) => 0,
    }
}

fn link_of(alloc: Global, lookup: &Lookup, field: &FieldPlan) -> Result<Link, AllocError>
    ensures { IfOk result (λ l. l ≡ made.link_of lookup.now.plan.now field.now) }
{
    let to = target(alloc, lookup.plan, &lookup.objects, field)?;
    Ok(Link {
        to: to.unwrap_or(0),
        relation: text_or(alloc, &field.relation)?,
        children: text_or(alloc, &field.children)?,
    })
}

fn rollup_or(rollup: Option<Rollup>) -> Rollup
    ensures { result ≡ made.rollup_or rollup }
{
    match rollup {
        Some(rollup) => rollup,
        None => Rollup {
            detail: 0,
            by: RollupBy::Count,
            field: None,
        },
    }
}

fn kind_of(
    alloc: Global,
    lookup: &Lookup,
    at: usize,
    field: &FieldPlan,
) -> Result<FieldKind, AllocError>
    ensures { IfOk result (λ k. k ≡ made.kind_as lookup.now.plan.now at field.now field.now.kind) }
{
    match field.kind {
        PlanKind::Text => Ok(FieldKind::Text(length_of(field.length))),
        PlanKind::Number => Ok(FieldKind::Number),
        PlanKind::Checkbox => Ok(FieldKind::Checkbox),
        PlanKind::Date => Ok(FieldKind::Date),
        PlanKind::Datetime => Ok(FieldKind::Datetime),
        PlanKind::Lookup => Ok(FieldKind::Lookup(link_of(alloc, lookup, field)?)),
        PlanKind::MasterDetail => Ok(FieldKind::MasterDetail(link_of(alloc, lookup, field)?)),
        PlanKind::Rollup => {
            let rollup = rollup_of(alloc, lookup, at, field)?;
            Ok(FieldKind::Rollup(rollup_or(rollup)))
        }
    }
}

fn field_of(
    alloc: Global,
    lookup: &Lookup,
    at: usize,
    field: &FieldPlan,
) -> Result<Field, AllocError>
    ensures { IfOk result (λ f. f ≡ made.field_of lookup.now.plan.now at field.now) }
{
    Ok(Field {
        name: field.name.copy()?,
        kind: kind_of(alloc, lookup, at, field)?,
        required: field.required,
    })
}

fn field(alloc: Global, name: &str, kind: FieldKind, required: bool) -> Result<Field, AllocError>
    ensures { IfOk result (λ f. f ≡ record { name = name.now; kind = kind; required = required }) }
{
    Ok(Field {
        name: Text::from_str(alloc, name)?,
        kind,
        required,
    })
}

fn own_fields(alloc: Global) -> Result<Items<Field>, AllocError>
    ensures { IfOk result (λ all. all ≡ made.own_fields) }
{
    let mut all = Items::new(alloc);
    all.push(field(alloc, "Id", FieldKind::Id, false)?)?;
    all.push(field(alloc, "OwnerId", FieldKind::Id, false)?)?;
    Ok(all)
}

fn planned_fields(
    alloc: Global,
    lookup: &Lookup,
    at: usize,
    object: &ObjectPlan,
) -> Result<Items<Field>, AllocError>
    ensures { IfOk result (λ all. all ≡ map (made.field_of lookup.now.plan.now at) object.now.fields) }
{
    let mut all = Items::new(alloc);
    for field in object.fields.as_slice() {
        all.push(field_of(alloc, lookup, at, field)?)?;
    }
    Ok(all)
}

fn fields_of(
    alloc: Global,
    lookup: &Lookup,
    at: usize,
    object: &ObjectPlan,
) -> Result<Items<Field>, AllocError>
    ensures { IfOk result (λ all. all ≡ made.own_fields ++ map (made.field_of lookup.now.plan.now at) object.now.fields) }
{
    let mut all = own_fields(alloc)?;
    let planned = planned_fields(alloc, lookup, at, object)?;
    all.append(planned)?;
    Ok(all)
}

fn head_of(rule: &RulePlan) -> Result<RuleHead, AllocError>
    ensures { IfOk result (λ h. h ≡ made.head_of rule.now) }
{
    Ok(RuleHead {
        name: rule.name.copy()?,
        message: rule.message.copy()?,
    })
}

fn heads_of(alloc: Global, object: &ObjectPlan) -> Result<Items<RuleHead>, AllocError>
    ensures { IfOk result (λ all. all ≡ map made.head_of object.now.rules) }
{
    let mut all = Items::new(alloc);
    for rule in object.rules.as_slice() {
        all.push(head_of(rule)?)?;
    }
    Ok(all)
}

fn object_of(
    alloc: Global,
    lookup: &Lookup,
    at: usize,
    object: &ObjectPlan,
) -> Result<Object, AllocError>
    ensures { IfOk result (λ o. o ≡ made.object_of lookup.now.plan.now at object.now) }
{
    Ok(Object {
        name: object.name.copy()?,
        prefix: object.prefix.copy()?,
        default: object.default,
        fields: fields_of(alloc, lookup, at, object)?,
        heads: heads_of(alloc, object)?,
        rules: Items::new(alloc),
    })
}

fn row_share_fields(alloc: Global) -> Result<Items<Field>, AllocError>
    ensures { IfOk result (λ all. all ≡ made.row_share.fields) }
{
    let mut all = own_fields(alloc)?;
    all.push(field(alloc, "RowId", FieldKind::Id, true)?)?;
    all.push(field(alloc, "UserId", FieldKind::Id, true)?)?;
    all.push(field(alloc, "Level", FieldKind::Text(4), true)?)?;
    Ok(all)
}

fn row_share(alloc: Global) -> Result<Object, AllocError>
    ensures { IfOk result (λ o. o ≡ made.row_share) }
{
    Ok(Object {
        name: Text::from_str(alloc, "RowShare")?,
        prefix: Text::from_str(alloc, "00r")?,
        default: Access::Edit,
        fields: row_share_fields(alloc)?,
        heads: Items::new(alloc),
        rules: Items::new(alloc),
    })
}

fn planned_objects(
    alloc: Global,
    lookup: &Lookup,
    plan: &SchemaPlan,
) -> Result<Items<Object>, AllocError>
    requires { plan.now ≡ lookup.now.plan.now }
    ensures { IfOk result (λ all. all ≡ made.numbered (made.object_of plan.now) 0 plan.now.objects) }
{
    let objects = plan.objects.as_slice();
    let mut all = Items::new(alloc);
    'objects: for i in 0..objects.len() {
        all.push(object_of(alloc, lookup, i, &objects[i])?)?;
    }
    Ok(all)
}

fn schema_of(
    alloc: Global,
    lookup: &Lookup,
    plan: &SchemaPlan,
    roles: &Places,
) -> Result<Schema, AllocError>
    requires lookup { plan.now ≡ lookup.now.plan.now }
    requires roles { roles.now.names.items ≡ spec.role_names plan.now }
    ensures { IfOk result (λ s. s ≡ made.schema_of plan.now) }
{
    let mut objects = planned_objects(alloc, lookup, plan)?;
    objects.push(row_share(alloc)?)?;
    Ok(Schema {
        roles: roles_of(alloc, plan, roles)?,
        users: users_of(alloc, plan, roles)?,
        objects,
    })
}

// The schema, or the first fault.
fn built(alloc: Global, plan: &SchemaPlan) -> Result<Result<Schema, Fault>, AllocError>
    ensures { IfOk result (λ answer. MatchResult answer (λ schema. (spec.schema_fault plan.now ≡ None) × (schema ≡ made.schema_of plan.now)) (λ fault. spec.schema_fault plan.now ≡ Some fault)) }
{
    let roles = role_places(alloc, plan)?;
    let lookup = Lookup::of(alloc, plan)?;
    let fault = schema_fault(alloc, plan, &roles, &lookup)?;
    if let Some(fault) = fault {
        return Ok(Err(fault));
    }
    let schema = schema_of(alloc, &lookup, plan, &roles)?;
    Ok(Ok(schema))
}

/// The schema of a plan, RowShare behind its objects and without formulas; or the first fault of the plan. Roles are
/// looked at first, then users, then objects, then the fields of each object, then the names of its rules.
pub fn build(alloc: Global, plan: &SchemaPlan) -> Result<Schema, SchemaFault>
    requires { length plan.now.users ≤ 1000000 }
    ensures built { made.Builds plan.now result }
    ensures valid { IfOk result IsValid }
{
    match built(alloc, plan) {
        Ok(Ok(schema)) => Ok(schema),
        Ok(Err(fault)) => Err(SchemaFault::Wrong(fault)),
        Err(AllocError) => Err(SchemaFault::NoMemory),
    }
}
