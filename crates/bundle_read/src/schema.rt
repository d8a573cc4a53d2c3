// Roles, users and objects.

ghost use Rattle.std.specs.Prelude.{◌≡◌};
ghost use Rattle.bundle_read.specs.Bundles as bundle;
ghost use Rattle.bundle_read.specs.Readings as spec;
ghost use Rattle.bundle_read.specs.Readings.{Tells};
ghost use Rattle.serde_json.specs.View.{view, items_view};

use crate::fault::{BundleFault, wrong};
use crate::lists::{each, keyed, or_empty, short, slice_in};
use crate::read::{Entry, needed, optional, within_key};
use apex_list::Items;
use apex_num::Text;
use apex_schema::RollupBy;
use fault_words::FaultWord;
use schema_plans::{
    FieldPlan, ObjectPlan, PlanKind, PlanLength, RolePlan, RulePlan, SchemaPlan, UserPlan,
};
use serde_json::Value;
use std::alloc::Global;

impl Entry for RolePlan {
    ghost use Rattle.bundle_read.specs.Bundles as bundle;

    ghost reads = { bundle.role };

    fn read(alloc: Global, value: &Value) -> Result<RolePlan, BundleFault> {
        keyed(alloc, value, &["name", "parent"])?;
        let name = needed(alloc, value, "name")?;
        let parent = optional(alloc, value, "parent")?;
        Ok(RolePlan { name, parent })
    }
}

impl Entry for UserPlan {
    ghost use Rattle.bundle_read.specs.Bundles as bundle;

    ghost reads = { bundle.user };

    fn read(alloc: Global, value: &Value) -> Result<UserPlan, BundleFault> {
        keyed(alloc, value, &["name", "role"])?;
        let name = needed(alloc, value, "name")?;
        let role = optional(alloc, value, "role")?;
        Ok(UserPlan { name, role })
    }
}

fn or_false(truth: Option<bool>) -> bool
    ensures { result ≡ bundle.or_false truth }
{
    match truth {
        Some(truth) => truth,
        None => false,
    }
}

// What a field says of itself: its name, its type, its length, and whether it is required.
fn field_head(
    alloc: Global,
    value: &Value,
) -> Result<(Text, PlanKind, Option<PlanLength>, bool), BundleFault>
    ensures { Tells result (bundle.field_head (view value.now)) }
{
    let name = needed(alloc, value, "name")?;
    let kind = needed(alloc, value, "type")?;
    let length = optional(alloc, value, "length")?;
    let required = optional(alloc, value, "required")?;
    Ok((name, kind, length, or_false(required)))
}

// Where a field leads: the object, and the words there and back.
fn field_link(
    alloc: Global,
    value: &Value,
) -> Result<(Option<Text>, Option<Text>, Option<Text>), BundleFault>
    ensures { Tells result (bundle.field_link (view value.now)) }
{
    let to = optional(alloc, value, "to")?;
    let relation = optional(alloc, value, "relation")?;
    let children = optional(alloc, value, "children")?;
    Ok((to, relation, children))
}

// What a field sums up: the detail object, how, and its field.
fn field_sum(
    alloc: Global,
    value: &Value,
) -> Result<(Option<Text>, Option<RollupBy>, Option<Text>), BundleFault>
    ensures { Tells result (bundle.field_sum (view value.now)) }
{
    let of = optional(alloc, value, "of")?;
    let by = optional(alloc, value, "by")?;
    let field = optional(alloc, value, "field")?;
    Ok((of, by, field))
}

const FIELD_KEYS: [&str; 10] = [
    "name", "type", "length", "required", "to", "relation", "children", "of", "by", "field",
];

impl Entry for FieldPlan {
    ghost use Rattle.bundle_read.specs.Bundles as bundle;

    ghost reads = { bundle.field };

    fn read(alloc: Global, value: &Value) -> Result<FieldPlan, BundleFault> {
        keyed(alloc, value, &FIELD_KEYS)?;
        let (name, kind, length, required) = field_head(alloc, value)?;
        let (to, relation, children) = field_link(alloc, value)?;
        let (of, by, field) = field_sum(alloc, value)?;
        Ok(FieldPlan {
            name,
            kind,
            length,
            required,
            to,
            relation,
            children,
            of,
            by,
            field,
        })
    }
}

impl Entry for RulePlan {
    ghost use Rattle.bundle_read.specs.Bundles as bundle;

    ghost reads = { bundle.rule };

    fn read(alloc: Global, value: &Value) -> Result<RulePlan, BundleFault> {
        keyed(alloc, value, &["name", "when", "message"])?;
        let name = needed(alloc, value, "name")?;
        let when = needed(alloc, value, "when")?;
        let message = needed(alloc, value, "message")?;
        Ok(RulePlan {
            name,
            when,
            message,
        })
    }
}

impl Entry for ObjectPlan {
    ghost use Rattle.bundle_read.specs.Bundles as bundle;

    ghost reads = { bundle.object_plan };

    fn read(alloc: Global, value: &Value) -> Result<ObjectPlan, BundleFault> {
        keyed(
            alloc,
            value,
            &["name", "prefix", "default", "fields", "rules"],
        )?;
        let name = needed(alloc, value, "name")?;
        let prefix = needed(alloc, value, "prefix")?;
        let default = needed(alloc, value, "default")?;
        let fields = needed(alloc, value, "fields")?;
        let rules = optional(alloc, value, "rules")?;
        Ok(ObjectPlan {
            name,
            prefix,
            default,
            fields,
            rules: or_empty(alloc, rules),
        })
    }
}

// The users, of whom there is one.
fn users(alloc: Global, value: &Value) -> Result<Items<UserPlan>, BundleFault>
    ensures { Tells result (bundle.users (view value.now)) }
{
    let list = slice_in(alloc, value)?;
    if list.is_empty() {
        return Err(wrong(alloc, FaultWord::BadValue));
    }
    short(alloc, list, Some(1_000_000))?;
    each(alloc, list)
}

fn found_users(alloc: Global, value: Option<&Value>) -> Result<Items<UserPlan>, BundleFault>
    ensures { Tells result (spec.found bundle.users (spec.option_view value.entry)) }
{
    match value {
        Some(value) => users(alloc, value),
        None => Err(wrong(alloc, FaultWord::Missing)),
    }
}

/// The roles, users and objects of a tenant.
pub fn schema(alloc: Global, value: &Value) -> Result<SchemaPlan, BundleFault>
    ensures { Tells result (bundle.schema (view value.now)) }
{
    let roles = optional(alloc, value, "roles")?;
    let users = within_key(alloc, "users", found_users(alloc, value.get("users")))?;
    let objects = needed(alloc, value, "objects")?;
    Ok(SchemaPlan {
        roles: or_empty(alloc, roles),
        users,
        objects,
    })
}
