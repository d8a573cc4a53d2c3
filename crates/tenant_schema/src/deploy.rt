// A plan's schema and its formulas.

ghost use Rattle.std.specs.Prelude.{◌≡◌, ◌≤◌, ◌++◌, ◌∷◌, [], length, map, IfOk, MatchResult};
ghost use Rattle.schema_plans.specs.Schemas.{numbered, object_of, row_share};
ghost use Rattle.schema_plans.specs.Validity.{IsValid};
ghost use Rattle.tenant_schema.specs.Answers.{HaveOnly, NoFormulas};
ghost use Rattle.tenant_schema.specs.Deployed.{Deploys};

use crate::formulas::object_formulas;
use apex_list::Items;
use apex_schema::{Object, Rule, Schema};
use schema_build::{build, with_rules};
use schema_plans::{SchemaFault, SchemaPlan};
use std::alloc::Global;

// The formulas of all planned objects.
fn planned_formulas(
    alloc: Global,
    plan: &SchemaPlan,
    objects: &[Object],
) -> Result<Items<Vec<Rule>>, SchemaFault>
    requires { objects.now ≡ numbered (object_of plan.now) 0 plan.now.objects ++ row_share ∷ [] }
    ensures { MatchResult result (λ rules. HaveOnly plan.now (map (λ list. list.items) rules)) (λ fault. NoFormulas plan.now fault) }
{
    let mut all = Items::new(alloc);
    'objects: for i in 0..plan.objects.len() {
        let rules = object_formulas(alloc, &plan.objects.as_slice()[i], &objects[i])?;
        match all.push(rules) {
            Ok(()) => {}
            Err(_) => return Err(SchemaFault::NoMemory),
        }
    }
    Ok(all)
}

/// The schema of a plan with the formulas of its rules, RowShare behind its objects; or the first fault: those of
/// `schema_build::build` first, and where there is none, `BadRule` of the first rule whose text is no formula of its object,
/// object by object in their order. Its place is `schema` and the names of the object and the rule, with a dot between.
pub fn deploy_schema(alloc: Global, plan: &SchemaPlan) -> Result<Schema, SchemaFault>
    requires { length plan.now.users ≤ 1000000 }
    ensures deployed { Deploys plan.now result }
    ensures valid { IfOk result IsValid }
{
    let schema = build(alloc, plan)?;
    let mut rules = planned_formulas(alloc, plan, schema.objects.as_slice())?;
    match rules.push(Vec::new(alloc)) {
        Ok(()) => Ok(with_rules(schema, rules.into_vec())),
        Err(_) => Err(SchemaFault::NoMemory),
    }
}
