//! Planned schemas, and what they mean: their first fault, or the schema that they stand for.
#![tactic(auto)]

mod child;
mod plan;
mod plan_fault;

pub use child::ChildWord;
pub use plan::{
    FieldPlan, ObjectPlan, PlanKind, PlanLength, RolePlan, RulePlan, SchemaPlan, UserPlan,
};
pub use plan_fault::SchemaFault;
