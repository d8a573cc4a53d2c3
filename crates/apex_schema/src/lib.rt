//! The types of a tenant's schema: roles, users, objects with their fields, and the formulas of validation rules.
#![tactic(auto)]

mod rule;
mod schema;

pub use rule::{Rule, RuleOp, RuleTerm};
pub use schema::{
    Access, Field, FieldKind, Link, Mode, Object, Role, Rollup, RollupBy, RuleHead, Schema, User,
};
