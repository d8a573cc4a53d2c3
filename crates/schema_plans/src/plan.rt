// What a bundle says of a tenant's schema, before it is checked. Names are as they were written.

use apex_list::Items;
use apex_num::Text;
use apex_schema::{Access, RollupBy};

/// The roles, users and objects of a tenant.
#[derive(Drop)]
pub struct SchemaPlan {
    pub roles: Items<RolePlan>,
    pub users: Items<UserPlan>,
    pub objects: Items<ObjectPlan>,
}

/// A role.
#[derive(Drop)]
pub struct RolePlan {
    pub name: Text,
    /// The name of the role above it.
    pub parent: Option<Text>,
}

/// A user.
#[derive(Drop)]
pub struct UserPlan {
    pub name: Text,
    /// The name of the user's role.
    pub role: Option<Text>,
}

/// An object.
#[derive(Drop)]
pub struct ObjectPlan {
    pub name: Text,
    /// The first three characters of its rows' Ids.
    pub prefix: Text,
    /// What everybody may do with its rows.
    pub default: Access,
    pub fields: Items<FieldPlan>,
    pub rules: Items<RulePlan>,
}

/// The type of a field, as a bundle names it.
#[derive(Clone, Copy, PartialEq, Eq, Drop)]
pub enum PlanKind {
    Text,
    Number,
    Checkbox,
    Date,
    Datetime,
    Lookup,
    MasterDetail,
    Rollup,
}

/// A number that a bundle gives for a length.
#[derive(Clone, Copy, PartialEq, Eq, Drop)]
pub enum PlanLength {
    /// A whole number that isn't negative.
    Whole(u64),
    /// Any other number.
    Other,
}

/// A field. What its type doesn't use may be there and says nothing.
#[derive(Drop)]
pub struct FieldPlan {
    pub name: Text,
    pub kind: PlanKind,
    /// The length of a Text field, 255 where it is absent.
    pub length: Option<PlanLength>,
    pub required: bool,
    /// The object that a Lookup or MasterDetail field leads to.
    pub to: Option<Text>,
    /// The word that leads from a row to its parent.
    pub relation: Option<Text>,
    /// The word that leads from the parent to its rows.
    pub children: Option<Text>,
    /// The detail object of a roll-up.
    pub of: Option<Text>,
    /// How a roll-up sums up.
    pub by: Option<RollupBy>,
    /// The field of the detail object that a roll-up sums up.
    pub field: Option<Text>,
}

/// A validation rule.
#[derive(Drop)]
pub struct RulePlan {
    pub name: Text,
    /// The formula.
    pub when: Text,
    pub message: Text,
}
