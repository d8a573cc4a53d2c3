// The schema of a tenant.

ghost use Rattle.std.specs.Prelude.{◌≡◌, IfOk};

use crate::rule::Rule;
use apex_list::Items;
use apex_num::{Copied, NoMemory, Text, copy_list};

/// What a user may do with a row. The levels rise in this order.
#[derive(Clone, Copy, PartialEq, Eq, Drop)]
pub enum Access {
    /// The user doesn't see the row.
    Nothing,
    /// The user sees the row.
    Read,
    /// The user may change the row.
    Edit,
}

/// Whether queries and saves look at the access of the user.
#[derive(Clone, Copy, PartialEq, Eq, Drop)]
pub enum Mode {
    /// They do: `with sharing`.
    Sharing,
    /// They don't: `without sharing`.
    Without,
}

/// A role of the role hierarchy.
#[derive(Drop)]
pub struct Role {
    pub name: Text,
    /// The number of the role above it.
    pub parent: Option<usize>,
}

/// A user of the tenant. User number u has the Id `005`, `0000`, `0000` and u + 1.
#[derive(Drop)]
pub struct User {
    pub name: Text,
    /// The number of the user's role.
    pub role: Option<usize>,
}

/// What a Lookup or MasterDetail field leads to.
#[derive(Drop)]
pub struct Link {
    /// The number of the object whose rows the field names.
    pub to: usize,
    /// The word that leads from a row to its parent.
    pub relation: Text,
    /// The word that leads from the parent to its rows.
    pub children: Text,
}

/// How a roll-up sums up its detail rows.
#[derive(Clone, Copy, PartialEq, Eq, Drop)]
pub enum RollupBy {
    Count,
    Sum,
    Min,
    Max,
}

/// A field that sums up the rows under its row.
#[derive(Clone, Copy, PartialEq, Eq, Drop)]
pub struct Rollup {
    /// The number of the detail object.
    pub detail: usize,
    pub by: RollupBy,
    /// The number of the detail's field, a Number; none for Count.
    pub field: Option<usize>,
}

/// What a field holds.
#[derive(Drop)]
pub enum FieldKind {
    Id,
    /// Text of at most so many Unicode scalar values.
    Text(u32),
    Number,
    Checkbox,
    Date,
    Datetime,
    Lookup(Link),
    MasterDetail(Link),
    Rollup(Rollup),
}

/// A field of an object.
#[derive(Drop)]
pub struct Field {
    pub name: Text,
    pub kind: FieldKind,
    /// Whether a saved row must have a value here.
    pub required: bool,
}

/// The name and the message of a validation rule.
#[derive(Drop)]
pub struct RuleHead {
    pub name: Text,
    pub message: Text,
}

/// An object: a kind of rows. `Id` is field 0 and `OwnerId` field 1.
#[derive(Drop)]
pub struct Object {
    pub name: Text,
    /// The first three characters of its rows' Ids.
    pub prefix: Text,
    /// What everybody may do with its rows.
    pub default: Access,
    pub fields: Items<Field>,
    pub heads: Items<RuleHead>,
    /// One formula for each head, or none yet.
    pub rules: Items<Rule>,
}

/// The schema of a tenant. Names are as they were written; they are compared without case.
#[derive(Drop)]
pub struct Schema {
    pub roles: Items<Role>,
    pub users: Items<User>,
    pub objects: Items<Object>,
}

impl Role {
    /// An equal role.
    pub fn copy(&self) -> Result<Role, NoMemory>
        ensures { IfOk result (λ c. c ≡ self.now) }
    {
        Ok(Role {
            name: self.name.copy()?,
            parent: self.parent,
        })
    }
}

impl User {
    /// An equal user.
    pub fn copy(&self) -> Result<User, NoMemory>
        ensures { IfOk result (λ c. c ≡ self.now) }
    {
        Ok(User {
            name: self.name.copy()?,
            role: self.role,
        })
    }
}

impl Link {
    /// An equal link.
    pub fn copy(&self) -> Result<Link, NoMemory>
        ensures { IfOk result (λ c. c ≡ self.now) }
    {
        Ok(Link {
            to: self.to,
            relation: self.relation.copy()?,
            children: self.children.copy()?,
        })
    }
}

impl FieldKind {
    /// An equal kind.
    pub fn copy(&self) -> Result<FieldKind, NoMemory>
        ensures { IfOk result (λ c. c ≡ self.now) }
    {
        Ok(match self {
            FieldKind::Id => FieldKind::Id,
            FieldKind::Text(n) => FieldKind::Text(*n),
            FieldKind::Number => FieldKind::Number,
            FieldKind::Checkbox => FieldKind::Checkbox,
            FieldKind::Date => FieldKind::Date,
            FieldKind::Datetime => FieldKind::Datetime,
            FieldKind::Lookup(link) => FieldKind::Lookup(link.copy()?),
            FieldKind::MasterDetail(link) => FieldKind::MasterDetail(link.copy()?),
            FieldKind::Rollup(rollup) => FieldKind::Rollup(*rollup),
        })
    }
}

impl Field {
    /// An equal field.
    pub fn copy(&self) -> Result<Field, NoMemory>
        ensures { IfOk result (λ c. c ≡ self.now) }
    {
        Ok(Field {
            name: self.name.copy()?,
            kind: self.kind.copy()?,
            required: self.required,
        })
    }
}

impl RuleHead {
    /// An equal head.
    pub fn copy(&self) -> Result<RuleHead, NoMemory>
        ensures { IfOk result (λ c. c ≡ self.now) }
    {
        Ok(RuleHead {
            name: self.name.copy()?,
            message: self.message.copy()?,
        })
    }
}

impl Object {
    /// An equal object.
    pub fn copy(&self) -> Result<Object, NoMemory>
        ensures { IfOk result (λ c. c ≡ self.now) }
    {
        Ok(Object {
            name: self.name.copy()?,
            prefix: self.prefix.copy()?,
            default: self.default,
            fields: copy_list(&self.fields)?,
            heads: copy_list(&self.heads)?,
            rules: copy_list(&self.rules)?,
        })
    }
}

impl Schema {
    /// An equal schema.
    pub fn copy(&self) -> Result<Schema, NoMemory>
        ensures { IfOk result (λ c. c ≡ self.now) }
    {
        Ok(Schema {
            roles: copy_list(&self.roles)?,
            users: copy_list(&self.users)?,
            objects: copy_list(&self.objects)?,
        })
    }
}

impl Copied for Role {
    fn copied(&self) -> Result<Role, NoMemory> {
        self.copy()
    }
}

impl Copied for User {
    fn copied(&self) -> Result<User, NoMemory> {
        self.copy()
    }
}

impl Copied for Object {
    fn copied(&self) -> Result<Object, NoMemory> {
        self.copy()
    }
}

impl Copied for Field {
    fn copied(&self) -> Result<Field, NoMemory> {
        self.copy()
    }
}

impl Copied for RuleHead {
    fn copied(&self) -> Result<RuleHead, NoMemory> {
        self.copy()
    }
}
