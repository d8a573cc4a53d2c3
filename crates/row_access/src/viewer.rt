// A user who looks at rows.

ghost use Rattle.std.specs.Prelude.{◌≡◌, ◌<◌, ◌||◌, suc, length, slice_get, IfOk};
ghost use Rattle.row_meaning.specs.Accesses as spec;
ghost use Rattle.row_meaning.specs.Conds.{cell_of};
ghost use Rattle.row_meaning.specs.Queries.{is_visible};
ghost use Rattle.row_meaning.specs.Users.{user_id};
ghost use Rattle.record_ids.specs.Ids.{most};
ghost use Rattle.row_access.specs.Views.{access_of};

use crate::levels::{greater, level_at, levels_of, named_in};
use crate::ranks::{Rank, ranks_if};
use crate::roles::{has_role_above, owner_role, role_at};
use apex_list::Items;
use apex_num::{Id, NoMemory};
use apex_rows::Row;
use apex_schema::{Access, Schema};
use indexmap::IndexMap;
use record_ids::user_id;
use std::alloc::Global;
use std::marker::Model;

/// A user who looks at rows, with what was shared with the user. What it needs for a row was looked up before.
#[derive(Drop)]
pub struct Viewer<'a> {
    schema: &'a Schema,
    user: usize,
    shares: Items<Row>,
    id: Id,
    role: Option<usize>,
    ranks: Vec<Option<Rank>>,
    levels: IndexMap<[u8; 15], Access>,
}

impl<'a> Model for Viewer<'a> {
    ghost use Rattle.std.specs.Coded.{codes};
    ghost use Rattle.apex_schema.specs.contracts.rule.Rule as rule;
    ghost use Rattle.row_access.specs.Views.{IsLookedUp, View};

    ghost Value = { View };

    ghost coded = { Prim.hlevel (codes, rule.the_row.coded) };

    ghost view = { λ v. record { schema = v.schema.now; user = v.user; shares = v.shares } };

    ghost invariant = { λ v. IsLookedUp v.schema.now v.user v.shares v.id v.role v.ranks.items v.levels };
}

fn default_of(schema: &Schema, object: usize) -> Access
    ensures { result ≡ spec.default_of (slice_get schema.now.objects object) }
{
    match schema.objects.get(object) {
        Some(object) => object.default,
        None => Access::Nothing,
    }
}

// Whether a user owns a row.
fn owns(id: &Id, row: &Row) -> bool
    ensures { result ≡ spec.is_id (cell_of row.now 1) id.now }
{
    match named_in(row, 1) {
        Some(owner) => owner == id,
        None => false,
    }
}

impl<'a> Viewer<'a> {
    /// A user by its number from 0, and RowShare rows: those of the user on the rows that are looked at, or more.
    pub fn new(
        alloc: Global,
        schema: &'a Schema,
        user: usize,
        shares: Items<Row>,
    ) -> Result<Viewer<'a>, NoMemory>
        requires user { suc user < most }
        requires users { length schema.now.users < most }
        ensures { IfOk result (λ v. v ≡ record { schema = schema.now; user = user; shares = shares }) }
    {
        let id = user_id(user);
        let levels = levels_of(alloc, &id, shares.as_slice())?;
        let role = role_at(schema.users.as_slice(), user);
        let ranks = ranks_if(alloc, schema.roles.as_slice(), role)?;
        Ok(Viewer {
            schema,
            user,
            shares,
            id,
            role,
            ranks,
            levels,
        })
    }

    // Whether the user may change a row whatever was shared.
    fn is_editor(&self, row: &Row) -> bool
        ensures { result ≡ (spec.is_id (cell_of row.now 1) (user_id self.now.user)
            || spec.has_role_above self.now.schema.roles (spec.role_from 0 self.now.schema.users (cell_of row.now 1)) (spec.role_of (slice_get self.now.schema.users self.now.user))) }
    {
        if owns(&self.id, row) {
            return true;
        }
        let owner = owner_role(self.schema.users.as_slice(), row);
        has_role_above(
            self.schema.roles.as_slice(),
            self.ranks.as_slice(),
            owner,
            self.role,
        )
    }

    // The level that was shared on a row.
    fn shared(&self, row: &Row) -> Access
        ensures { result ≡ spec.shared self.now.shares row.now.id (user_id self.now.user) }
    {
        level_at(&self.levels, &row.id)
    }

    /// The user's access to a row.
    pub fn access(&self, row: &Row) -> Access
        ensures { result ≡ access_of self.now row.now }
    {
        if self.is_editor(row) {
            return Access::Edit;
        }
        greater(default_of(self.schema, row.object), self.shared(row))
    }

    /// Whether the user sees a row.
    pub fn sees(&self, row: &Row) -> bool
        ensures { result ≡ is_visible (access_of self.now row.now) }
    {
        match self.access(row) {
            Access::Nothing => false,
            Access::Read | Access::Edit => true,
        }
    }
}
