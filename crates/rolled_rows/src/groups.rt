// Detail rows by the rows that they name as their masters.

ghost use Rattle.std.specs.Prelude.{◌≡◌, ◌&&◌, [], ℕ, List, true, cond, eqb, slice_get, Some, IfOk, OnOk};
ghost use Rattle.rolled_rows.specs.Groups.{AreGroups, has_rollup, is_at, key, key_eq, rows_in, with_row};
ghost use Rattle.rolled_rows.specs.RollUps as spec;

use crate::fields::{fields_of, is_summed, master_field};
use apex_list::Items;
use apex_num::{Cell, NoMemory};
use apex_rows::Row;
use apex_schema::{Field, Schema};
use indexmap::IndexMap;
use std::alloc::{AllocError, Global};

/// The rows of an object that name one row by one field.
#[derive(Clone, Copy, PartialEq, Eq, Hash, Drop)]
pub struct DetailKey {
    pub object: usize,
    pub field: usize,
    pub id: [u8; 15],
}

// Takes the rows under a key.
fn take(alloc: Global, groups: &mut IndexMap<DetailKey, Items<Row>>, at: DetailKey) -> Items<Row>
    ensures taken { result ≡ rows_in groups.old at }
    ensures others { (other : DetailKey) → rows_in groups.new other ≡ cond (key_eq at other) [] (rows_in groups.old other) }
{
    match groups.swap_remove(&at) {
        Some(rows) => rows,
        None => Items::new(alloc),
    }
}

fn rows_in(groups: &IndexMap<DetailKey, Items<Row>>, at: DetailKey) -> &[Row]
    ensures { result.now ≡ rows_in groups.now at }
{
    match groups.get(&at) {
        Some(rows) => rows.as_slice(),
        None => &[],
    }
}

// With a row more under a key.
fn add_under(
    alloc: Global,
    groups: &mut IndexMap<DetailKey, Items<Row>>,
    at: DetailKey,
    row: &Row,
) -> Result<(), NoMemory>
    ensures { OnOk result ((other : DetailKey) → rows_in groups.new other ≡ with_row (key_eq at other) (rows_in groups.old other) row.now) }
{
    let copied = row.copy()?;
    let mut rows = take(alloc, groups, at);
    rows.push(copied)?;
    groups.insert(at, rows).map_err(AllocError::from)?;
    Ok(())
}

// With a row more under the key of a field of its object, where the field is summed.
fn add_by(
    alloc: Global,
    schema: &Schema,
    groups: &mut IndexMap<DetailKey, Items<Row>>,
    row: &Row,
    n: usize,
    field: &Field,
) -> Result<(), NoMemory>
    requires { slice_get (spec.fields_of schema.now row.now.object) n ≡ Some field.now }
    ensures { OnOk result ((object f : ℕ) (id : List ℕ) → rows_in groups.new (key object f id) ≡ with_row (eqb f n && is_at schema.now object f id row.now) (rows_in groups.old (key object f id)) row.now) }
{
    if !is_summed(schema, row.object, &field.kind) {
        return Ok(());
    }
    match row.cells.get(n) {
        Some(Cell::Id(id)) => {
            let at = DetailKey {
                object: row.object,
                field: n,
                id: id.bytes(),
            };
            add_under(alloc, groups, at, row)
        }
        _ => Ok(()),
    }
}

// With a row more under the keys of its fields.
fn add_row(
    alloc: Global,
    schema: &Schema,
    groups: &mut IndexMap<DetailKey, Items<Row>>,
    row: &Row,
) -> Result<(), NoMemory>
    ensures { OnOk result ((object f : ℕ) (id : List ℕ) → rows_in groups.new (key object f id) ≡ with_row (is_at schema.now object f id row.now) (rows_in groups.old (key object f id)) row.now) }
{
    let fields = fields_of(schema, row.object);
    'fields: for i in 0..fields.len() {
        add_by(alloc, schema, groups, row, i, &fields[i])?;
    }
    Ok(())
}

fn grouped(
    alloc: Global,
    schema: &Schema,
    rows: &[Row],
) -> Result<IndexMap<DetailKey, Items<Row>>, NoMemory>
    ensures { IfOk result (λ groups. AreGroups schema.now rows.now groups) }
{
    let mut groups = IndexMap::new(alloc);
    'rows: for i in 0..rows.len() {
        add_row(alloc, schema, &mut groups, &rows[i])?;
    }
    Ok(groups)
}

/// Detail rows of a schema, by the rows that they name as their masters.
#[derive(Drop)]
pub struct Details<'a> {
    pub schema: &'a Schema,
    pub rows: &'a [Row],
    groups: IndexMap<DetailKey, Items<Row>>,
    ghost are_groups: { AreGroups schema.now rows.now groups },
}

impl<'a> Details<'a> {
    /// Looks at each row once, and copies those over which there is a roll-up. Want of memory is the only error.
    pub fn new(alloc: Global, schema: &'a Schema, rows: &'a [Row]) -> Result<Details<'a>, NoMemory>
        ensures { IfOk result (λ d. (d.schema.now ≡ schema.now) × (d.rows.now ≡ rows.now)) }
    {
        let groups = grouped(alloc, schema, rows)?;
        Ok(Details {
            schema,
            rows,
            groups,
        })
    }

    // The rows of a detail object that are under a master row which has a roll-up over them.
    pub(crate) fn under(&self, detail: usize, master: &Row) -> &[Row]
        requires { has_rollup detail (spec.fields_of self.now.schema.now master.now.object) ≡ true }
        ensures { result.now ≡ spec.under self.now.schema.now detail master.now self.now.rows.now }
    {
        match master_field(self.schema, detail, master.object) {
            Some(field) => rows_in(
                &self.groups,
                DetailKey {
                    object: detail,
                    field,
                    id: master.id.bytes(),
                },
            ),
            None => &[],
        }
    }
}
