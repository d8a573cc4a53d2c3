// Paths over the rows that are known.

ghost use Rattle.std.specs.Prelude.{◌≡◌, slice_get, IfOk};
ghost use Rattle.std.specs.Option.{option_copied};
ghost use Rattle.apex_num.specs.declared.cell.Cell.TheVariants as TheCell;
ghost use Rattle.row_meaning.specs.Conds.{cell_of};
ghost use Rattle.row_meaning.specs.Queries as spec;
ghost use Rattle.query_rows.specs.Read.{value_of};

use crate::known::Known;
use apex_num::{Cell, NoMemory};
use apex_rows::{Path, Row};
use apex_schema::{Field, FieldKind, Schema};
use std::marker::Model;

/// Reads the values of paths: a schema, and the rows over the rows of a query that are known.
#[derive(Drop)]
pub struct Reader<'a> {
    schema: &'a Schema,
    known: &'a Known,
}

impl<'a> Model for Reader<'a> {
    ghost use Rattle.std.specs.Coded.{codes};
    ghost use Rattle.apex_schema.specs.contracts.rule.Rule as rule;
    ghost use Rattle.query_rows.specs.Read.{Read};

    ghost Value = { Read };

    ghost coded = { Prim.hlevel (codes, rule.the_row.coded) };

    ghost view = { λ r. record { schema = r.schema.now; known = r.known.now } };
}

// The object that a field of this kind leads to.
fn leads_to(kind: &FieldKind) -> Option<usize>
    ensures { result ≡ spec.leads_to kind.now }
{
    match kind {
        FieldKind::Lookup(link) | FieldKind::MasterDetail(link) => Some(link.to),
        FieldKind::Id
        | FieldKind::Text(_)
        | FieldKind::Number
        | FieldKind::Checkbox
        | FieldKind::Date
        | FieldKind::Datetime
        | FieldKind::Rollup(_) => None,
    }
}

fn field_leads(fields: &[Field], field: usize) -> Option<usize>
    ensures { result ≡ spec.field_leads (slice_get fields.now field) }
{
    match fields.get(field) {
        Some(field) => leads_to(&field.kind),
        None => None,
    }
}

/// The object that a field of an object leads to.
pub fn object_leads(schema: &Schema, object: usize, field: usize) -> Option<usize>
    ensures { result ≡ spec.object_leads (slice_get schema.now.objects object) field }
{
    match schema.objects.get(object) {
        Some(object) => field_leads(object.fields.as_slice(), field),
        None => None,
    }
}

/// The cell of a field; null where the row has no such cell.
pub fn cell_at<'r>(row: &'r Row, field: usize, null: &'r Cell) -> &'r Cell
    requires { null.now ≡ TheCell.Null }
    ensures { result.now ≡ cell_of row.now field }
{
    match row.cells.get(field) {
        Some(cell) => cell,
        None => null,
    }
}

// The row that a field of a row names among those that are known.
fn named<'r>(known: &'r Known, row: &Row, field: usize) -> Option<&'r Row>
    ensures { option_copied result ≡ spec.named known.now (cell_of row.now field) }
{
    match row.cells.get(field) {
        Some(Cell::Id(id)) => known.find(id),
        _ => None,
    }
}

impl<'a> Reader<'a> {
    /// A reader over rows that are known.
    pub fn new(schema: &'a Schema, known: &'a Known) -> Reader<'a>
        ensures { result ≡ record { schema = schema.now; known = known.now } }
    {
        Reader { schema, known }
    }

    // The row that a field of a row leads to.
    fn parent(&self, row: &Row, field: usize) -> Option<&'a Row>
        ensures { option_copied result ≡ spec.parent self.now.schema self.now.known row.now field }
    {
        let object = object_leads(self.schema, row.object, field)?;
        let parent = named(self.known, row, field)?;
        if parent.object == object {
            Some(parent)
        } else {
            None
        }
    }

    // The row at the end of a way over parents.
    fn follow<'r>(&self, parents: &[usize], row: &'r Row) -> Option<&'r Row>
    where
        'a: 'r,
        ensures { option_copied result ≡ spec.follow self.now.schema self.now.known parents.now row.now }
    {
        let mut at = row;
        for field in parents {
            at = self.parent(at, *field)?;
        }
        Some(at)
    }

    /// The value of a path from a row; null where an Id on its way names no row.
    pub fn value<'r>(&self, row: &'r Row, path: &Path, null: &'r Cell) -> &'r Cell
    where
        'a: 'r,
        requires { null.now ≡ TheCell.Null }
        ensures { result.now ≡ value_of self.now row.now path.now }
    {
        match self.follow(path.parents.as_slice(), row) {
            Some(end) => cell_at(end, path.field, null),
            None => null,
        }
    }

    /// A copy of the value of a path.
    pub fn copied_value(&self, row: &Row, path: &Path) -> Result<Cell, NoMemory>
        ensures { IfOk result (λ cell. cell ≡ value_of self.now row.now path.now) }
    {
        let null = Cell::Null;
        self.value(row, path, &null).copy()
    }
}
