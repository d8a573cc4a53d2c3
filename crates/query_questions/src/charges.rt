// What the rows that were found are charged as.

ghost use Rattle.std.specs.Prelude.{◌≡◌, ◌+◌, length, slice_get, map};
ghost use Rattle.apex_rows.specs.declared.row.Child.{Child as TheChild};
ghost use Rattle.query_meaning.specs.Queries as spec;
ghost use Rattle.query_meaning.specs.Queries.{children_in, rows_in, width};
ghost use Rattle.query_questions.specs.Capped.{capped};

use apex_list::Items;
use apex_rows::{Child, Found, Row};
use apex_schema::Schema;

// With the rows under a row.
fn rows_under(lists: &[Items<Child>], sum: u64) -> u64
    ensures { result ≡ capped (sum + length (children_in lists.now)) }
{
    let mut sum = sum;
    for children in lists {
        sum = sum.saturating_add(children.len() as u64);
    }
    sum
}

/// How many rows were found, with those under them; the greatest number stands for more, and is above each limit.
pub fn rows_of(found: &[Found]) -> u64
    ensures { result ≡ capped (length (rows_in found.now)) }
{
    let mut sum: u64 = 0;
    for one in found {
        sum = rows_under(one.children.as_slice(), sum.saturating_add(1));
    }
    sum
}

// The number of fields of an object.
fn fields_of(schema: &Schema, object: usize) -> u64
    ensures { result ≡ width (slice_get schema.now.objects object) }
{
    match schema.objects.get(object) {
        Some(object) => object.fields.len() as u64,
        None => 0,
    }
}

// With the units of a row.
fn row_units(schema: &Schema, row: &Row, sum: u64) -> u64
    ensures { result ≡ capped (sum + spec.row_units schema.now row.now) }
{
    let fields = fields_of(schema, row.object).saturating_mul(32);
    sum.saturating_add(fields.saturating_add(64))
}

// With those of the rows of a list.
fn child_units(schema: &Schema, children: &[Child], sum: u64) -> u64
    ensures { result ≡ capped (sum + spec.units_of schema.now (map (λ (c : TheChild). c.row) children.now)) }
{
    let mut sum = sum;
    for child in children {
        sum = row_units(schema, &child.row, sum);
    }
    sum
}

// With those of the rows under a row.
fn units_under(schema: &Schema, lists: &[Items<Child>], sum: u64) -> u64
    ensures { result ≡ capped (sum + spec.units_of schema.now (children_in lists.now)) }
{
    let mut sum = sum;
    for children in lists {
        sum = child_units(schema, children.as_slice(), sum);
    }
    sum
}

/// The units of the rows that were found, with those under them; the greatest number stands for more, and is above each limit.
pub fn units_of(schema: &Schema, found: &[Found]) -> u64
    ensures { result ≡ capped (spec.units_of schema.now (rows_in found.now)) }
{
    let mut sum: u64 = 0;
    for one in found {
        let own = row_units(schema, &one.row, sum);
        sum = units_under(schema, one.children.as_slice(), own);
    }
    sum
}
