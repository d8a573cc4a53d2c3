// The allocation units of the rows that are copied.

ghost use Rattle.std.specs.Prelude.{◌≡◌, ◌+◌, ◌<◌, ◌^◌, slice_get};
ghost use Rattle.std.specs.Option.{option_copied};
ghost use Rattle.trigger_things.specs.Capped.{capped};
ghost use Rattle.trigger_things.specs.Things as spec;

use apex_requests::Context;
use apex_rows::Row;
use apex_schema::{Object, Schema};

// Those of a row of an object, with a sum.
fn object_units(object: Option<&Object>, sum: u64) -> u64
    ensures { result ≡ capped (sum + spec.object_units (option_copied object.entry)) }
{
    match object {
        None => sum.saturating_add(64),
        Some(object) => {
            let fields = (object.fields.len() as u64).saturating_mul(32);
            sum.saturating_add(fields.saturating_add(64))
        }
    }
}

// Those of rows, with a sum.
fn units_in(schema: &Schema, rows: &[Row], sum: u64) -> u64
    ensures { result ≡ capped (sum + spec.units_in schema.now rows.now) }
{
    let mut sum = sum;
    for row in rows {
        sum = object_units(schema.objects.get(row.object), sum);
    }
    sum
}

/// The allocation units of a firing: those of each row that is copied for it. The greatest number stands for more, and no limit is
/// as great.
pub fn copy_units(schema: &Schema, context: &Context) -> u64
    ensures { result ≡ capped (spec.copy_units schema.now context.now) }
{
    let sum = units_in(schema, context.news.as_slice(), 0);
    units_in(schema, context.olds.as_slice(), sum)
}
