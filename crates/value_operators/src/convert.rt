// Conversions.

ghost use Rattle.std.specs.Prelude.{◌≡◌, ℤ, pos, ◌*ℤ◌, IfOk};
ghost use Rattle.apex_num.specs.Decimals.{Answers};
ghost use Rattle.apex_num.specs.Ids.{id_value, long_id};
ghost use Rattle.apex_num.specs.declared.cell.Cell.TheVariants as C;
ghost use Rattle.txn_heap.specs.declared.thing.Value.TheVariants.{Plain};
ghost use Rattle.typed_program.specs.declared.expr.Conversion.TheVariants.{ToDecimal, ToId, ToText};
ghost use Rattle.value_operators.specs.declared.calculated.Calculated.TheVariants.{Val};
ghost use Rattle.value_operators.specs.Operators as spec;

use crate::calculated::{Calculated, plain};
use apex_num::{Cell, Dec, Id, NoMemory, Text, read_id};
use builtin_table::text_of;
use platform_errors::Thrown;
use std::alloc::Global;
use txn_heap::Value;
use typed_program::Conversion;

// The Decimal of a whole number.
fn whole_decimal(n: i64) -> Calculated
    ensures { result ≡ spec.decimal (n *ℤ pos 1000000) }
{
    match Dec::of(i128::from(n) * 1_000_000) {
        Some(d) => plain(Cell::Num(d)),
        None => Calculated::Fails(Thrown::OutOfRange),
    }
}

fn to_decimal(value: Value) -> Calculated
    ensures { result ≡ spec.converted ToDecimal value }
{
    match value {
        Value::Plain(Cell::Whole(n)) => whole_decimal(n),
        value => Calculated::Val(value),
    }
}

// The Id that a text names.
fn text_id(text: Text) -> Calculated
    ensures { result ≡ spec.id_or (id_value text) text }
{
    match read_id(text.bytes()) {
        Some(id) => plain(Cell::Id(id)),
        None => Calculated::Fails(Thrown::InvalidId(text)),
    }
}

fn to_id(value: Value) -> Calculated
    ensures { result ≡ spec.converted ToId value }
{
    match value {
        Value::Plain(Cell::Text(text)) => text_id(text),
        value => Calculated::Val(value),
    }
}

fn id_text(alloc: Global, id: &Id) -> Result<Calculated, NoMemory>
    ensures { IfOk result (λ c. c ≡ Val (Plain (C.Text (long_id id.now)))) }
{
    let text = text_of(alloc, &Cell::Id(*id))?;
    Ok(plain(Cell::Text(text)))
}

fn to_text(alloc: Global, value: Value) -> Result<Calculated, NoMemory>
    ensures { IfOk result (λ c. c ≡ spec.converted ToText value) }
{
    match &value {
        Value::Plain(Cell::Id(id)) => id_text(alloc, id),
        _ => Ok(Calculated::Val(value)),
    }
}

/// What a value becomes. Only the text of an Id takes memory.
pub fn converted(alloc: Global, how: Conversion, value: Value) -> Result<Calculated, NoMemory>
    ensures { IfOk result (λ c. c ≡ spec.converted how value) }
{
    match how {
        Conversion::ToDecimal => Ok(to_decimal(value)),
        Conversion::ToId => Ok(to_id(value)),
        Conversion::ToText => to_text(alloc, value),
        Conversion::Same | Conversion::ToLong | Conversion::ToRecord => {
            Ok(Calculated::Val(value))
        }
    }
}
