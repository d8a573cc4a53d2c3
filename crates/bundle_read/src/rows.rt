// Rows, seed entries and what they are made of.

ghost use Rattle.std.specs.Prelude.{◌≡◌, None, IfOk};
ghost use Rattle.bundle_read.specs.Bundles as bundle;
ghost use Rattle.bundle_read.specs.Readings as spec;
ghost use Rattle.bundle_read.specs.Readings.{Tells};
ghost use Rattle.serde_json.specs.View.{view, items_view, members_view};

use crate::entries::{CellEntry, CellValue, RowEntry};
use crate::fault::{BundleFault, wrong};
use crate::lists::slice_in;
use crate::read::{at_item, within_key};
use apex_list::Items;
use apex_num::{NoMemory, Text};
use fault_words::FaultWord;
use serde_json::{Map, Value};
use std::alloc::Global;

// What is written for a cell.
fn cell_value(alloc: Global, value: &Value) -> Result<CellValue, NoMemory>
    ensures { IfOk result (λ c. c ≡ bundle.cell_value (view value.now)) }
{
    Ok(match value {
        Value::Null => CellValue::Null,
        Value::Bool(truth) => CellValue::Truth(*truth),
        Value::Number(number) => match number.as_i128() {
            Some(n) => CellValue::Whole(n),
            None => CellValue::Float,
        },
        Value::String(text) => CellValue::Text(Text::from_str(alloc, text.as_str())?),
        Value::Array(_) | Value::Object(_) => CellValue::Nested,
    })
}

// A name, which shares the bytes of the one before where that is the same.
fn shared(alloc: Global, name: &str, before: Option<&CellEntry>) -> Result<Text, NoMemory>
    ensures { IfOk result (λ t. t ≡ name.now) }
{
    match before {
        Some(cell) if cell.name.bytes() == name.as_bytes() => cell.name.copy(),
        _ => Text::from_str(alloc, name),
    }
}

// The cells of a row behind another one, whose names it mostly has too.
fn cells(
    alloc: Global,
    members: &Map<String, Value>,
    before: &[CellEntry],
) -> Result<Items<CellEntry>, NoMemory>
    ensures { IfOk result (λ c. c ≡ bundle.cells (members_view members.now.entries)) }
{
    let mut all = Items::new(alloc);
    for (name, value) in members.iter() {
        all.push(CellEntry {
            name: shared(alloc, name.as_str(), before.get(all.len()))?,
            value: cell_value(alloc, value)?,
        })?;
    }
    Ok(all)
}

fn row(alloc: Global, value: &Value, before: &[CellEntry]) -> Result<RowEntry, BundleFault>
    ensures { Tells result (bundle.row (view value.now)) }
{
    match value.as_object() {
        Some(members) => Ok(RowEntry {
            cells: cells(alloc, members, before)?,
        }),
        None => Err(wrong(alloc, FaultWord::WrongKind)),
    }
}

// The cells of the last row.
fn last_cells(rows: &[RowEntry]) -> &[CellEntry] {
    match rows.last() {
        Some(row) => row.cells.as_slice(),
        None => &[],
    }
}

fn each_row(alloc: Global, list: &[Value]) -> Result<Items<RowEntry>, BundleFault>
    ensures { Tells result (spec.each bundle.row 0 (items_view list.now)) }
{
    let mut all = Items::new(alloc);
    'rows: for i in 0..list.len() {
        match row(alloc, &list[i], last_cells(all.as_slice())) {
            Ok(one) => all.push(one)?,
            Err(fault) => return Err(at_item(alloc, i, fault)),
        }
    }
    Ok(all)
}

fn rows_of(alloc: Global, value: &Value) -> Result<Items<RowEntry>, BundleFault>
    ensures { Tells result (spec.list_of None bundle.row (view value.now)) }
{
    let list = slice_in(alloc, value)?;
    each_row(alloc, list)
}

fn found_rows(alloc: Global, value: Option<&Value>) -> Result<Items<RowEntry>, BundleFault>
    ensures { Tells result (spec.found (spec.list_of None bundle.row) (spec.option_view value.entry)) }
{
    match value {
        Some(value) => rows_of(alloc, value),
        None => Err(wrong(alloc, FaultWord::Missing)),
    }
}

/// The rows of a seed entry or a save.
pub fn needed_rows(alloc: Global, value: &Value) -> Result<Items<RowEntry>, BundleFault>
    ensures { Tells result (spec.needed (spec.list_of None bundle.row) bundle.rows_key (view value.now)) }
{
    within_key(alloc, "rows", found_rows(alloc, value.get("rows")))
}
