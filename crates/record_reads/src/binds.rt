// The values of a query's binds.

ghost use Rattle.std.specs.Prelude.{◌≡◌, ◌∷◌, map, IfOk};
ghost use Rattle.std.specs.Option.{option_copied};
ghost use Rattle.apex_meaning.specs.Builtins.{cell_in};
ghost use Rattle.apex_meaning.specs.Collections as items;
ghost use Rattle.apex_meaning.specs.Queries as spec;
ghost use Rattle.value_operators.specs.Operators.{converted as becomes};
ghost use Rattle.record_reads.specs.Bounds.{bound_of};
ghost use Rattle.txn_heap.specs.declared.thing.Value.{Value as AnyValue};

use apex_list::Items;
use apex_num::{Cell, NoMemory, copy_list};
use apex_rows::Bind;
use platform_errors::Thrown;
use query_records::BindKind;
use std::alloc::Global;
use txn_heap::{Heap, Thing, Value};
use typed_program::Conversion;
use value_operators::{Calculated, converted};

// A primitive; a thing is none.
fn cell_of(value: Value) -> Cell
    ensures { result ≡ cell_in value }
{
    match value {
        Value::Plain(cell) => cell,
        Value::Object(_) => Cell::Null,
    }
}

fn cell_bound(calculated: Calculated) -> Result<Cell, Thrown>
    ensures { bound_of result ≡ spec.cell_bound calculated }
{
    match calculated {
        Calculated::Val(value) => Ok(cell_of(value)),
        Calculated::Fails(thrown) => Err(thrown),
    }
}

fn cells_bound(
    alloc: Global,
    how: Conversion,
    values: Items<Value>,
) -> Result<Result<Items<Cell>, Thrown>, NoMemory>
    ensures { IfOk result (λ bound. bound_of bound ≡ spec.cells_bound how values) }
{
    let mut cells = Items::new(alloc);
    for value in values.into_vec() {
        match cell_bound(converted(alloc, how, value)?) {
            Ok(cell) => cells.push(cell)?,
            Err(thrown) => return Ok(Err(thrown)),
        }
    }
    Ok(Ok(cells))
}

fn as_values(alloc: Global, cells: &[Cell]) -> Result<Items<Value>, NoMemory>
    ensures { IfOk result (λ values. values ≡ map AnyValue.Plain cells.now) }
{
    let mut values = Items::new(alloc);
    for cell in cells {
        values.push(Value::Plain(cell.copy()?))?;
    }
    Ok(values)
}

fn items_of_thing(alloc: Global, thing: Option<&Thing>) -> Result<Option<Items<Value>>, NoMemory>
    ensures { IfOk result (λ found. found ≡ items.items_of_thing (option_copied thing.entry)) }
{
    match thing {
        Some(Thing::List(items)) => Ok(Some(copy_list(items)?)),
        Some(Thing::Set(keys)) => Ok(Some(as_values(alloc, keys.as_slice())?)),
        _ => Ok(None),
    }
}

// The items of a list or a set.
fn items_of(alloc: Global, value: &Value, heap: &Heap) -> Result<Option<Items<Value>>, NoMemory>
    ensures { IfOk result (λ found. found ≡ items.items_of value.now heap.now) }
{
    match value {
        Value::Plain(_) => Ok(None),
        Value::Object(thing) => items_of_thing(alloc, heap.get(*thing)),
    }
}

fn items_bound(
    alloc: Global,
    how: Conversion,
    found: Option<Items<Value>>,
) -> Result<Result<Bind, Thrown>, NoMemory>
    ensures { IfOk result (λ bound. bound_of bound ≡ spec.items_bound how found) }
{
    match found {
        None => Ok(Err(Thrown::NullObject)),
        Some(values) => match cells_bound(alloc, how, values)? {
            Ok(cells) => Ok(Ok(Bind::Many(cells))),
            Err(thrown) => Ok(Err(thrown)),
        },
    }
}

fn bound(
    alloc: Global,
    kind: BindKind,
    value: Value,
    heap: &Heap,
) -> Result<Result<Bind, Thrown>, NoMemory>
    ensures { IfOk result (λ bound. bound_of bound ≡ spec.bound kind value heap.now) }
{
    match kind {
        BindKind::One => Ok(Ok(Bind::One(cell_of(value)))),
        BindKind::Many(how) => {
            let found = items_of(alloc, &value, heap)?;
            items_bound(alloc, how, found)
        }
    }
}

/// The values of a query's binds, once all were evaluated, in the order of the text; or what is thrown in their place: a list or a
/// set that is null, or the first item that can't be converted. The time grows with the items.
pub fn all_bound(
    alloc: Global,
    kinds: &[BindKind],
    values: Vec<Value>,
    heap: &Heap,
) -> Result<Result<Items<Bind>, Thrown>, NoMemory>
    ensures { IfOk result (λ bound. bound_of bound ≡ spec.all_bound kinds.now values.items heap.now) }
{
    let mut binds = Items::new(alloc);
    let mut i = 0;
    for value in values {
        let Some(kind) = kinds.get(i) else {
            return Ok(Ok(binds));
        };
        match bound(alloc, *kind, value, heap)? {
            Ok(bind) => binds.push(bind)?,
            Err(thrown) => return Ok(Err(thrown)),
        }
        i += 1;
    }
    Ok(Ok(binds))
}
