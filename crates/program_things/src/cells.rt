// Cells of records in instructions.

ghost use Rattle.std.specs.Prelude.{◌≡◌, ◌<◌, ◌+◌, ◌^◌, ◌∷◌, [], cond, slice_index_or, None, IfOk};
ghost use Rattle.std.specs.Option.{option_copied};
ghost use Rattle.apex_num.specs.declared.kind.LimitKind.TheVariants.{Alloc};
ghost use Rattle.apex_meaning.specs.Places.{setting_units, with_cell};
ghost use Rattle.apex_meaning.specs.Records as reads;
ghost use Rattle.request_states.specs.Values.{null};
ghost use Rattle.txn_heap.specs.Guards.{guard_of, takes_cell};
ghost use Rattle.value_operators.specs.Operators as operators;
ghost use Rattle.stack_code.specs.declared.code.Slot.TheVariants as S;
ghost use Rattle.stack_code.specs.Machine as spec;
ghost use Rattle.stack_code.specs.Things as things;
ghost use Rattle.program_things.specs.Cells as cells;
ghost use Rattle.program_things.specs.Steps.{IsStep};

use crate::builtins::cell_of;
use crate::charges::charge;
use crate::moved::Moved;
use crate::operands::{next_with, raise, take};
use crate::stores::chosen;
use crate::values::calc_next;
use apex_list::Items;
use apex_num::{Cell, LimitKind, NoMemory};
use apex_schema::Schema;
use platform_errors::Thrown;
use record_reads::cell_in;
use stack_code::Config;
use std::alloc::Global;
use txn_heap::{Change, Heap, Ref, Thing, Value};
use typed_program::{Number, StepKind};
use value_operators::{Calculated, stepped};

// ---- what records know

// What a store of a cell costs.
fn units_of(known: &Items<Option<Cell>>, field: usize) -> u64
    ensures { result ≡ setting_units (slice_index_or known.now field None) }
{
    if field < known.len() && known.as_slice()[field].is_some() {
        0
    } else {
        32
    }
}

fn setting_in(field: usize, on: Ref, thing: Option<&Thing>) -> Option<(Ref, u64)>
    ensures { result ≡ cells.setting_of field on (option_copied thing.entry) }
{
    match thing {
        Some(Thing::Record(known)) => Some((on, units_of(&known.cells, field))),
        _ => None,
    }
}

// The record that a value names, and what the store of a cell costs; none where it names no record.
fn setting(field: usize, on: &Value, heap: &Heap) -> Option<(Ref, u64)>
    ensures { result ≡ cells.setting_at field on.now heap.now }
{
    match on {
        Value::Plain(_) => None,
        Value::Object(thing) => setting_in(field, *thing, heap.get(*thing)),
    }
}

// ---- loads

/// Takes a record and puts its cell.
pub(crate) fn get_cell(
    alloc: Global,
    schema: &Schema,
    field: usize,
    goes_on: bool,
    c: &mut Config,
) -> Result<Moved, NoMemory>
    requires { c.old.top.pc + 1 < 2 ^ 64 }
    ensures { IfOk result (λ m. IsStep (things.get_next schema.now (S.Cell field goes_on) c.old) m c.new) }
{
    let on = take(&mut c.top.stack);
    let calculated = cell_in(alloc, schema, field, goes_on, &on, &c.world.heap)?;
    calc_next(alloc, calculated, c)
}

// Puts what is read behind the record, or throws.
fn cell_fetched(
    alloc: Global,
    on: Value,
    calculated: Calculated,
    c: &mut Config,
) -> Result<Moved, NoMemory>
    requires { c.old.top.pc + 1 < 2 ^ 64 }
    ensures { IfOk result (λ m. IsStep (spec.on_calc calculated c.old (λ v. spec.next c.old (v ∷ on ∷ c.old.top.stack))) m c.new) }
{
    match calculated {
        Calculated::Val(value) => {
            c.top.stack.push(on)?;
            next_with(value, c)
        }
        Calculated::Fails(thrown) => Ok(raise(alloc, thrown, c)),
    }
}

// Puts the cell of a record that was taken behind it.
fn fetch_on(
    alloc: Global,
    schema: &Schema,
    field: usize,
    goes_on: bool,
    on: Value,
    c: &mut Config,
) -> Result<Moved, NoMemory>
    requires { c.old.top.pc + 1 < 2 ^ 64 }
    ensures { IfOk result (λ m. IsStep (spec.on_calc (reads.cell_in schema.now field goes_on on c.old.world.heap) c.old (λ v. spec.next c.old (v ∷ on ∷ c.old.top.stack))) m c.new) }
{
    let calculated = cell_in(alloc, schema, field, goes_on, &on, &c.world.heap)?;
    cell_fetched(alloc, on, calculated, c)
}

// Puts the cell of a null where there is no operand.
fn fetch_null(
    alloc: Global,
    schema: &Schema,
    field: usize,
    goes_on: bool,
    c: &mut Config,
) -> Result<Moved, NoMemory>
    requires { c.old.top.pc + 1 < 2 ^ 64 }
    ensures { IfOk result (λ m. IsStep (spec.on_calc (reads.cell_in schema.now field goes_on null c.old.world.heap) c.old (λ v. spec.next c.old (v ∷ c.old.top.stack))) m c.new) }
{
    let nothing = Value::Plain(Cell::Null);
    let calculated = cell_in(alloc, schema, field, goes_on, &nothing, &c.world.heap)?;
    calc_next(alloc, calculated, c)
}

/// Puts the cell of a record behind the record.
pub(crate) fn fetch_cell(
    alloc: Global,
    schema: &Schema,
    field: usize,
    goes_on: bool,
    c: &mut Config,
) -> Result<Moved, NoMemory>
    requires { c.old.top.pc + 1 < 2 ^ 64 }
    ensures { IfOk result (λ m. IsStep (things.fetch_next schema.now (S.Cell field goes_on) c.old) m c.new) }
{
    match c.top.stack.pop() {
        Some(on) => fetch_on(alloc, schema, field, goes_on, on, c),
        None => fetch_null(alloc, schema, field, goes_on, c),
    }
}

// ---- stores

// Charges the store of a cell; then the record knows it, and another value is put.
fn know(
    setting: (Ref, u64),
    field: usize,
    value: Value,
    put: Value,
    c: &mut Config,
) -> Result<Moved, NoMemory>
    requires { c.old.top.pc + 1 < 2 ^ 64 }
    ensures { IfOk result (λ m. IsStep (spec.charged Alloc setting.1 c.old (λ d. spec.next (spec.with_heap d (with_cell field value setting.0.place d.world.heap)) (put ∷ c.old.top.stack))) m c.new) }
{
    match charge(LimitKind::Alloc, setting.1, c) {
        Some(moved) => Ok(moved),
        None => {
            c.world
                .heap
                .change(setting.0, Change::Know(field, cell_of(value)))?;
            next_with(put, c)
        }
    }
}

// Stores in a cell, where what guards the record lets it take the cell, and puts another value.
fn store_in(
    alloc: Global,
    setting: (Ref, u64),
    field: usize,
    value: Value,
    put: Value,
    c: &mut Config,
) -> Result<Moved, NoMemory>
    requires { c.old.top.pc + 1 < 2 ^ 64 }
    ensures { IfOk result (λ m. IsStep (things.if_takes_cell (takes_cell (guard_of c.old.world.heap setting.0.place) field) c.old (spec.charged Alloc setting.1 c.old (λ d. spec.next (spec.with_heap d (with_cell field value setting.0.place d.world.heap)) (put ∷ c.old.top.stack)))) m c.new) }
{
    let takes = c.world.heap.takes_cell(setting.0, field);
    if takes {
        know(setting, field, value, put, c)
    } else {
        Ok(raise(alloc, Thrown::ReadOnly, c))
    }
}

// Stores in a cell, and puts another value.
fn cell_stored(
    alloc: Global,
    field: usize,
    on: &Value,
    value: Value,
    put: Value,
    c: &mut Config,
) -> Result<Moved, NoMemory>
    requires { c.old.top.pc + 1 < 2 ^ 64 }
    ensures { IfOk result (λ m. IsStep (things.cell_stored field on.now value c.old (λ d. spec.next d (put ∷ c.old.top.stack))) m c.new) }
{
    match setting(field, on, &c.world.heap) {
        Some(setting) => store_in(alloc, setting, field, value, put, c),
        None => Ok(raise(alloc, Thrown::NullObject, c)),
    }
}

/// Takes a value and a record, stores the value in a cell and puts it.
pub(crate) fn set_cell(
    alloc: Global,
    field: usize,
    goes_on: bool,
    c: &mut Config,
) -> Result<Moved, NoMemory>
    requires { c.old.top.pc + 1 < 2 ^ 64 }
    ensures { IfOk result (λ m. IsStep (things.set_next (S.Cell field goes_on) c.old) m c.new) }
{
    let value = take(&mut c.top.stack);
    let on = take(&mut c.top.stack);
    cell_stored(alloc, field, &on, value.copy()?, value, c)
}

// ---- `++` and `--`

fn cell_changed(
    alloc: Global,
    kind: StepKind,
    number: Number,
    field: usize,
    on: &Value,
    old: Value,
    c: &mut Config,
) -> Result<Moved, NoMemory>
    requires { c.old.top.pc + 1 < 2 ^ 64 }
    ensures { IfOk result (λ m. IsStep (spec.on_calc (operators.stepped kind.up number old) c.old (λ new. things.cell_stored field on.now new c.old (λ e. spec.next e (cond kind.before new old ∷ c.old.top.stack)))) m c.new) }
{
    match stepped(kind.up, number, &old) {
        Calculated::Val(new) => {
            let value = new.copy()?;
            cell_stored(alloc, field, on, value, chosen(kind.before, new, old), c)
        }
        Calculated::Fails(thrown) => Ok(raise(alloc, thrown, c)),
    }
}

// Changes a cell that was read, or throws.
fn change_read(
    alloc: Global,
    kind: StepKind,
    number: Number,
    field: usize,
    on: &Value,
    calculated: Calculated,
    c: &mut Config,
) -> Result<Moved, NoMemory>
    requires { c.old.top.pc + 1 < 2 ^ 64 }
    ensures { IfOk result (λ m. IsStep (spec.on_calc calculated c.old (λ old. spec.on_calc (operators.stepped kind.up number old) c.old (λ new. things.cell_stored field on.now new c.old (λ e. spec.next e (cond kind.before new old ∷ c.old.top.stack))))) m c.new) }
{
    match calculated {
        Calculated::Val(old) => cell_changed(alloc, kind, number, field, on, old, c),
        Calculated::Fails(thrown) => Ok(raise(alloc, thrown, c)),
    }
}

/// Takes a record, changes a cell of it, and puts its new or its old value.
pub(crate) fn change_cell(
    alloc: Global,
    schema: &Schema,
    kind: StepKind,
    number: Number,
    field: usize,
    goes_on: bool,
    c: &mut Config,
) -> Result<Moved, NoMemory>
    requires { c.old.top.pc + 1 < 2 ^ 64 }
    ensures { IfOk result (λ m. IsStep (things.change_next schema.now kind number (S.Cell field goes_on) c.old) m c.new) }
{
    let on = take(&mut c.top.stack);
    let calculated = cell_in(alloc, schema, field, goes_on, &on, &c.world.heap)?;
    change_read(alloc, kind, number, field, &on, calculated, c)
}
