// What records lead to, the only record of a list, and queries.

ghost use Rattle.std.specs.Prelude.{◌≡◌, ◌<◌, ◌+◌, ◌^◌, ◌∷◌, pos, length, IfOk};
ghost use Rattle.apex_meaning.specs.Queries as meaning;
ghost use Rattle.apex_meaning.specs.Records as reads;
ghost use Rattle.query_records.specs.Records.{records_made};
ghost use Rattle.save_measures.specs.Paid.{IsPaid};
ghost use Rattle.save_stages.specs.Does.{IsSound, HasIds};
ghost use Rattle.stack_code.specs.declared.image.Image.{Image as AnyImage};
ghost use Rattle.stack_code.specs.declared.state.Mode.TheVariants as M;
ghost use Rattle.stack_code.specs.Machine as spec;
ghost use Rattle.stack_code.specs.Steps as steps;
ghost use Rattle.program_things.specs.Saves.{BehindQuery, IsStepTo};
ghost use Rattle.program_things.specs.Steps.{IsStep};

use crate::ends::limited;
use crate::moved::Moved;
use crate::operands::{next, raise, set_mode, take, take_values};
use crate::values::calc_next;
use activations::{Abrupt, Raised};
use apex_list::{Boxed, Items};
use apex_num::{Cell, NoMemory};
use apex_requests::Ticket;
use apex_rows::{Bind, Found};
use apex_schema::Schema;
use query_moves::QueryRun;
use query_records::{BindKind, FoundShape, Queried, make_records};
use record_reads::{all_bound, children_in, only, parent_in};
use soql_run::{Stopped, advance, first_run};
use stack_code::{Config, Mode};
use std::alloc::Global;
use txn_heap::Value;

// ---- records

/// Takes a record and puts what its relation leads to.
pub fn act_parent(
    alloc: Global,
    schema: &Schema,
    field: usize,
    goes_on: bool,
    c: &mut Config,
) -> Result<Moved, NoMemory>
    requires { c.old.top.pc + 1 < 2 ^ 64 }
    ensures { IfOk result (λ m. IsStep (spec.on_top c.old.top.stack (λ v stack. spec.on_calc (reads.parent_in schema.now field goes_on v c.old.world.heap) c.old (λ w. spec.next c.old (w ∷ stack)))) m c.new) }
{
    let on = take(&mut c.top.stack);
    let calculated = parent_in(alloc, schema, field, goes_on, &on, &c.world.heap)?;
    calc_next(alloc, calculated, c)
}

/// Takes a record and puts the list of the records under it.
pub fn act_children(
    alloc: Global,
    schema: &Schema,
    object: usize,
    field: usize,
    goes_on: bool,
    c: &mut Config,
) -> Result<Moved, NoMemory>
    requires { c.old.top.pc + 1 < 2 ^ 64 }
    ensures { IfOk result (λ m. IsStep (spec.on_top c.old.top.stack (λ v stack. spec.on_calc (reads.children_in schema.now object field goes_on v c.old.world.heap) c.old (λ w. spec.next c.old (w ∷ stack)))) m c.new) }
{
    let on = take(&mut c.top.stack);
    let calculated = children_in(alloc, schema, object, field, goes_on, &on, &c.world.heap)?;
    calc_next(alloc, calculated, c)
}

/// Takes a list and puts the only record of it.
pub fn act_only(alloc: Global, c: &mut Config) -> Result<Moved, NoMemory>
    requires { c.old.top.pc + 1 < 2 ^ 64 }
    ensures { IfOk result (λ m. IsStep (spec.on_top c.old.top.stack (λ v stack. spec.on_calc (reads.only v c.old.world.heap) c.old (λ w. spec.next c.old (w ∷ stack)))) m c.new) }
{
    let on = take(&mut c.top.stack);
    let calculated = only(&on, &c.world.heap)?;
    calc_next(alloc, calculated, c)
}

// ---- queries

// A query begins whose binds have these values.
fn begin(
    alloc: Global,
    queried: &Queried,
    binds: Items<Bind>,
    c: &mut Config,
) -> Result<Moved, NoMemory>
    requires { c.old.top.pc + 1 < 2 ^ 64 }
    ensures { IfOk result (λ m. IsStep (steps.query_next queried.now (meaning.Has binds) c.old c.old.top.stack) m c.new) }
{
    let query = Boxed::new(alloc, queried.query.get().copy()?)?;
    let shape = Boxed::new(alloc, queried.shape.copy()?)?;
    let run = first_run(query, binds, c.top.here.mode);
    set_mode(c, Mode::Querying(shape, Boxed::new(alloc, run)?));
    Ok(next(c))
}

/// Takes a value for each bind, and begins a query.
pub fn act_query(
    alloc: Global,
    queried: &Queried,
    kinds: &[BindKind],
    c: &mut Config,
) -> Result<Moved, NoMemory>
    requires { c.old.top.pc + 1 < 2 ^ 64 }
    ensures { IfOk result (λ m. IsStep (spec.on_taken (length kinds.now) c.old.top.stack (λ vs stack. steps.query_next queried.now (meaning.all_bound kinds.now vs c.old.world.heap) c.old stack)) m c.new) }
{
    let values = take_values(alloc, kinds.len(), &mut c.top.stack)?;
    match all_bound(alloc, kinds, values, &c.world.heap)? {
        Ok(binds) => begin(alloc, queried, binds, c),
        Err(thrown) => Ok(raise(alloc, thrown, c)),
    }
}

// A COUNT() puts its number.
fn counted(n: u32, c: &mut Config) -> Result<(), NoMemory>
    ensures { IfOk result (λ _. c.new ≡ spec.in_mode (spec.move c.old c.old.top.pc (Value.Plain (Cell.Whole (pos n)) ∷ c.old.top.stack)) M.Running) }
{
    c.top.stack.push(Value::Plain(Cell::Whole(n as i64)))?;
    set_mode(c, Mode::Running);
    Ok(())
}

// Any other query puts the list of its records.
fn listed(
    alloc: Global,
    schema: &Schema,
    shape: &FoundShape,
    found: &[Found],
    c: &mut Config,
) -> Result<(), NoMemory>
    ensures { IfOk result (λ _. c.new ≡ spec.in_mode (steps.with_made (records_made schema.now shape.now found.now c.old.world.heap) c.old) M.Running) }
{
    let list = make_records(alloc, schema, shape, found, &mut c.world.heap)?;
    c.top.stack.push(list)?;
    set_mode(c, Mode::Running);
    Ok(())
}

/// A query goes on, up to its next question or its end.
pub fn query(
    alloc: Global,
    schema: &Schema,
    ticket: Ticket,
    shape: Boxed<FoundShape>,
    run: Boxed<QueryRun>,
    c: &mut Config,
) -> Result<Moved, NoMemory>
    requires sound { IsSound schema.now }
    requires ids { HasIds ticket }
    requires paid { IsPaid c.old.world.txn }
    ensures step { (image : AnyImage) → IfOk result (λ m. IsStepTo schema.now ticket image (spec.in_mode c.old (M.Querying shape run)) m c.new) }
    ensures behind { IfOk result (λ m. BehindQuery m c.new) }
{
    let mut run = run.into_value();
    match advance(alloc, schema, ticket, &mut run, &mut c.world.txn)? {
        Stopped::Asked(question) => {
            set_mode(c, Mode::Querying(shape, Boxed::new(alloc, run)?));
            Ok(Moved::Asked(question))
        }
        Stopped::Counted(n) => {
            counted(n, c)?;
            Ok(Moved::Went)
        }
        Stopped::Found(found) => {
            listed(alloc, schema, shape.get(), found.as_slice(), c)?;
            Ok(Moved::Went)
        }
        Stopped::Threw(thrown) => {
            set_mode(c, Mode::Leaving(Abrupt::Throws(Raised::Platform(thrown))));
            Ok(Moved::Went)
        }
        Stopped::Halted(limit) => Ok(limited(limit, c)),
    }
}
