// Saves.

ghost use Rattle.std.specs.Prelude.{◌≡◌, ◌<◌, ◌+◌, ◌^◌, IfOk, OnOk};
ghost use Rattle.request_states.specs.Statements as statements;
ghost use Rattle.save_measures.specs.Paid.{IsPaid};
ghost use Rattle.save_stages.specs.Does.{IsSound, HasIds, site_of};
ghost use Rattle.save_moves.specs.Advances.{Advances};
ghost use Rattle.stack_code.specs.declared.state.Mode.TheVariants as M;
ghost use Rattle.stack_code.specs.Machine as spec;
ghost use Rattle.stack_code.specs.Steps as steps;
ghost use Rattle.program_things.specs.Firings.{BehindStop, SavesTo};
ghost use Rattle.program_things.specs.Steps.{IsStep};

use crate::ends::limited;
use crate::firings::fire;
use crate::moved::{Moved, SaveStop};
use crate::operands::{raise, set_mode, take};
use crate::records::{name_records, records_of, rows_in};
use activations::{Abrupt, Raised};
use apex_list::Items;
use apex_num::NoMemory;
use apex_requests::{Op, Ticket};
use apex_schema::Schema;
use platform_errors::Thrown;
use save_meaning::TxnState;
use save_moves::{Stopped, advance, first_run};
use save_statements::{Manner, RecordOutcome, SaveRun};
use stack_code::{Config, Image, Mode};
use std::alloc::Global;
use typed_program::Saved;

// On with the save of records, for code in its mode, or with what is thrown where there is a null among them.
fn save_next(
    alloc: Global,
    op: Op,
    records: Option<(usize, Items<usize>)>,
    c: &mut Config,
) -> Result<Moved, NoMemory>
    requires { c.old.top.pc + 1 < 2 ^ 64 }
    ensures { IfOk result (λ m. IsStep (steps.save_next op records c.old c.old.top.stack) m c.new) }
{
    c.top.pc += 1;
    match records {
        None => Ok(raise(alloc, Thrown::NullObject, c)),
        Some((object, places)) => {
            let rows = rows_in(alloc, &c.world.heap, places.as_slice())?;
            let by = Manner::ByCode(c.top.here.mode);
            let run = first_run(alloc, op, by, object, true, rows);
            set_mode(c, Mode::Saving(places, run));
            Ok(Moved::Went)
        }
    }
}

/// Takes a record or a list of records and saves them, all or none.
pub fn act_save(alloc: Global, op: Op, saved: Saved, c: &mut Config) -> Result<Moved, NoMemory>
    requires { c.old.top.pc + 1 < 2 ^ 64 }
    ensures { IfOk result (λ m. IsStep (spec.on_top c.old.top.stack (λ v stack. steps.save_next op (statements.records_of saved v c.old.world.heap) c.old stack)) m c.new) }
{
    let value = take(&mut c.top.stack);
    let records = records_of(alloc, saved, &value, &c.world.heap)?;
    save_next(alloc, op, records, c)
}

// The records that were saved have their Ids.
fn name_saved(places: &[usize], outcomes: &[RecordOutcome], c: &mut Config) -> Result<(), NoMemory>
    ensures { OnOk result (c.new ≡ spec.with_heap c.old (statements.name_records places.now outcomes.now c.old.world.heap)) }
{
    name_records(places, outcomes, &mut c.world.heap)
}

// On with a save to where it stops.
fn go_on(
    alloc: Global,
    image: &Image,
    schema: &Schema,
    ticket: Ticket,
    run: &mut SaveRun,
    txn: &mut TxnState,
) -> Result<Stopped, NoMemory>
    requires sound { IsSound schema.now }
    requires ids { HasIds ticket }
    requires paid { IsPaid txn.old }
    ensures { IfOk result (λ s. Advances (site_of schema.now ticket) (steps.triggers_in image.now) run.old txn.old s run.new txn.new) }
{
    advance(alloc, schema, ticket, image.firings.table(), run, txn)
}

/// Records are saved, up to the next question, the next trigger or the end of the save.
pub fn save(
    alloc: Global,
    image: &Image,
    schema: &Schema,
    ticket: Ticket,
    places: Items<usize>,
    run: SaveRun,
    c: &mut Config,
) -> Result<SaveStop, NoMemory>
    requires sound { IsSound schema.now }
    requires ids { HasIds ticket }
    requires paid { IsPaid c.old.world.txn }
    ensures step { IfOk result (λ stop. SavesTo schema.now ticket image.now (spec.in_mode c.old (M.Saving places run)) stop c.new) }
    ensures behind { IfOk result (λ stop. BehindStop c.old stop c.new) }
{
    let mut run = run;
    match go_on(alloc, image, schema, ticket, &mut run, &mut c.world.txn)? {
        Stopped::Asked(question) => {
            set_mode(c, Mode::Saving(places, run));
            Ok(SaveStop::Moved(Moved::Asked(question)))
        }
        Stopped::Fired(number, context) => fire(alloc, schema, places, run, number, context, c),
        Stopped::Ended(outcomes) => {
            name_saved(places.as_slice(), outcomes.as_slice(), c)?;
            set_mode(c, Mode::Running);
            Ok(SaveStop::Moved(Moved::Went))
        }
        Stopped::Threw(thrown) => {
            set_mode(c, Mode::Leaving(Abrupt::Throws(Raised::Platform(thrown))));
            Ok(SaveStop::Moved(Moved::Went))
        }
        Stopped::Halted(limit) => Ok(SaveStop::Moved(limited(limit, c))),
    }
}
