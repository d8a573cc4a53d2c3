// Triggers that fire in a save, and what their firings come to.

ghost use Rattle.std.specs.Prelude.{◌≡◌, ◌-◌, IfOk, OnOk};
ghost use Rattle.apex_meaning.specs.Exceptions.{kind_of, message_told as told};
ghost use Rattle.apex_num.specs.declared.kind.LimitKind.TheVariants.{Alloc, Depth};
ghost use Rattle.limit_meter.specs.Charges.{count_of, with_count};
ghost use Rattle.apex_requests.specs.declared.request.Ticket.{Ticket as AnyTicket};
ghost use Rattle.save_meaning.specs.Sites.{Site};
ghost use Rattle.save_statements.specs.Moves.{came_back as went_on};
ghost use Rattle.save_statements.specs.declared.firing.Fired.TheVariants.{Threw};
ghost use Rattle.stack_code.specs.declared.image.Image.{Image as AnyImage};
ghost use Rattle.stack_code.specs.declared.state.After.TheVariants as A;
ghost use Rattle.stack_code.specs.declared.state.Mode.TheVariants as M;
ghost use Rattle.stack_code.specs.Machine as spec;
ghost use Rattle.stack_code.specs.Steps as steps;
ghost use Rattle.stack_code.specs.Things as things;
ghost use Rattle.trigger_things.specs.Things.{copy_units as units_of};
ghost use Rattle.program_things.specs.Firings.{Begins, BehindStop, ChargesBy, firing_charged, step_charged};
ghost use Rattle.program_things.specs.Steps.{Charges};

use crate::charges::charge;
use crate::kinds::name_of_kind;
use crate::moved::{Moved, SaveStop};
use crate::operands::set_mode;
use crate::raised::{kind_raised, message_told};
use activations::{Abrupt, Raised};
use apex_list::{Boxed, Items};
use apex_num::{LimitKind, NoMemory};
use apex_requests::Context;
use apex_schema::Schema;
use limit_meter::Meter;
use save_moves::came_back;
use save_statements::{Fired, Left, SaveRun};
use stack_code::{Config, Firing, Image, Mode};
use std::alloc::Global;
use trigger_things::{close_records, copy_units, lefts, make_things, own_count};

// ---- it begins

// The units of the rows that are copied.
fn charge_copies(schema: &Schema, context: &Context, c: &mut Config) -> Option<Moved>
    ensures { Charges Alloc (units_of schema.now context.now) c.old result c.new }
{
    charge(LimitKind::Alloc, copy_units(schema, context), c)
}

// A step, and the units.
fn charge_step(schema: &Schema, context: &Context, c: &mut Config) -> Option<Moved>
    ensures { ChargesBy (step_charged (units_of schema.now context.now)) c.old result c.new }
{
    match charge(LimitKind::Steps, 1, c) {
        Some(moved) => Some(moved),
        None => charge_copies(schema, context, c),
    }
}

// A firing is open, takes a step, and has copies of the rows.
fn charge_firing(schema: &Schema, context: &Context, c: &mut Config) -> Option<Moved>
    ensures { ChargesBy (firing_charged (units_of schema.now context.now)) c.old result c.new }
{
    match charge(LimitKind::Depth, 1, c) {
        Some(moved) => Some(moved),
        None => charge_step(schema, context, c),
    }
}

// All but the frame of a firing that is charged.
fn begin(
    alloc: Global,
    places: Items<usize>,
    run: SaveRun,
    number: usize,
    context: Context,
    c: &mut Config,
) -> Result<SaveStop, NoMemory>
    ensures does { (site : Site) (image : AnyImage) → IfOk result (λ stop. Begins (spec.Goes (steps.fired_on site image places run number context c.old)) image stop c.new) }
    ensures behind { IfOk result (λ stop. BehindStop c.old stop c.new) }
{
    let first = c.world.heap.len();
    let count = own_count(&context);
    let this = make_things(&mut c.world.heap, context)?;
    set_mode(c, Mode::Running);
    let firing = Firing {
        places,
        run,
        first,
        count,
    };
    Ok(SaveStop::Fires(number, this, Boxed::new(alloc, firing)?))
}

/// A trigger fires: it is charged, and its things are made; the frame is still to be entered. Or a limit was passed.
pub(crate) fn fire(
    alloc: Global,
    schema: &Schema,
    places: Items<usize>,
    run: SaveRun,
    number: usize,
    context: Context,
    c: &mut Config,
) -> Result<SaveStop, NoMemory>
    ensures does { (ticket : AnyTicket) (image : AnyImage) → IfOk result (λ stop. Begins (steps.fire_next (record { schema = schema.now; ticket = ticket }) image places run number context c.old) image stop c.new) }
    ensures behind { IfOk result (λ stop. BehindStop c.old stop c.new) }
{
    match charge_firing(schema, &context, c) {
        Some(moved) => Ok(SaveStop::Moved(moved)),
        None => begin(alloc, places, run, number, context, c),
    }
}

// ---- it is over

// What a trigger threw, and how it left its records.
fn threw(
    alloc: Global,
    image: &Image,
    raised: &Raised,
    left: Items<Left>,
    c: &Config,
) -> Result<Fired, NoMemory>
    ensures { IfOk result (λ fired. fired ≡ Threw (things.name_of_kind image.now (kind_of raised.now c.now.world.heap)) (told raised.now c.now.world.heap) left) }
{
    let class = name_of_kind(alloc, image, kind_raised(raised, &c.world.heap))?;
    let message = message_told(alloc, raised, &c.world.heap)?;
    Ok(Fired::Threw(class, message, left))
}

// What a firing came to, by how the code of its trigger was left.
fn fired_by(
    alloc: Global,
    image: &Image,
    firing: &Firing,
    why: &Abrupt,
    c: &Config,
) -> Result<Fired, NoMemory>
    ensures { (site : Site) → IfOk result (λ fired. fired ≡ steps.fired_by site image.now firing.now why.now c.now) }
{
    let left = lefts(&c.world.heap, firing.count, firing.first)?;
    match why {
        Abrupt::Throws(raised) => threw(alloc, image, raised, left, c),
        Abrupt::Returns(_) | Abrupt::Breaks | Abrupt::Continues => Ok(Fired::Ran(left)),
    }
}

// A firing that was open is over.
fn leave_depth(meter: &mut Meter)
    ensures { meter.new ≡ with_count meter.old Depth (count_of meter.old Depth - 1) }
{
    if meter.count(LimitKind::Depth) > 0 {
        meter.leave(LimitKind::Depth);
    }
}

// Its records may not be changed any more.
fn close(firing: &Firing, c: &mut Config)
    ensures { c.new ≡ spec.closed (A.Fired firing.now) c.old }
{
    close_records(&mut c.world.heap, firing.count, firing.first);
    leave_depth(&mut c.world.txn.meter);
}

/// The code of a trigger was left so: the firing is over, and the save that waited for it goes on with what it came to. The frame
/// that waited is still to be put on top.
pub fn hand_back(
    alloc: Global,
    image: &Image,
    firing: Boxed<Firing>,
    why: &Abrupt,
    c: &mut Config,
) -> Result<(), NoMemory>
    ensures { (site : Site) → OnOk result (c.new ≡ spec.in_mode (spec.closed (A.Fired firing) c.old) (M.Saving firing.places (went_on firing.run (steps.fired_by site image.now firing why.now c.old)))) }
{
    let firing = firing.into_value();
    let fired = fired_by(alloc, image, &firing, why, c)?;
    close(&firing, c);
    let mut run = firing.run;
    came_back(alloc, &mut run, fired)?;
    set_mode(c, Mode::Saving(firing.places, run));
    Ok(())
}
