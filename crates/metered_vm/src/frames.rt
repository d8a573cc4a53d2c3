// Frames that begin.

ghost use Rattle.std.specs.Prelude.{◌≡◌, ◌<◌, ◌+◌, ◌^◌, [], reverse, slice_get, IfOk, OnOk};
ghost use Rattle.request_states.specs.Values.{null};
ghost use Rattle.stack_code.specs.Calls as spec;
ghost use Rattle.stack_code.specs.Machine as machine;
ghost use Rattle.program_things.specs.Steps.{IsStep};
ghost use Rattle.metered_vm.specs.Callers.{Enters, here_of};

use crate::classes::{chain_of, firing_of, mode_of, statics_of, unprepared};
use activations::Here;
use apex_list::{Items, Stack};
use apex_num::{Cell, LimitKind, NoMemory};
use apex_schema::Mode as Access;
use program_things::{Moved, SaveStop, charge};
use stack_code::{After, BodyAt, Config, Frame, Image, MethodAt, Starts, Waiting};
use std::alloc::Global;
use std::mem::replace;
use txn_heap::{Statics, Value};

/// What an activation has of the one that calls it.
#[derive(Clone, Copy, PartialEq, Eq, Drop)]
pub struct Caller {
    pub mode: Access,
    pub firing: usize,
}

/// The frame on top calls.
pub fn caller_of(c: &Config) -> Caller
    ensures { (result.mode ≡ c.now.top.here.mode) × (result.firing ≡ c.now.top.here.firing) }
{
    Caller {
        mode: c.top.here.mode,
        firing: c.top.here.firing,
    }
}

/// A frame on top of the others.
pub fn enter(
    alloc: Global,
    image: &Image,
    body: BodyAt,
    args: Items<Value>,
    this: Value,
    after: After,
    caller: Caller,
    c: &mut Config,
) -> Result<(), NoMemory>
    ensures { OnOk result (c.new ≡ spec.enter image.now body args this after (here_of caller) c.old) }
{
    let mode = mode_of(image, body, caller.mode);
    let firing = firing_of(body, &this, caller.firing);
    let frame = Frame {
        body,
        pc: 0,
        here: Here {
            locals: args,
            this,
            mode,
            firing,
        },
        stack: Stack::new(alloc),
        handlers: Stack::new(alloc),
    };
    let frame = replace(&mut c.top, frame);
    c.below.push(Waiting { frame, after })?;
    Ok(())
}

/// A declared method or constructor is called.
pub fn call(
    alloc: Global,
    image: &Image,
    body: BodyAt,
    args: Items<Value>,
    this: Value,
    after: After,
    caller: Caller,
    c: &mut Config,
) -> Result<Moved, NoMemory>
    ensures { IfOk result (λ m. IsStep (spec.call image.now body args this after (here_of caller) c.old) m c.new) }
{
    if let Some(over) = charge(LimitKind::Calls, 1, c) {
        return Ok(over);
    }
    if let Some(over) = charge(LimitKind::Steps, 1, c) {
        return Ok(over);
    }
    enter(alloc, image, body, args, this, after, caller, c)?;
    Ok(Moved::Went)
}

// The initial values of the fields of these classes, the first one of which runs first.
fn enter_fields(
    alloc: Global,
    image: &Image,
    classes: &[usize],
    this: &Value,
    caller: Caller,
    c: &mut Config,
) -> Result<(), NoMemory>
    ensures { OnOk result (c.new ≡ spec.enter_fields image.now (reverse classes.now) this.now (here_of caller) c.old) }
{
    let mut left = classes.len();
    'fields: while left > 0 {
        left -= 1;
        let body = BodyAt::Fields(classes[left]);
        let this = this.copy()?;
        enter(
            alloc,
            image,
            body,
            Items::new(alloc),
            this,
            After::Begun,
            caller,
            c,
        )?;
    }
    Ok(())
}

// The initial values of the statics of these classes, the last one of which runs first.
fn enter_statics(
    alloc: Global,
    image: &Image,
    classes: &[usize],
    caller: Caller,
    c: &mut Config,
) -> Result<(), NoMemory>
    ensures { OnOk result (c.new ≡ spec.enter_statics image.now classes.now (here_of caller) c.old) }
{
    'statics: for class in classes {
        let body = BodyAt::Statics(*class);
        let this = Value::Plain(Cell::Null);
        enter(
            alloc,
            image,
            body,
            Items::new(alloc),
            this,
            After::Begun,
            caller,
            c,
        )?;
    }
    Ok(())
}

// A declared constructor is called, where there is one.
fn declared_first(
    alloc: Global,
    image: &Image,
    declared: Option<MethodAt>,
    this: Value,
    caller: Caller,
    c: &mut Config,
) -> Result<Moved, NoMemory>
    ensures { IfOk result (λ m. IsStep (spec.declared_first image.now declared this (here_of caller) c.old) m c.new) }
{
    match declared {
        None => Ok(Moved::Went),
        Some(at) => {
            let body = BodyAt::Constructor(at.class, at.place);
            let args = Items::new(alloc);
            call(
                alloc,
                image,
                body,
                args,
                this,
                After::Constructed,
                caller,
                c,
            )
        }
    }
}

/// What runs where a constructor isn't written.
pub fn begin(
    alloc: Global,
    image: &Image,
    declared: Option<MethodAt>,
    fields: &[usize],
    this: Value,
    c: &mut Config,
) -> Result<Moved, NoMemory>
    ensures { IfOk result (λ m. IsStep (spec.begin image.now (record { declared = declared; fields = fields.now }) this c.old) m c.new) }
{
    let caller = caller_of(c);
    enter_fields(alloc, image, fields, &this, caller, c)?;
    declared_first(alloc, image, declared, this, caller, c)
}

// These classes count as prepared, the last one first.
fn mark(image: &Image, classes: &[usize], statics: &mut Statics) -> Result<(), NoMemory>
    ensures { OnOk result (statics.new ≡ spec.marked image.now (reverse classes.now) statics.old) }
{
    let mut left = classes.len();
    'classes: while left > 0 {
        left -= 1;
        let class = classes[left];
        statics.prepare(class, statics_of(image, class))?;
    }
    Ok(())
}

// These classes, the nearest one first, count as prepared, and their statics have their initial values.
fn prepare_these(
    alloc: Global,
    image: &Image,
    classes: &[usize],
    c: &mut Config,
) -> Result<(), NoMemory>
    ensures { OnOk result (c.new ≡ spec.prepare_these image.now classes.now c.old) }
{
    let caller = caller_of(c);
    mark(image, classes, &mut c.world.statics)?;
    enter_statics(alloc, image, classes, caller, c)
}

/// Prepares a class, unless it is prepared.
pub fn act_prepare(
    alloc: Global,
    image: &Image,
    class: usize,
    c: &mut Config,
) -> Result<Moved, NoMemory>
    requires { c.old.top.pc + 1 < 2 ^ 64 }
    ensures { IfOk result (λ m. IsStep (spec.prepare_next image.now class c.old) m c.new) }
{
    let classes = unprepared(&c.world.statics, chain_of(image, class));
    c.top.pc += 1;
    prepare_these(alloc, image, classes, c)?;
    Ok(Moved::Went)
}

/// Where a save stopped at a trigger that fires, its frame is entered.
pub fn enter_fired(
    alloc: Global,
    image: &Image,
    stop: SaveStop,
    c: &mut Config,
) -> Result<Moved, NoMemory>
    ensures { IfOk result (λ m. Enters image.now stop c.old m c.new) }
{
    match stop {
        SaveStop::Moved(moved) => Ok(moved),
        SaveStop::Fires(number, this, firing) => {
            let caller = caller_of(c);
            let body = BodyAt::Trigger(number);
            let this = Value::Object(this);
            let after = After::Fired(firing);
            enter(
                alloc,
                image,
                body,
                Items::new(alloc),
                this,
                after,
                caller,
                c,
            )?;
            Ok(Moved::Went)
        }
    }
}
