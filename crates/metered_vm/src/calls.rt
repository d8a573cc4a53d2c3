// Instructions that call and make instances.

ghost use Rattle.std.specs.Prelude.{◌≡◌, ◌<◌, ◌+◌, ◌^◌, ◌∷◌, ◌++◌, [], length, replicate, slice_get, IfOk, OnOk};
ghost use Rattle.std.specs.Option.{option_copied};
ghost use Rattle.request_states.specs.Values.{null};
ghost use Rattle.stack_code.specs.Calls as spec;
ghost use Rattle.stack_code.specs.Machine as machine;
ghost use Rattle.stack_code.specs.declared.state.After.TheVariants as A;
ghost use Rattle.stack_code.specs.declared.state.BodyAt.TheVariants as B;
ghost use Rattle.program_things.specs.Steps.{IsStep};
ghost use Rattle.metered_vm.specs.Callers.{here_of};
ghost use Rattle.metered_vm.specs.Calls.{behind_made, starts_given};

use crate::classes::{starts_of, target, units_of, width_of};
use crate::frames::{Caller, begin, call, caller_of};
use apex_list::Items;
use apex_num::{Cell, LimitKind, NoMemory};
use platform_errors::Thrown;
use program_things::{Moved, ThingKind, charge, kind_named, raise, take, take_values};
use stack_code::{After, BodyAt, Config, Image, MethodAt, Starts};
use std::alloc::Global;
use txn_heap::{Instance, Thing, Value};

// ---- methods

/// Takes so many arguments and runs the static method of a class.
pub fn act_call_static(
    alloc: Global,
    image: &Image,
    class: usize,
    method: usize,
    count: usize,
    c: &mut Config,
) -> Result<Moved, NoMemory>
    requires { c.old.top.pc + 1 < 2 ^ 64 }
    ensures { IfOk result (λ m. IsStep (machine.on_taken count c.old.top.stack (λ args stack. spec.call image.now (B.Method class method) args null A.Answered c.old.top.here (machine.move c.old (c.old.top.pc + 1) stack))) m c.new) }
{
    let args = Items::of(take_values(alloc, count, &mut c.top.stack)?);
    c.top.pc += 1;
    let caller = caller_of(c);
    let this = Value::Plain(Cell::Null);
    call(
        alloc,
        image,
        BodyAt::Method(class, method),
        args,
        this,
        After::Answered,
        caller,
        c,
    )
}

// A method runs on a value; a null one throws.
fn call_this(
    alloc: Global,
    image: &Image,
    class: usize,
    method: usize,
    args: Items<Value>,
    this: Value,
    c: &mut Config,
) -> Result<Moved, NoMemory>
    ensures { IfOk result (λ m. IsStep (spec.call_this image.now class method args this c.old) m c.new) }
{
    match this {
        Value::Plain(_) => Ok(raise(alloc, Thrown::NullObject, c)),
        Value::Object(thing) => {
            let caller = caller_of(c);
            let body = BodyAt::Method(class, method);
            call(
                alloc,
                image,
                body,
                args,
                Value::Object(thing),
                After::Answered,
                caller,
                c,
            )
        }
    }
}

/// Takes so many arguments and an instance, and runs this method on it.
pub fn act_call_this(
    alloc: Global,
    image: &Image,
    class: usize,
    method: usize,
    count: usize,
    c: &mut Config,
) -> Result<Moved, NoMemory>
    requires { c.old.top.pc + 1 < 2 ^ 64 }
    ensures { IfOk result (λ m. IsStep (spec.on_receiver count c.old (λ args this stack. spec.call_this image.now class method args this (machine.move c.old (c.old.top.pc + 1) stack))) m c.new) }
{
    let args = Items::of(take_values(alloc, count, &mut c.top.stack)?);
    let this = take(&mut c.top.stack);
    c.top.pc += 1;
    call_this(alloc, image, class, method, args, this, c)
}

// The method that runs for this one on the thing that a value names.
fn target_on(
    image: &Image,
    class: usize,
    method: usize,
    this: &Value,
    c: &Config,
) -> Option<MethodAt>
    ensures { (args : _) → spec.call_on image.now class method args this.now c.now ≡ spec.call_found image.now result args this.now c.now }
{
    match kind_named(this, &c.world.heap) {
        ThingKind::Declared(own) => target(image, own, class, method),
        _ => None,
    }
}

// A method that was found runs.
fn call_found(
    alloc: Global,
    image: &Image,
    found: Option<MethodAt>,
    args: Items<Value>,
    this: Value,
    c: &mut Config,
) -> Result<Moved, NoMemory>
    ensures { IfOk result (λ m. IsStep (spec.call_found image.now found args this c.old) m c.new) }
{
    match found {
        None => Ok(raise(alloc, Thrown::NullObject, c)),
        Some(at) => {
            let caller = caller_of(c);
            let body = BodyAt::Method(at.class, at.place);
            call(alloc, image, body, args, this, After::Answered, caller, c)
        }
    }
}

/// Takes so many arguments and an instance, and runs the method that the instance's class has for this one.
pub fn act_call(
    alloc: Global,
    image: &Image,
    class: usize,
    method: usize,
    count: usize,
    c: &mut Config,
) -> Result<Moved, NoMemory>
    requires { c.old.top.pc + 1 < 2 ^ 64 }
    ensures { IfOk result (λ m. IsStep (spec.on_receiver count c.old (λ args this stack. spec.call_on image.now class method args this (machine.move c.old (c.old.top.pc + 1) stack))) m c.new) }
{
    let args = Items::of(take_values(alloc, count, &mut c.top.stack)?);
    let this = take(&mut c.top.stack);
    c.top.pc += 1;
    let found = target_on(image, class, method, &this, c);
    call_found(alloc, image, found, args, this, c)
}

// ---- instances

fn nulls(alloc: Global, count: usize) -> Result<Items<Value>, NoMemory>
    ensures { IfOk result (λ values. values ≡ replicate count null) }
{
    let mut values = Items::new(alloc);
    'fill: for i in 0..count {
        values.push(Value::Plain(Cell::Null))?;
    }
    Ok(values)
}

// A new instance of a class, behind the other things. It is put, and the machine stands at the next place.
fn make_instance(
    alloc: Global,
    image: &Image,
    class: usize,
    c: &mut Config,
) -> Result<Value, NoMemory>
    requires { c.old.top.pc + 1 < 2 ^ 64 }
    ensures value { IfOk result (λ this. this ≡ Value.Object (record { place = length c.old.world.heap })) }
    ensures made { OnOk result (c.new ≡ behind_made image.now class c.old) }
{
    let fields = nulls(alloc, width_of(image, class))?;
    let instance = Instance {
        class,
        message: Cell::Null,
        fields,
    };
    let made = c.world.heap.make(Thing::Instance(instance))?;
    c.top.stack.push(Value::Object(made))?;
    c.top.pc += 1;
    Ok(Value::Object(made))
}

/// Takes so many arguments, puts a new instance of a class, and runs its declared constructor on it.
pub fn act_new(
    alloc: Global,
    image: &Image,
    class: usize,
    place: usize,
    count: usize,
    c: &mut Config,
) -> Result<Moved, NoMemory>
    requires { c.old.top.pc + 1 < 2 ^ 64 }
    ensures { IfOk result (λ m. IsStep (machine.on_taken count c.old.top.stack (λ args stack. spec.new_next image.now class place args stack c.old)) m c.new) }
{
    let args = Items::of(take_values(alloc, count, &mut c.top.stack)?);
    if let Some(over) = charge(LimitKind::Alloc, units_of(image, class) as u64, c) {
        return Ok(over);
    }
    let this = make_instance(alloc, image, class, c)?;
    let caller = caller_of(c);
    let body = BodyAt::Constructor(class, place);
    call(
        alloc,
        image,
        body,
        args,
        this,
        After::Constructed,
        caller,
        c,
    )
}

// What constructing an instance of a class runs where it declares no constructor.
fn begin_class(
    alloc: Global,
    image: &Image,
    class: usize,
    starts: Option<&Starts>,
    this: Value,
    c: &mut Config,
) -> Result<Moved, NoMemory>
    ensures { IfOk result (λ m. IsStep (spec.begin image.now (starts_given class (option_copied starts.entry)) this c.old) m c.new) }
{
    match starts {
        Some(starts) => {
            let fields = starts.fields.as_slice();
            begin(alloc, image, starts.declared, fields, this, c)
        }
        None => begin(alloc, image, None, &[class], this, c),
    }
}

/// Puts a new instance of a class that declares no constructor, and gives its fields their initial values.
pub fn act_new_plain(
    alloc: Global,
    image: &Image,
    class: usize,
    c: &mut Config,
) -> Result<Moved, NoMemory>
    requires { c.old.top.pc + 1 < 2 ^ 64 }
    ensures { IfOk result (λ m. IsStep (spec.new_plain_next image.now class c.old.top.stack c.old) m c.new) }
{
    if let Some(over) = charge(LimitKind::Alloc, units_of(image, class) as u64, c) {
        return Ok(over);
    }
    let this = make_instance(alloc, image, class, c)?;
    begin_class(alloc, image, class, starts_of(image, class), this, c)
}

/// Takes so many arguments and runs a declared constructor on the instance that the code runs on.
pub fn act_construct(
    alloc: Global,
    image: &Image,
    class: usize,
    place: usize,
    count: usize,
    c: &mut Config,
) -> Result<Moved, NoMemory>
    requires { c.old.top.pc + 1 < 2 ^ 64 }
    ensures { IfOk result (λ m. IsStep (machine.on_taken count c.old.top.stack (λ args stack. spec.call image.now (B.Constructor class place) args c.old.top.here.this A.Constructed c.old.top.here (machine.move c.old (c.old.top.pc + 1) stack))) m c.new) }
{
    let args = Items::of(take_values(alloc, count, &mut c.top.stack)?);
    c.top.pc += 1;
    let caller = caller_of(c);
    let this = c.top.here.this.copy()?;
    let body = BodyAt::Constructor(class, place);
    call(
        alloc,
        image,
        body,
        args,
        this,
        After::Constructed,
        caller,
        c,
    )
}

/// Runs, on the instance that the code runs on, what stands before the statements of a constructor.
pub fn act_begin(
    alloc: Global,
    image: &Image,
    starts: &Starts,
    c: &mut Config,
) -> Result<Moved, NoMemory>
    requires { c.old.top.pc + 1 < 2 ^ 64 }
    ensures { IfOk result (λ m. IsStep (spec.begin image.now starts.now c.old.top.here.this (machine.move c.old (c.old.top.pc + 1) c.old.top.stack)) m c.new) }
{
    c.top.pc += 1;
    let this = c.top.here.this.copy()?;
    begin(
        alloc,
        image,
        starts.declared,
        starts.fields.as_slice(),
        this,
        c,
    )
}
