// What an image says of classes.

ghost use Rattle.std.specs.Prelude.{◌≡◌, [], slice_get, option_map};
ghost use Rattle.std.specs.Option.{option_copied};
ghost use Rattle.apex_meaning.specs.Classes.{mode_or};
ghost use Rattle.apex_meaning.specs.Preparing.{unprepared as unprepared_of};
ghost use Rattle.stack_code.specs.Calls as spec;
ghost use Rattle.stack_code.specs.declared.image.ClassCode.{ClassCode as AnyClass};
ghost use Rattle.stack_code.specs.Machine.{class_of as class_of_body};

use apex_list::Items;
use apex_schema::Mode as Access;
use stack_code::{BodyAt, ClassCode, Dispatch, Image, MethodAt, Starts};
use txn_heap::{Statics, Value};

/// The class that a body is of.
pub fn class_of(body: BodyAt) -> Option<usize>
    ensures { result ≡ class_of_body body }
{
    match body {
        BodyAt::Block(_) | BodyAt::Trigger(_) => None,
        BodyAt::Method(class, _)
        | BodyAt::Constructor(class, _)
        | BodyAt::Fields(class)
        | BodyAt::Statics(class) => Some(class),
    }
}

fn sharing_or(class: Option<&ClassCode>) -> Option<Access>
    ensures { result ≡ spec.sharing_or (option_copied class.entry) }
{
    match class {
        Some(class) => class.sharing,
        None => None,
    }
}

fn sharing_in(image: &Image, class: Option<usize>) -> Option<Access>
    ensures { result ≡ spec.sharing_in image.now class }
{
    match class {
        Some(class) => sharing_or(image.classes.get(class)),
        None => None,
    }
}

// The mode of the code of a class, or of none, where its caller's is this one.
fn class_mode(image: &Image, class: Option<usize>, caller: Access) -> Access
    ensures { result ≡ mode_or (spec.sharing_in image.now class) caller }
{
    match sharing_in(image, class) {
        Some(mode) => mode,
        None => caller,
    }
}

/// The mode of a body's code, where its caller's is this one.
pub fn mode_of(image: &Image, body: BodyAt, caller: Access) -> Access
    ensures { result ≡ spec.mode_in image.now body caller }
{
    match body {
        BodyAt::Trigger(_) => Access::Without,
        BodyAt::Block(_)
        | BodyAt::Method(_, _)
        | BodyAt::Constructor(_, _)
        | BodyAt::Fields(_)
        | BodyAt::Statics(_) => class_mode(image, class_of(body), caller),
    }
}

/// The firing that a body runs in on this instance, where its caller runs in this one.
pub fn firing_of(body: BodyAt, this: &Value, caller: usize) -> usize
    ensures { result ≡ spec.firing_in body this.now caller }
{
    match body {
        BodyAt::Trigger(_) => match this {
            Value::Object(thing) => thing.place,
            Value::Plain(_) => caller,
        },
        BodyAt::Block(_)
        | BodyAt::Method(_, _)
        | BodyAt::Constructor(_, _)
        | BodyAt::Fields(_)
        | BodyAt::Statics(_) => caller,
    }
}

fn statics_or(class: Option<&ClassCode>) -> usize
    ensures { result ≡ spec.statics_or (option_copied class.entry) }
{
    match class {
        Some(class) => class.statics,
        None => 0,
    }
}

/// How many statics a class has.
pub fn statics_of(image: &Image, class: usize) -> usize
    ensures { result ≡ spec.statics_or (slice_get image.now.classes class) }
{
    statics_or(image.classes.get(class))
}

fn units_or(class: Option<&ClassCode>) -> usize
    ensures { result ≡ spec.units_or (option_copied class.entry) }
{
    match class {
        Some(class) => class.units,
        None => 32,
    }
}

/// The allocation units of an instance of a class.
pub fn units_of(image: &Image, class: usize) -> usize
    ensures { result ≡ spec.units_or (slice_get image.now.classes class) }
{
    units_or(image.classes.get(class))
}

fn width_or(class: Option<&ClassCode>) -> usize
    ensures { result ≡ spec.width_or (option_copied class.entry) }
{
    match class {
        Some(class) => class.width,
        None => 0,
    }
}

/// How many places an instance of a class has for fields.
pub fn width_of(image: &Image, class: usize) -> usize
    ensures { result ≡ spec.width_or (slice_get image.now.classes class) }
{
    width_or(image.classes.get(class))
}

fn table_or(class: Option<&ClassCode>) -> &[Dispatch]
    ensures { result.now ≡ spec.table_or (option_copied class.entry) }
{
    match class {
        Some(class) => class.table.as_slice(),
        None => &[],
    }
}

// The row of a class.
fn row_of(rows: &[Dispatch], class: usize) -> Option<&Items<Option<MethodAt>>>
    ensures { option_copied result ≡ spec.row_of class rows.now }
{
    'rows: for row in rows {
        if row.class == class {
            return Some(&row.targets);
        }
    }
    None
}

fn place_in(row: Option<&Items<Option<MethodAt>>>, method: usize) -> Option<MethodAt>
    ensures { result ≡ spec.place_in method (option_copied row.entry) }
{
    match row {
        Some(targets) => match targets.get(method) {
            Some(target) => *target,
            None => None,
        },
        None => None,
    }
}

/// The method that runs on instances of a class, the first one, for this method of a class.
pub fn target(image: &Image, own: usize, class: usize, method: usize) -> Option<MethodAt>
    ensures { result ≡ spec.target image.now own class method }
{
    place_in(row_of(table_or(image.classes.get(own)), class), method)
}

fn chain_or(class: Option<&ClassCode>) -> &[usize]
    ensures { result.now ≡ spec.chain_or (option_copied class.entry) }
{
    match class {
        Some(class) => class.chain.as_slice(),
        None => &[],
    }
}

/// A class and its ancestors, the nearest one first.
pub fn chain_of(image: &Image, class: usize) -> &[usize]
    ensures { result.now ≡ spec.chain_or (slice_get image.now.classes class) }
{
    chain_or(image.classes.get(class))
}

/// Those of a chain that aren't prepared yet.
pub fn unprepared<'a>(statics: &Statics, chain: &'a [usize]) -> &'a [usize]
    ensures { result.now ≡ unprepared_of statics.now chain.now }
{
    let mut count = 0;
    'chain: while count < chain.len() {
        if statics.is_prepared(chain[count]) {
            break 'chain;
        }
        count += 1;
    }
    &chain[..count]
}

/// What constructing an instance of a class runs where it declares no constructor.
pub fn starts_of(image: &Image, class: usize) -> Option<&Starts>
    ensures { option_copied result ≡ option_map (λ (k : AnyClass). k.starts) (slice_get image.now.classes class) }
{
    match image.classes.get(class) {
        Some(class) => Some(&class.starts),
        None => None,
    }
}
