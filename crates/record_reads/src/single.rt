// The only record of a list.

ghost use Rattle.std.specs.Prelude.{◌≡◌, IfOk};
ghost use Rattle.std.specs.Option.{option_copied};
ghost use Rattle.apex_meaning.specs.Records as spec;

use apex_num::NoMemory;
use platform_errors::Thrown;
use txn_heap::{Heap, Thing, Value};
use value_operators::Calculated;

fn only_of(thing: Option<&Thing>) -> Result<Calculated, NoMemory>
    ensures { IfOk result (λ c. c ≡ spec.only_of (option_copied thing.entry)) }
{
    match thing {
        Some(Thing::List(values)) => match values.as_slice() {
            [] => Ok(Calculated::Fails(Thrown::NoRows)),
            [value] => Ok(Calculated::Val(value.copy()?)),
            _ => Ok(Calculated::Fails(Thrown::ManyRows)),
        },
        _ => Ok(Calculated::Fails(Thrown::NoRows)),
    }
}

/// The only item of the list that a value names; where there are none or more, that is thrown.
pub fn only(on: &Value, heap: &Heap) -> Result<Calculated, NoMemory>
    ensures { IfOk result (λ c. c ≡ spec.only on.now heap.now) }
{
    match on {
        Value::Plain(_) => Ok(Calculated::Fails(Thrown::NoRows)),
        Value::Object(thing) => only_of(heap.get(*thing)),
    }
}
