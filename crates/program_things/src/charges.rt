// What is charged.

ghost use Rattle.std.specs.Prelude.{◌≡◌, ◌+◌, ◌*◌};
ghost use Rattle.apex_num.specs.declared.kind.LimitKind.TheVariants.{Alloc};
ghost use Rattle.program_things.specs.Steps.{Charges, ChargesSize};

use crate::ends::limited;
use crate::moved::Moved;
use apex_num::LimitKind;
use stack_code::Config;

/// Charges n of a kind; or the request is over.
pub fn charge(kind: LimitKind, n: u64, c: &mut Config) -> Option<Moved>
    ensures { Charges kind n c.old result c.new }
{
    match c.world.txn.meter.charge(kind, n) {
        Ok(()) => None,
        Err(limit) => Some(limited(limit, c)),
    }
}

/// A text of so many bytes is charged before it is made, where one is made.
pub(crate) fn charge_sized(size: Option<u64>, c: &mut Config) -> Option<Moved>
    ensures { ChargesSize size c.old result c.new }
{
    match size {
        None => None,
        Some(size) => charge(LimitKind::Alloc, size.saturating_add(16), c),
    }
}

/// A new record that knows so many fields is charged before it is made.
pub(crate) fn charge_record(fields: usize, c: &mut Config) -> Option<Moved>
    ensures { Charges Alloc (32 + 32 * fields) c.old result c.new }
{
    let units = (fields as u64).saturating_mul(32).saturating_add(32);
    charge(LimitKind::Alloc, units, c)
}
