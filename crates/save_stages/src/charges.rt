// Charges that grow with a number of items.

ghost use Rattle.std.specs.Prelude.{◌≡◌, ◌≤◌, ◌<◌, ◌+◌, ◌*◌, MatchResult, OnErr};
ghost use Rattle.apex_num.specs.declared.kind.LimitKind.TheVariants.{Alloc};
ghost use Rattle.limit_meter.specs.Charges.{limit_of, count_of, with_count};

use apex_num::LimitKind;
use limit_meter::{Limit, Meter};

/// Charges a number of units of memory, and so many for each of some items. Where the counter would pass its limit, the error
/// names it and nothing changes.
pub fn charge_items(meter: &mut Meter, base: u64, each: u64, items: usize) -> Result<(), Limit>
    requires { base ≤ 1000 }
    ensures answer { MatchResult result
        (λ _. (count_of meter.old Alloc + (base + each * items) ≤ limit_of Alloc) × (meter.new ≡ with_count meter.old Alloc (count_of meter.old Alloc + (base + each * items))))
        (λ limit. (limit_of Alloc < count_of meter.old Alloc + (base + each * items)) × (limit.kind ≡ Alloc) × (limit.number ≡ limit_of Alloc + 1)) }
    ensures err { OnErr result (meter.new ≡ meter.old) }
{
    meter.charge(
        LimitKind::Alloc,
        each.saturating_mul(items as u64).saturating_add(base),
    )
}
