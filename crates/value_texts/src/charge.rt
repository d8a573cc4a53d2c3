// The charge of a text.

ghost use Rattle.std.specs.Prelude.{◌≡◌, ◌≤◌, ◌<◌, ◌+◌, ◌-◌, ◌^◌, length, IfOk, OnErr, MatchOption, MatchResult};
ghost use Rattle.apex_num.specs.declared.kind.LimitKind.TheVariants.{Alloc};
ghost use Rattle.limit_meter.specs.Charges.{limit_of, count_of, with_count};
ghost use Rattle.value_texts.specs.Texts as spec;

use crate::line::TextEnd;
use crate::walk::{Scene, walk};
use apex_num::{LimitKind, NoMemory, Text};
use apex_schema::Schema;
use limit_meter::{Limit, Meter, most_of};
use std::alloc::{AllocError, Global};
use txn_heap::{Heap, Value};

// How many bytes a text may have for the units that are left.
fn bytes_left(meter: &Meter) -> usize
    ensures enough { limit_of Alloc ≤ count_of meter.now Alloc + (16 + result) }
    ensures exact { result ≡ limit_of Alloc - count_of meter.now Alloc - 16 }
{
    let left = most_of(LimitKind::Alloc).saturating_sub(meter.count(LimitKind::Alloc));
    left.saturating_sub(16) as usize
}

fn charge(size: usize, meter: &mut Meter) -> Result<(), Limit>
    requires { size < 2 ^ 32 }
    ensures answer { MatchResult result
        (λ _. (count_of meter.old Alloc + (16 + size) ≤ limit_of Alloc) × (meter.new ≡ with_count meter.old Alloc (count_of meter.old Alloc + (16 + size))))
        (λ limit. (limit_of Alloc < count_of meter.old Alloc + (16 + size)) × (limit.kind ≡ Alloc) × (limit.number ≡ limit_of Alloc + 1)) }
    ensures err { OnErr result (meter.new ≡ meter.old) }
{
    meter.charge(LimitKind::Alloc, 16 + size as u64)
}

// A text, where it has no more than so many bytes.
fn text_up_to(
    alloc: Global,
    scene: &Scene<'_>,
    value: &Value,
    most: usize,
) -> Result<Option<Text>, NoMemory>
    requires small { most + 1 < limit_of Alloc }
    ensures { IfOk result (λ made. MatchOption made (most < length (spec.text_of scene.now.schema.now scene.now.classes.now scene.now.heap.now value.now)) (λ text. (text ≡ spec.text_of scene.now.schema.now scene.now.classes.now scene.now.heap.now value.now) × (length text ≤ most))) }
{
    match walk(alloc, scene, value, most) {
        Ok(line) => Ok(Some(Text::from_string(alloc, line)?)),
        Err(TextEnd::TooLong) => Ok(None),
        Err(TextEnd::NoMemory) => Err(AllocError),
    }
}

// Charges a text that is made.
fn charge_made(text: Text, meter: &mut Meter) -> Result<Text, Limit>
    requires { length text < 2 ^ 32 }
    ensures { MatchResult result
        (λ made. (made ≡ text) × (count_of meter.old Alloc + (16 + length text) ≤ limit_of Alloc) × (meter.new ≡ with_count meter.old Alloc (count_of meter.old Alloc + (16 + length text))))
        (λ limit. (limit_of Alloc < count_of meter.old Alloc + (16 + length text)) × (limit.kind ≡ Alloc) × (limit.number ≡ limit_of Alloc + 1) × (meter.new ≡ meter.old)) }
{
    match charge(text.bytes().len(), meter) {
        Ok(()) => Ok(text),
        Err(limit) => Err(limit),
    }
}

// The limit at a text that has more bytes than there are units for.
fn charge_long(most: usize, meter: &mut Meter) -> Limit
    requires long { limit_of Alloc < count_of meter.old Alloc + (16 + (most + 1)) }
    requires small { most + 1 < limit_of Alloc }
    ensures limit { (result.kind ≡ Alloc) × (result.number ≡ limit_of Alloc + 1) }
    ensures same { meter.new ≡ meter.old }
{
    match charge(most + 1, meter) {
        Err(limit) => limit,
        Ok(()) => unreachable!(),
    }
}

/// Charges the text of a value, 16 units and one for each byte, and makes it. Where the counter would pass its limit, the limit is
/// answered; then, and where memory is wanting, nothing is charged. The walk ends where there are no units left for a byte more.
pub fn charged_text(
    alloc: Global,
    schema: &Schema,
    classes: &[Text],
    heap: &Heap,
    value: &Value,
    meter: &mut Meter,
) -> Result<Result<Text, Limit>, NoMemory>
    ensures answer { IfOk result (λ made. MatchResult made
        (λ text. (text ≡ spec.text_of schema.now classes.now heap.now value.now) × (count_of meter.old Alloc + (16 + length text) ≤ limit_of Alloc) × (meter.new ≡ with_count meter.old Alloc (count_of meter.old Alloc + (16 + length text))))
        (λ limit. (limit_of Alloc < count_of meter.old Alloc + (16 + length (spec.text_of schema.now classes.now heap.now value.now))) × (limit.kind ≡ Alloc) × (limit.number ≡ limit_of Alloc + 1) × (meter.new ≡ meter.old))) }
    ensures err { OnErr result (meter.new ≡ meter.old) }
{
    let scene = Scene {
        schema,
        classes,
        heap,
    };
    let most = bytes_left(meter);
    match text_up_to(alloc, &scene, value, most)? {
        Some(text) => Ok(charge_made(text, meter)),
        None => Ok(Err(charge_long(most, meter))),
    }
}
