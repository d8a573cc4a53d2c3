// Records that are looked at, where the rows that they may name are known.

ghost use Rattle.std.specs.Prelude.{◌≡◌, ◌<◌, IfOk, OnOk};
ghost use Rattle.record_ids.specs.Ids.{most};
ghost use Rattle.save_statements.specs.Checks as spec;
ghost use Rattle.save_statements.specs.Records.{judged, judged_by, changed_to};
ghost use Rattle.save_references.specs.Looked.{looked, referred};

use apex_list::{Boxed, Items};
use apex_num::NoMemory;
use apex_schema::Object;
use record_checks::{Named, bad_reference, invalid};
use save_statements::{Pending, Record};
use std::alloc::Global;
use std::mem;

// A record whose references were looked up just now.
fn seen_now(pending: Boxed<Pending>) -> Result<Boxed<Pending>, NoMemory>
    ensures { IfOk result (λ p. p ≡ spec.seen_now pending) }
{
    let alloc = pending.allocator();
    let seen = pending.get().row.copy()?;
    let Pending {
        row,
        old,
        seen: _,
        under,
    } = pending.into_value();
    Boxed::new(
        alloc,
        Pending {
            row,
            old,
            seen: Some(seen),
            under,
        },
    )
}

// A record that went on so far, with its references looked up.
fn refer_going(
    alloc: Global,
    users: usize,
    object: &Object,
    found: &[Named],
    pending: Boxed<Pending>,
) -> Result<Record, NoMemory>
    requires { users < most }
    ensures { IfOk result (λ r. r ≡ referred (judged_by pending (spec.bad_reference users object.now found.now pending))) }
{
    match bad_reference(alloc, users, object, found, pending.get())? {
        Some(error) => Ok(Record::Wrong(error)),
        None => Ok(Record::Going(seen_now(pending)?)),
    }
}

fn refer_one(
    alloc: Global,
    users: usize,
    object: &Object,
    found: &[Named],
    one: Record,
) -> Result<Record, NoMemory>
    requires { users < most }
    ensures { IfOk result (λ r. r ≡ referred (looked (spec.bad_reference users object.now found.now) one)) }
{
    match one {
        Record::Going(pending) => refer_going(alloc, users, object, found, pending),
        Record::Wrong(error) => Ok(Record::Wrong(error)),
    }
}

/// The records that go on have their references looked up: an owner who is none of so many users is wrong, and a reference that
/// names none of the rows which were found for it. Want of memory leaves only those that were looked at before it.
pub fn judge_references(
    alloc: Global,
    users: usize,
    object: &Object,
    found: &[Named],
    records: &mut Items<Record>,
) -> Result<(), NoMemory>
    requires { users < most }
    ensures { OnOk result (records.new ≡ changed_to spec.seen_now (judged (spec.bad_reference users object.now found.now) records.old)) }
{
    let before = mem::replace(records, Items::new(alloc));
    for record in before.into_vec() {
        records.push(refer_one(alloc, users, object, found, record)?)?;
    }
    Ok(())
}

// A record that went on so far, looked at as a whole.
fn validate_going(
    alloc: Global,
    users: usize,
    shares: bool,
    object: &Object,
    found: &[Named],
    pending: Boxed<Pending>,
) -> Result<Record, NoMemory>
    requires { users < most }
    ensures { IfOk result (λ r. r ≡ judged_by pending (spec.invalid users shares object.now found.now pending)) }
{
    match invalid(alloc, users, shares, object, found, pending.get())? {
        Some(error) => Ok(Record::Wrong(error)),
        None => Ok(Record::Going(pending)),
    }
}

fn validate_one(
    alloc: Global,
    users: usize,
    shares: bool,
    object: &Object,
    found: &[Named],
    one: Record,
) -> Result<Record, NoMemory>
    requires { users < most }
    ensures { IfOk result (λ r. r ≡ looked (spec.invalid users shares object.now found.now) one) }
{
    match one {
        Record::Going(pending) => validate_going(alloc, users, shares, object, found, pending),
        Record::Wrong(error) => Ok(Record::Wrong(error)),
    }
}

/// The records that go on are looked at as a whole; the object may be RowShare. Want of memory leaves only those that were looked
/// at before it.
pub fn judge_rows(
    alloc: Global,
    users: usize,
    shares: bool,
    object: &Object,
    found: &[Named],
    records: &mut Items<Record>,
) -> Result<(), NoMemory>
    requires { users < most }
    ensures { OnOk result (records.new ≡ judged (spec.invalid users shares object.now found.now) records.old) }
{
    let before = mem::replace(records, Items::new(alloc));
    for record in before.into_vec() {
        records.push(validate_one(alloc, users, shares, object, found, record)?)?;
    }
    Ok(())
}
