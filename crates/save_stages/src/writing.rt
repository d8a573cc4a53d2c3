// The write of one record.

ghost use Rattle.std.specs.Prelude.{◌≡◌, ◌≤◌, ◌*◌, ◌++◌, ◌∷◌, [], IfOk, OnOk};
ghost use Rattle.apex_num.specs.declared.kind.LimitKind.TheVariants.{Alloc};
ghost use Rattle.limit_meter.specs.Charges.{count_of};
ghost use Rattle.record_ids.specs.Ids.{IsPrefix};
ghost use Rattle.save_statements.specs.declared.pending.Record.TheVariants.{Going};
ghost use Rattle.save_statements.specs.declared.run.Stage.TheVariants as S;
ghost use Rattle.save_statements.specs.Moves as spec;
ghost use Rattle.save_stages.specs.Does.{Makes, Does, Triggers, no_triggers, IsSound, HasIds, site_of};
ghost use Rattle.save_stages.specs.Writes.{inserted, updated, under_id};

use crate::charges::charge_items;
use crate::entering::behind;
use crate::moved::Moved;
use crate::starts::without_object;
use crate::written::{next_id, put_row};
use apex_list::{Boxed, Items, Stack};
use apex_num::{Id, NoMemory};
use apex_requests::Ticket;
use apex_schema::{Object, Schema};
use save_meaning::TxnState;
use save_statements::{Act, Pending, Phase, Record, SaveRun, Stage};
use std::alloc::Global;

// A record is behind its write.
fn go_on(
    run: &mut SaveRun,
    before: Items<Record>,
    one: Record,
    left: Stack<Record>,
) -> Result<(), NoMemory>
    ensures { OnOk result (run.new ≡ spec.at run.old (S.Write (before ++ one ∷ []) left)) }
{
    let mut before = before;
    before.push(one)?;
    run.stage = Stage::Write(before, left);
    Ok(())
}

// A record's row is written under an Id.
fn put(
    alloc: Global,
    id: Id,
    pending: Boxed<Pending>,
    txn: &mut TxnState,
) -> Result<Boxed<Pending>, NoMemory>
    ensures { IfOk result (λ p. (p ≡ under_id id pending) × (txn.new ≡ spec.put id pending.row txn.old)) }
{
    let Pending {
        row,
        old,
        seen,
        under,
    } = pending.into_value();
    let row = put_row(alloc, id, row, txn)?;
    Boxed::new(
        alloc,
        Pending {
            row,
            old,
            seen,
            under,
        },
    )
}

// A new row is written, under the next Id.
fn insert(
    alloc: Global,
    ticket: Ticket,
    object: &Object,
    run: &mut SaveRun,
    before: Items<Record>,
    pending: Boxed<Pending>,
    left: Stack<Record>,
    txn: &mut TxnState,
) -> Result<Moved, NoMemory>
    requires prefix { IsPrefix object.now.prefix }
    requires ids { HasIds ticket }
    requires paid { 64 * txn.old.minted ≤ count_of txn.old.meter Alloc }
    ensures { IfOk result (λ m. Makes (inserted ticket object.now pending before left) (spec.at run.old (S.Write before (Going pending ∷ left))) txn.old m run.new txn.new) }
{
    match charge_items(&mut txn.meter, 64, 32, object.fields.len()) {
        Err(limit) => Ok(Moved::Halted(limit)),
        Ok(()) => {
            let id = next_id(object, ticket, txn.minted + 1);
            txn.minted += 1;
            let pending = put(alloc, id, pending, txn)?;
            go_on(run, before, Record::Going(pending), left)?;
            Ok(Moved::Went)
        }
    }
}

// A row that is there is written.
fn update(
    alloc: Global,
    object: &Object,
    run: &mut SaveRun,
    before: Items<Record>,
    pending: Boxed<Pending>,
    left: Stack<Record>,
    txn: &mut TxnState,
) -> Result<Moved, NoMemory>
    ensures { IfOk result (λ m. Makes (updated object.now pending before left) (spec.at run.old (S.Write before (Going pending ∷ left))) txn.old m run.new txn.new) }
{
    match charge_items(&mut txn.meter, 64, 32, object.fields.len()) {
        Err(limit) => Ok(Moved::Halted(limit)),
        Ok(()) => {
            let id = pending.get().row.id;
            let pending = put(alloc, id, pending, txn)?;
            go_on(run, before, Record::Going(pending), left)?;
            Ok(Moved::Went)
        }
    }
}

// Rows go.
fn remove_all(ids: &[Id], txn: &mut TxnState) -> Result<(), NoMemory>
    ensures { OnOk result (txn.new ≡ spec.without ids.now txn.old) }
{
    for id in ids {
        txn.overlay.remove(*id)?;
    }
    Ok(())
}

// A row goes, and all that goes with it.
fn delete(
    run: &mut SaveRun,
    before: Items<Record>,
    pending: Boxed<Pending>,
    left: Stack<Record>,
    txn: &mut TxnState,
) -> Result<Moved, NoMemory>
    ensures { IfOk result (λ m. Makes (λ r w. spec.is_written pending before left r (spec.without pending.under w)) (spec.at run.old (S.Write before (Going pending ∷ left))) txn.old m run.new txn.new) }
{
    remove_all(pending.get().under.as_slice(), txn)?;
    go_on(run, before, Record::Going(pending), left)?;
    Ok(Moved::Went)
}

// A record is written.
fn write_one(
    alloc: Global,
    schema: &Schema,
    ticket: Ticket,
    object: &Object,
    run: &mut SaveRun,
    before: Items<Record>,
    pending: Boxed<Pending>,
    left: Stack<Record>,
    txn: &mut TxnState,
) -> Result<Moved, NoMemory>
    requires prefix { IsPrefix object.now.prefix }
    requires ids { HasIds ticket }
    requires paid { 64 * txn.old.minted ≤ count_of txn.old.meter Alloc }
    ensures { IfOk result (λ m. Makes (spec.write_one (site_of schema.now ticket) no_triggers run.old.act pending before left object.now) (spec.at run.old (S.Write before (Going pending ∷ left))) txn.old m run.new txn.new) }
{
    match run.act {
        Act::Inserting => insert(alloc, ticket, object, run, before, pending, left, txn),
        Act::Updating => update(alloc, object, run, before, pending, left, txn),
        Act::Deleting => delete(run, before, pending, left, txn),
    }
}

// The next record is written, or the phase is over.
fn write_next(
    alloc: Global,
    schema: &Schema,
    ticket: Ticket,
    object: &Object,
    run: &mut SaveRun,
    before: Items<Record>,
    left: Stack<Record>,
    txn: &mut TxnState,
) -> Result<Moved, NoMemory>
    requires prefix { IsPrefix object.now.prefix }
    requires ids { HasIds ticket }
    requires paid { 64 * txn.old.minted ≤ count_of txn.old.meter Alloc }
    ensures { IfOk result (λ m. Makes (spec.write (site_of schema.now ticket) no_triggers before left object.now) (spec.at run.old (S.Write before left)) txn.old m run.new txn.new) }
{
    let mut left = left;
    match left.pop() {
        None => {
            run.stage = behind(Phase::Write, before);
            Ok(Moved::Went)
        }
        Some(Record::Wrong(error)) => {
            go_on(run, before, Record::Wrong(error), left)?;
            Ok(Moved::Went)
        }
        Some(Record::Going(pending)) => write_one(
            alloc, schema, ticket, object, run, before, pending, left, txn,
        ),
    }
}

/// The first of the records that are left is written: a row under its Id, which a new one gets here, and a row that goes with all
/// that goes with it. No trigger has a part in it.
pub fn write(
    alloc: Global,
    schema: &Schema,
    ticket: Ticket,
    run: &mut SaveRun,
    before: Items<Record>,
    left: Stack<Record>,
    txn: &mut TxnState,
) -> Result<Moved, NoMemory>
    requires sound { IsSound schema.now }
    requires ids { HasIds ticket }
    requires paid { 64 * txn.old.minted ≤ count_of txn.old.meter Alloc }
    ensures { IfOk result (λ m. (triggers : Triggers) → Does schema.now ticket triggers (spec.at run.old (S.Write before left)) txn.old m run.new txn.new) }
{
    match schema.objects.get(run.object) {
        None => without_object(alloc, run),
        Some(object) => {
            let moved = write_next(alloc, schema, ticket, object, run, before, left, txn)?;
            Ok(moved)
        }
    }
}
