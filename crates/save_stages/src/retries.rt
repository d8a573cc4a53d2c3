// How an attempt in part ends.

ghost use Rattle.std.specs.Prelude.{◌≡◌, ◌<◌, ◌-◌, OnOk};
ghost use Rattle.save_statements.specs.declared.run.Stage.TheVariants as S;
ghost use Rattle.save_statements.specs.Moves as spec;
ghost use Rattle.save_statements.specs.Moves.{Goes};
ghost use Rattle.save_statements.specs.Statements as lists;

use apex_list::Items;
use apex_num::NoMemory;
use save_chunks::{give_up, has_failed, note, set_aside};
use save_meaning::TxnState;
use save_statements::{SaveRun, Stage, Told};
use std::alloc::Global;
use std::mem::replace;

// What came of the records is noted, and the next chunk comes.
fn note_all(run: &mut SaveRun, told: Items<Told>)
    ensures { run.new ≡ record run.old { results = spec.noted told run.old.results; stage = S.Next } }
{
    note(&mut run.results, told);
    run.stage = Stage::Next;
}

// The records that didn't fail are tried again, and what failed is set aside.
fn try_again(alloc: Global, run: &mut SaveRun, told: Items<Told>) -> Result<(), NoMemory>
    requires { 0 < run.old.left }
    ensures { OnOk result (run.new ≡ record run.old { rows = lists.left_over run.old.rows told; left = run.old.left - 1; results = spec.noted (lists.failed_in told) run.old.results; stage = S.Begin }) }
{
    let rows = replace(&mut run.rows, Items::new(alloc));
    let (left, failed) = set_aside(alloc, rows, told)?;
    run.rows = left;
    note(&mut run.results, failed);
    run.left -= 1;
    run.stage = Stage::Begin;
    Ok(())
}

/// An attempt in part ends. Where a record failed, what the attempt changed is undone, and the others are tried again, or given up
/// behind the last attempt.
pub fn settle_part(
    alloc: Global,
    run: &mut SaveRun,
    told: Items<Told>,
    txn: &mut TxnState,
) -> Result<(), NoMemory>
    ensures { OnOk result (spec.retried (lists.failed_in told) run.old.left told run.old txn.old ≡ Goes run.new txn.new) }
{
    if !has_failed(told.as_slice()) {
        txn.overlay.keep();
        note_all(run, told);
        return Ok(());
    }
    txn.overlay.undo();
    if run.left > 0 {
        return try_again(alloc, run, told);
    }
    let given_up = give_up(alloc, told)?;
    note_all(run, given_up);
    Ok(())
}
