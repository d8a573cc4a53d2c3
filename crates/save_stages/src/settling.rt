// How an attempt at a chunk ends.

ghost use Rattle.std.specs.Prelude.{◌≡◌, pos, IfOk};
ghost use Rattle.save_statements.specs.declared.run.Stage.TheVariants as S;
ghost use Rattle.save_statements.specs.Moves as spec;
ghost use Rattle.save_statements.specs.Statements as lists;
ghost use Rattle.save_stages.specs.Does.{Makes};

use crate::moved::Moved;
use crate::retries::settle_part;
use apex_list::Items;
use apex_num::NoMemory;
use platform_errors::Thrown;
use save_chunks::{note, or_failed, tell};
use save_meaning::TxnState;
use save_statements::{Record, SaveRun, Stage};
use std::alloc::{AllocError, Global};

// A place as an exception tells it.
fn number_of(at: usize) -> Result<i64, NoMemory>
    ensures { IfOk result (λ n. n ≡ pos at) }
{
    // (more records are in no memory)
    if at > i64::MAX as usize {
        return Err(AllocError);
    }
    Ok(at as i64)
}

/// The attempt ends. Where a record is wrong, what the attempt changed is undone, and the statement throws where it saves all or
/// none; in part, the other records are tried again while an attempt is left.
pub fn settle(
    alloc: Global,
    run: &mut SaveRun,
    records: Items<Record>,
    txn: &mut TxnState,
) -> Result<Moved, NoMemory>
    ensures { IfOk result (λ m. Makes (spec.settle run.old.all (lists.told run.old.rows records)) (spec.at run.old (S.Settle records)) txn.old m run.new txn.new) }
{
    let told = tell(alloc, run.rows.as_slice(), records)?;
    if !run.all {
        settle_part(alloc, run, told, txn)?;
        return Ok(Moved::Went);
    }
    match or_failed(told) {
        Ok(told) => {
            note(&mut run.results, told);
            run.stage = Stage::Next;
            Ok(Moved::Went)
        }
        Err((at, error)) => {
            txn.overlay.undo();
            Ok(Moved::Threw(Thrown::Dml(run.op, number_of(at)?, error)))
        }
    }
}
