// How a statement and its chunks begin, and how the statement ends.

ghost use Rattle.std.specs.Prelude.{◌≡◌, IfOk, OnOk};
ghost use Rattle.apex_num.specs.declared.kind.LimitKind.TheVariants.{Dml};
ghost use Rattle.save_statements.specs.declared.run.Stage.TheVariants as S;
ghost use Rattle.save_statements.specs.Moves as spec;
ghost use Rattle.save_statements.specs.Moves.{Goes, charged};
ghost use Rattle.save_statements.specs.Statements.{placed, chunks};
ghost use Rattle.save_stages.specs.declared.moved.Moved.TheVariants as M;
ghost use Rattle.save_stages.specs.Does.{Makes, counted};

use crate::marks::{mark, unmark};
use crate::moved::Moved;
use apex_list::Items;
use apex_num::{LimitKind, NoMemory};
use apex_requests::SaveRow;
use apex_schema::Schema;
use platform_errors::Thrown;
use save_chunks::{cut_up, first_double_id, has_double, known, none_yet};
use save_meaning::TxnState;
use save_statements::{Chunk, SaveRun, Stage};
use std::alloc::Global;
use std::mem::replace;

/// How many attempts at a chunk may follow its first one.
const MORE_ATTEMPTS: usize = 2;

// ---- the statement

/// The statement of these records is charged.
pub fn charge(run: &mut SaveRun, rows: Items<SaveRow>, txn: &mut TxnState) -> Moved
    ensures { Makes (λ r w. charged Dml 1 w (λ v. Goes (spec.at r (S.Count rows)) v)) (spec.at run.old (S.Charge rows)) txn.old result run.new txn.new }
{
    match txn.meter.charge(LimitKind::Dml, 1) {
        Ok(()) => {
            run.stage = Stage::Count(rows);
            Moved::Went
        }
        Err(limit) => Moved::Halted(limit),
    }
}

// The chunks of a statement are cut, and there is a place for what comes of each record.
fn begin_chunks(
    alloc: Global,
    run: &mut SaveRun,
    rows: Items<SaveRow>,
    txn: &mut TxnState,
) -> Result<(), NoMemory>
    ensures run { OnOk result (run.new ≡ record run.old { chunks = chunks run.old.op (placed 0 rows); results = spec.none_yet rows; stage = S.Next }) }
    ensures txn { OnOk result (txn.new ≡ spec.marked run.old.all txn.old) }
{
    run.results = none_yet(alloc, rows.as_slice())?;
    run.chunks = cut_up(alloc, run.op, rows)?;
    run.stage = Stage::Next;
    mark(run.all, txn)
}

/// The records are charged, and looked at for one that stands twice. The statement begins, unless its object isn't there.
pub fn count(
    alloc: Global,
    schema: &Schema,
    run: &mut SaveRun,
    rows: Items<SaveRow>,
    txn: &mut TxnState,
) -> Result<Moved, NoMemory>
    ensures { IfOk result (λ m. Makes (counted schema.now rows) (spec.at run.old (S.Count rows)) txn.old m run.new txn.new) }
{
    if let Err(limit) = txn.meter.charge(LimitKind::Saved, rows.len() as u64) {
        return Ok(Moved::Halted(limit));
    }
    if has_double(alloc, rows.as_slice())? {
        return Ok(Moved::Threw(Thrown::DuplicateRecord));
    }
    if let Some(id) = first_double_id(alloc, rows.as_slice())? {
        return Ok(Moved::Threw(Thrown::DuplicateId(id)));
    }
    match schema.objects.get(run.object) {
        None => Ok(Moved::Ended(Items::new(alloc))),
        Some(_) => {
            begin_chunks(alloc, run, rows, txn)?;
            Ok(Moved::Went)
        }
    }
}

/// A statement whose object isn't there any more ends with what came of its records so far.
pub fn without_object(alloc: Global, run: &mut SaveRun) -> Result<Moved, NoMemory>
    ensures { IfOk result (λ m. m ≡ M.Ended (spec.known run.old.results)) }
{
    let results = replace(&mut run.results, Items::new(alloc));
    Ok(Moved::Ended(known(alloc, results)?))
}

// ---- chunks

/// The next chunk comes, or the statement ends.
pub fn next(alloc: Global, run: &mut SaveRun, txn: &mut TxnState) -> Result<Moved, NoMemory>
    ensures { IfOk result (λ m. Makes (spec.next run.old.chunks) (spec.at run.old S.Next) txn.old m run.new txn.new) }
{
    match run.chunks.pop() {
        None => {
            unmark(run.all, txn);
            without_object(alloc, run)
        }
        Some(Chunk { act, rows }) => {
            run.act = act;
            run.rows = rows;
            run.left = MORE_ATTEMPTS;
            run.stage = Stage::Begin;
            Ok(Moved::Went)
        }
    }
}

// An attempt at the chunk begins: its records are charged, a step each.
fn start(alloc: Global, run: &mut SaveRun, txn: &mut TxnState) -> Result<Moved, NoMemory>
    ensures { IfOk result (λ m. Makes spec.started (spec.at run.old S.Begin) txn.old m run.new txn.new) }
{
    match txn.meter.charge(LimitKind::Steps, run.rows.len() as u64) {
        Err(limit) => Ok(Moved::Halted(limit)),
        Ok(()) => {
            run.stage = Stage::Load(Items::new(alloc));
            mark(!run.all, txn)?;
            Ok(Moved::Went)
        }
    }
}

/// An attempt at the chunk begins; in part, there is none at no records.
pub fn begin(alloc: Global, run: &mut SaveRun, txn: &mut TxnState) -> Result<Moved, NoMemory>
    ensures { IfOk result (λ m. Makes (spec.begin run.old.all run.old.rows) (spec.at run.old S.Begin) txn.old m run.new txn.new) }
{
    if run.all {
        return start(alloc, run, txn);
    }
    if run.rows.is_empty() {
        run.stage = Stage::Next;
        return Ok(Moved::Went);
    }
    start(alloc, run, txn)
}
