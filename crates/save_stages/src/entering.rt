// How records enter a phase.

ghost use Rattle.std.specs.Prelude.{◌≡◌, length, IfOk};
ghost use Rattle.save_meaning.specs.Sites.{Site};
ghost use Rattle.save_statements.specs.declared.run.Stage.TheVariants as S;
ghost use Rattle.save_statements.specs.Moves as spec;
ghost use Rattle.save_statements.specs.Records.{going};
ghost use Rattle.save_statements.specs.Firings.{entries as entries_of};
ghost use Rattle.save_firings.specs.Tables.{listed};
ghost use Rattle.save_stages.specs.Does.{Makes};

use crate::moved::Moved;
use apex_list::{Items, Stack};
use apex_num::{LimitKind, NoMemory};
use save_firings::{TriggerTable, enter as entries};
use save_meaning::TxnState;
use save_statements::{Phase, Record, SaveRun, Stage};
use std::alloc::Global;

/// What comes behind a phase.
pub fn behind(phase: Phase, records: Items<Record>) -> Stage
    ensures { result ≡ spec.behind phase records }
{
    match phase {
        Phase::Refer => Stage::Enter(Phase::Before, records),
        Phase::Before => Stage::Enter(Phase::Validate, records),
        Phase::Validate => Stage::Enter(Phase::Write, records),
        Phase::Write => Stage::Enter(Phase::After, records),
        Phase::After => Stage::Enter(Phase::RollUp, records),
        Phase::RollUp => Stage::Settle(records),
    }
}

// How many records go on.
fn count_going(records: &[Record]) -> usize
    ensures { result ≡ length (going records.now) }
{
    let mut count = 0;
    for one in records {
        if let Record::Going(_) = one {
            count += 1;
        }
    }
    count
}

// The records, the first one on top.
fn stacked(alloc: Global, records: Items<Record>) -> Result<Stack<Record>, NoMemory>
    ensures { IfOk result (λ stack. stack ≡ records) }
{
    let mut records = records;
    let mut stack = Stack::new(alloc);
    while let Some(one) = records.pop() {
        stack.push(one)?;
    }
    Ok(stack)
}

// The triggers of a phase are to fire, before or behind the write.
fn to_fire(
    alloc: Global,
    table: &TriggerTable,
    run: &SaveRun,
    before: bool,
    records: Items<Record>,
) -> Result<Stage, NoMemory>
    ensures { IfOk result (λ stage. stage ≡ S.Fire before (listed table.now run.now.object run.now.act before) (entries_of records)) }
{
    let triggers = table.triggers_of(alloc, run.object, run.act, before)?;
    Ok(Stage::Fire(before, triggers, entries(alloc, records)?))
}

// What is in a phase.
fn inside(
    alloc: Global,
    table: &TriggerTable,
    run: &SaveRun,
    phase: Phase,
    records: Items<Record>,
) -> Result<Stage, NoMemory>
    ensures { IfOk result (λ stage. (site : Site) → stage ≡ spec.inside site (listed table.now) phase records run.now) }
{
    match phase {
        Phase::Refer => Ok(Stage::Refer(records, Items::new(alloc))),
        Phase::Before => to_fire(alloc, table, run, true, records),
        Phase::Validate => Ok(Stage::Validate(records, Items::new(alloc))),
        Phase::Write => Ok(Stage::Write(Items::new(alloc), stacked(alloc, records)?)),
        Phase::After => to_fire(alloc, table, run, false, records),
        Phase::RollUp => Ok(behind(phase, records)),
    }
}

/// The records that go on enter a phase, a step each; where there are none it is passed over.
pub fn enter(
    alloc: Global,
    table: &TriggerTable,
    run: &mut SaveRun,
    phase: Phase,
    records: Items<Record>,
    txn: &mut TxnState,
) -> Result<Moved, NoMemory>
    ensures { IfOk result (λ m. (site : Site) → Makes (spec.entered site (listed table.now) (going records) phase records) (spec.at run.old (S.Enter phase records)) txn.old m run.new txn.new) }
{
    let count = count_going(records.as_slice());
    if count == 0 {
        run.stage = behind(phase, records);
        return Ok(Moved::Went);
    }
    match txn.meter.charge(LimitKind::Steps, count as u64) {
        Ok(()) => {
            run.stage = inside(alloc, table, run, phase, records)?;
            Ok(Moved::Went)
        }
        Err(limit) => Ok(Moved::Halted(limit)),
    }
}
