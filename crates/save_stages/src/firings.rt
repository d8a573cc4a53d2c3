// The first of some triggers fires.

ghost use Rattle.std.specs.Prelude.{◌≡◌, IfOk};
ghost use Rattle.save_statements.specs.declared.run.Stage.TheVariants as S;
ghost use Rattle.save_statements.specs.Moves as spec;
ghost use Rattle.save_stages.specs.Does.{Makes};

use crate::entering::behind;
use crate::moved::Moved;
use apex_list::{Items, Stack};
use apex_num::NoMemory;
use save_firings::{back, context};
use save_meaning::TxnState;
use save_statements::{Entry, Phase, SaveRun, Stage, Trigger};
use std::alloc::Global;

// The phase of triggers before the write, or behind it.
fn phase_of(before: bool) -> Phase
    ensures { result ≡ spec.phase_of before }
{
    if before { Phase::Before } else { Phase::After }
}

/// The first of these triggers fires with the records of its phase; where none is left, the phase is over. While one fires, the
/// statement stays as it is.
pub fn fire(
    alloc: Global,
    run: &mut SaveRun,
    before: bool,
    triggers: Stack<Trigger>,
    entries: Items<Entry>,
    txn: &TxnState,
) -> Result<Moved, NoMemory>
    ensures { IfOk result (λ m. Makes (spec.fire before triggers entries) (spec.at run.old (S.Fire before triggers entries)) txn.entry.now m run.new txn.entry.now) }
{
    let mut triggers = triggers;
    match triggers.pop() {
        None => {
            run.stage = behind(phase_of(before), back(alloc, entries)?);
            Ok(Moved::Went)
        }
        Some(trigger) => {
            let number = trigger.number;
            triggers.push(trigger)?;
            let seen = context(alloc, run.act, before, entries.as_slice())?;
            run.stage = Stage::Fire(before, triggers, entries);
            Ok(Moved::Fired(number, seen))
        }
    }
}
