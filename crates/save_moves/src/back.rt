// What a statement is told that waits: an answer, or what a firing came to.

ghost use Rattle.std.specs.Prelude.{◌≡◌, IfOk, OnOk, OnErr};
ghost use Rattle.save_statements.specs.Moves as spec;

use apex_num::NoMemory;
use apex_rows::Answer;
use save_firings::fired;
use save_statements::{Fired, SaveRun, Stage};
use std::alloc::Global;
use std::mem::replace;

// A stage that asks has one answer more.
fn add_answer(stage: &mut Stage, answer: Answer) -> Result<(), NoMemory>
    ensures ok { OnOk result (stage.new ≡ spec.given_in stage.old answer) }
    ensures err { OnErr result (stage.new ≡ stage.old) }
{
    match stage {
        Stage::Load(answers) => answers.push(answer),
        Stage::Refer(_, answers) => answers.push(answer),
        Stage::Validate(_, answers) => answers.push(answer),
        _ => Ok(()),
    }
}

/// The statement has the answer to what it asked, behind those that the phase had before. Want of memory leaves it as it was.
pub fn given(run: &mut SaveRun, answer: Answer) -> Result<(), NoMemory>
    ensures ok { OnOk result (run.new ≡ spec.given run.old answer) }
    ensures err { OnErr result (run.new ≡ run.old) }
{
    add_answer(&mut run.stage, answer)
}

// The records as the first trigger left them, with the other triggers still to fire.
fn after_firing(alloc: Global, stage: Stage, outcome: Fired) -> Result<Stage, NoMemory>
    ensures { IfOk result (λ s. s ≡ spec.fired_in stage outcome) }
{
    match stage {
        Stage::Fire(before, triggers, entries) => {
            let mut triggers = triggers;
            match triggers.pop() {
                None => Ok(Stage::Fire(before, triggers, entries)),
                Some(trigger) => {
                    let entries = fired(alloc, &trigger, outcome, entries)?;
                    Ok(Stage::Fire(before, triggers, entries))
                }
            }
        }
        stage => Ok(stage),
    }
}

/// The statement has what the firing came to that it waited for. Want of memory leaves it in any state; the request is spent then.
pub fn came_back(alloc: Global, run: &mut SaveRun, outcome: Fired) -> Result<(), NoMemory>
    ensures { OnOk result (run.new ≡ spec.came_back run.old outcome) }
{
    let stage = replace(&mut run.stage, Stage::Next);
    run.stage = after_firing(alloc, stage, outcome)?;
    Ok(())
}
