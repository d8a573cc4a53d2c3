// What a query is told that waits.

ghost use Rattle.std.specs.Prelude.{◌≡◌, OnOk, OnErr};
ghost use Rattle.query_moves.specs.Moves as spec;

use apex_num::NoMemory;
use apex_rows::Answer;
use query_moves::{QueryRun, QueryStage};

// A stage that asks has one answer more.
fn add_answer(stage: &mut QueryStage, answer: Answer) -> Result<(), NoMemory>
    ensures ok { OnOk result (stage.new ≡ spec.given_in stage.old answer) }
    ensures err { OnErr result (stage.new ≡ stage.old) }
{
    match stage {
        QueryStage::Begin => Ok(()),
        QueryStage::Find(answers) => answers.push(answer),
        QueryStage::Hold(_, answers) => answers.push(answer),
    }
}

/// The query has the answer to what it asked, behind those that it had before. Want of memory leaves it as it was.
pub fn given(run: &mut QueryRun, answer: Answer) -> Result<(), NoMemory>
    ensures ok { OnOk result (run.new ≡ spec.given run.old answer) }
    ensures err { OnErr result (run.new ≡ run.old) }
{
    add_answer(&mut run.stage, answer)
}
