// How a statement begins.

ghost use Rattle.std.specs.Prelude.{◌≡◌};
ghost use Rattle.save_statements.specs.Moves as spec;

use apex_list::{Items, Stack};
use apex_requests::{Op, SaveRow};
use save_statements::{Act, Manner, SaveRun, Stage};
use std::alloc::Global;

/// A statement that saves these records of an object by its number, all or none or in part, before its first move. It takes no
/// memory.
pub fn first_run(
    alloc: Global,
    op: Op,
    by: Manner,
    object: usize,
    all: bool,
    rows: Items<SaveRow>,
) -> SaveRun
    ensures { result ≡ spec.first_run op by object all rows }
{
    SaveRun {
        op,
        by,
        object,
        all,
        chunks: Stack::new(alloc),
        act: Act::Inserting,
        rows: Items::new(alloc),
        left: 0,
        results: Items::new(alloc),
        stage: Stage::Charge(rows),
    }
}
