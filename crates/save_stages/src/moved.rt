// What a move did.

use apex_list::Items;
use apex_requests::Context;
use apex_rows::Question;
use limit_meter::Limit;
use platform_errors::Thrown;
use save_statements::RecordOutcome;

/// What a move did with a statement.
#[derive(Drop)]
pub enum Moved {
    /// The statement went on.
    Went,
    /// It asks, and waits for the answer.
    Asked(Question),
    /// The trigger of this number fires, and the statement waits for what that comes to.
    Fired(usize, Context),
    /// It ended, with what came of its records.
    Ended(Items<RecordOutcome>),
    /// It threw.
    Threw(Thrown),
    /// It would have passed a limit.
    Halted(Limit),
}
