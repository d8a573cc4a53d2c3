// What a step did.

use apex_list::Boxed;
use apex_requests::Reply;
use apex_rows::{Question, Writes};
use limit_meter::Limit;
use stack_code::Firing;
use txn_heap::Ref;

/// What a step did.
#[derive(Drop)]
pub enum Moved {
    /// The machine went on.
    Went,
    /// It asks, and waits for the answer.
    Asked(Question),
    /// A limit was passed: the request is over, and its reply tells what the machine has by now.
    Halted(Limit),
    /// The request is over, with its reply, the number of steps left out, and what it writes.
    Over(Boxed<Reply>, Boxed<Writes>),
}

/// Where a save stops.
#[derive(Drop)]
pub enum SaveStop {
    /// As a step of the machine does.
    Moved(Moved),
    /// A trigger fires: its number, what has its variables, and the firing, behind which the save goes on. Its frame is still to be
    /// entered.
    Fires(usize, Ref, Boxed<Firing>),
}
