// The number of steps that replies tell.

ghost use Rattle.std.specs.Prelude.{◌≡◌};
ghost use Rattle.session_runs.specs.Blocks.{told_of};

use apex_requests::{Outcome, Reply};

// The number of steps that a reply tells: a refused one tells none.
fn told(outcome: &Outcome, ops: u64) -> u64
    ensures { result ≡ told_of outcome.now ops }
{
    match outcome {
        Outcome::Ok | Outcome::Thrown(..) | Outcome::Limit(..) => ops,
        Outcome::Refused(_) => 0,
    }
}

/// The reply of a request, with the number of steps that it tells.
pub fn told_reply(reply: Reply) -> Reply
    ensures { result ≡ record reply { ops = told_of reply.outcome reply.ops } }
{
    let mut reply = reply;
    reply.ops = told(&reply.outcome, reply.ops);
    reply
}
