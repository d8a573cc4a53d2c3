// How a request ends.

ghost use Rattle.std.specs.Prelude.{◌≡◌, IfOk};
ghost use Rattle.stack_code.specs.Machine as spec;
ghost use Rattle.apex_requests.specs.declared.reply.Outcome.TheVariants.{Ok as Done};
ghost use Rattle.program_things.specs.Steps.{IsStep};
ghost use Rattle.program_things.specs.declared.moved.Moved.TheVariants as S;

use crate::moved::Moved;
use apex_list::{Boxed, Items};
use apex_num::{LimitKind, NoMemory};
use apex_requests::{Counts, Outcome, Reply};
use apex_rows::Writes;
use limit_meter::Limit;
use request_states::{no_writes, not_yet, refusal};
use stack_code::Config;
use std::alloc::Global;
use std::mem::replace;

/// The reply, without the number of steps. It takes the debug lines.
pub fn reply_of(alloc: Global, outcome: Outcome, c: &mut Config) -> Reply
    ensures { result ≡ spec.reply_of outcome c.old.world }
{
    let meter = &c.world.txn.meter;
    let counts = Counts {
        queries: meter.count(LimitKind::Queries),
        rows: meter.count(LimitKind::Rows),
        dml: meter.count(LimitKind::Dml),
        saved: meter.count(LimitKind::Saved),
        steps: meter.count(LimitKind::Steps),
    };
    let debug = replace(&mut c.world.debug, Items::new(alloc));
    Reply {
        outcome,
        debug,
        counts,
        ops: 0,
    }
}

// The request is over.
fn over(alloc: Global, reply: Reply, writes: Writes) -> Result<Moved, NoMemory>
    ensures { IfOk result (λ m. m ≡ S.Over reply writes) }
{
    let reply = Boxed::new(alloc, reply)?;
    let writes = Boxed::new(alloc, writes)?;
    Ok(Moved::Over(reply, writes))
}

/// It came to its end, with what it writes.
pub fn ended(alloc: Global, writes: Writes, c: &mut Config) -> Result<Moved, NoMemory>
    ensures { IfOk result (λ m. m ≡ S.Over (spec.reply_of Done c.old.world) writes) }
{
    let reply = reply_of(alloc, Outcome::Ok, c);
    over(alloc, reply, writes)
}

/// What throws writes nothing.
pub fn failing(alloc: Global, outcome: Outcome, c: &mut Config) -> Result<Moved, NoMemory>
    ensures { IfOk result (λ m. IsStep (spec.failing outcome c.old.world) m c.new) }
{
    let reply = reply_of(alloc, outcome, c);
    over(alloc, reply, no_writes(alloc))
}

/// A limit was passed.
pub fn limited(limit: Limit, c: &Config) -> Moved
    ensures { IsStep (spec.limited limit.kind limit.number c.now.world) result c.now }
{
    Moved::Halted(limit)
}

/// A form that isn't built yet.
pub fn refused(alloc: Global, c: &Config) -> Result<Moved, NoMemory>
    ensures { IfOk result (λ m. IsStep spec.refused m c.now) }
{
    let fault = not_yet(alloc)?;
    over(alloc, refusal(alloc, fault), no_writes(alloc))
}
