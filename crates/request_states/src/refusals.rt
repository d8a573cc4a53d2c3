// Requests that are refused.

ghost use Rattle.std.specs.Prelude.{◌≡◌, IfOk};
ghost use Rattle.request_states.specs.Refusals as spec;

use apex_list::Items;
use apex_num::{NoMemory, Text};
use apex_requests::{Counts, Outcome, Reply};
use apex_rows::Writes;
use fault_words::{Fault, FaultWord};
use std::alloc::Global;

/// What a request writes that writes nothing. It takes no memory.
pub fn no_writes(alloc: Global) -> Writes
    ensures { result ≡ spec.no_writes }
{
    Writes {
        puts: Items::new(alloc),
        drops: Items::new(alloc),
    }
}

/// The reply of a request that is refused by this fault. It takes no memory.
pub fn refusal(alloc: Global, fault: Fault) -> Reply
    ensures { result ≡ spec.refusal fault }
{
    let counts = Counts {
        queries: 0,
        rows: 0,
        dml: 0,
        saved: 0,
        steps: 0,
    };
    Reply {
        outcome: Outcome::Refused(fault),
        debug: Items::new(alloc),
        counts,
        ops: 0,
    }
}

/// The fault of a block or a save that isn't built yet.
pub fn not_yet(alloc: Global) -> Result<Fault, NoMemory>
    ensures { IfOk result (λ fault. fault ≡ spec.not_yet) }
{
    Ok(Fault {
        place: Text::from_str(alloc, "block 1:1")?,
        word: FaultWord::NotYet,
    })
}
