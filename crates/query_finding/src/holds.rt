// The rows that a query holds.

ghost use Rattle.std.specs.Prelude.{◌≡◌, ◌<◌, suc, map, IfOk};
ghost use Rattle.apex_rows.specs.declared.row.Found.{Found as TheFound};
ghost use Rattle.record_ids.specs.Ids.{most};
ghost use Rattle.save_meaning.specs.Inserts as inserts;
ghost use Rattle.query_meaning.specs.Queries as spec;
ghost use Rattle.answer_replay.specs.Playing.{Plays};

use answer_replay::{Answers, Comes, grab};
use apex_list::Items;
use apex_num::{Id, NoMemory};
use apex_requests::Ticket;
use apex_rows::Found;
use std::alloc::Global;

// The Ids of the rows that were found.
fn ids_of(alloc: Global, found: &[Found]) -> Result<Items<Id>, NoMemory>
    ensures { IfOk result (λ ids. ids ≡ inserts.ids_of (map (λ (f : TheFound). f.row) found.now)) }
{
    let mut ids = Items::new(alloc);
    for one in found {
        ids.push(one.row.id)?;
    }
    Ok(ids)
}

/// The rows that a query found are held for its request alone, where it is one with FOR UPDATE, on the answers that are left:
/// one question, where the request didn't make all of them itself. Those under them aren't held.
pub fn hold(
    alloc: Global,
    ticket: Ticket,
    locked: bool,
    found: &[Found],
    answers: &mut Answers<'_>,
) -> Result<Comes<()>, NoMemory>
    requires session { suc ticket.session < most }
    requires request { ticket.index < most }
    ensures { IfOk result (λ comes. Plays (spec.holding ticket locked found.now) answers.old comes answers.new) }
{
    if !locked {
        return Ok(Comes::Found(()));
    }
    let ids = ids_of(alloc, found)?;
    grab(alloc, ticket, ids.as_slice(), answers)
}
