// What is asked of a delete: the rows under its rows, level by level, and the rows that name what goes.

ghost use Rattle.std.specs.Prelude.{◌≡◌, ◌<◌, ◌++◌, [], ℕ, suc, List, IfOk};
ghost use Rattle.apex_rows.specs.declared.row.Row.{Row as TheRow};
ghost use Rattle.record_ids.specs.Ids.{most};
ghost use Rattle.row_meaning.specs.Stores.{of_object};
ghost use Rattle.save_meaning.specs.Drafts.{with_ids};
ghost use Rattle.save_meaning.specs.Inserts.{ids_of};
ghost use Rattle.save_statements.specs.Checks as spec;
ghost use Rattle.save_statements.specs.Inquiries as phases;
ghost use Rattle.save_statements.specs.Records as fields;
ghost use Rattle.save_statements.specs.Records.{going, rows_of};
ghost use Rattle.answer_replay.specs.Playing.{Plays};
ghost use Rattle.save_deletes.specs.Downward as down;
ghost use Rattle.save_deletes.specs.Downward.{held_rows, site_of};
ghost use Rattle.save_deletes.specs.Heads.{AreHeads};

use crate::heads::{heads_of_all, heads_of_records, heads_of_rows, is_one_going};
use answer_replay::{Answers, Comes, IdSet, grab, naming};
use apex_list::Items;
use apex_num::NoMemory;
use apex_requests::Ticket;
use apex_rows::Row;
use apex_schema::Schema;
use delete_cascades::{lookups, masters};
use indexmap::IndexMap;
use save_statements::{Naming, Record};
use std::alloc::Global;
use txn_overlay::Overlay;

/// A chain of masters has three steps at the most.
const MOST_LEVELS: usize = 3;

// The rows that name, by this field, one of the rows with these heads.
fn naming_heads(
    alloc: Global,
    overlay: &Overlay,
    field: Naming,
    heads: &IndexMap<usize, IdSet>,
    answers: &mut Answers<'_>,
) -> Result<Comes<Items<Row>>, NoMemory>
    ensures { IfOk result (λ comes. (rows : List TheRow) → AreHeads rows heads.now → Plays (phases.naming overlay.now field (with_ids (ids_of (of_object field.to rows)) [])) answers.old comes answers.new) }
{
    match heads.get(&field.to) {
        Some(ids) => naming(alloc, overlay, field, ids, answers),
        None => Ok(Comes::Found(Items::new(alloc))),
    }
}

/// The rows that name, by these fields, one of the rows with these heads.
pub fn naming_all(
    alloc: Global,
    overlay: &Overlay,
    namings: &[Naming],
    heads: &IndexMap<usize, IdSet>,
    answers: &mut Answers<'_>,
) -> Result<Comes<Items<(Naming, Items<Row>)>>, NoMemory>
    ensures { IfOk result (λ comes. (rows : List TheRow) → AreHeads rows heads.now → Plays (spec.naming_all overlay.now namings.now rows) answers.old comes answers.new) }
{
    let mut all = Items::new(alloc);
    for i in 0..namings.len() {
        let field = namings[i];
        let rows = match naming_heads(alloc, overlay, field, heads, answers)? {
            Comes::Wants(question) => return Ok(Comes::Wants(question)),
            Comes::Found(rows) => rows,
        };
        all.push((field, rows))?;
    }
    Ok(Comes::Found(all))
}

// The rows that were found, by all fields.
fn found_rows(alloc: Global, found: Items<(Naming, Items<Row>)>) -> Result<Items<Row>, NoMemory>
    ensures { IfOk result (λ rows. rows ≡ spec.found_rows found) }
{
    let mut all = Items::new(alloc);
    for (_, rows) in found.into_vec() {
        all.append(rows)?;
    }
    Ok(all)
}

// These rows, which are held.
fn hold(
    alloc: Global,
    ticket: Ticket,
    rows: Items<Row>,
    answers: &mut Answers<'_>,
) -> Result<Comes<Items<Row>>, NoMemory>
    requires session { suc ticket.session < most }
    requires request { ticket.index < most }
    ensures { IfOk result (λ comes. Plays (held_rows ticket rows) answers.old comes answers.new) }
{
    let set = IdSet::of_rows(alloc, rows.as_slice())?;
    let ids = set.items(alloc)?;
    match grab(alloc, ticket, ids.as_slice(), answers)? {
        Comes::Wants(question) => Ok(Comes::Wants(question)),
        Comes::Found(_) => Ok(Comes::Found(rows)),
    }
}

// The rows that were found by all fields, which are held.
fn hold_found(
    alloc: Global,
    ticket: Ticket,
    found: Items<(Naming, Items<Row>)>,
    answers: &mut Answers<'_>,
) -> Result<Comes<Items<Row>>, NoMemory>
    requires session { suc ticket.session < most }
    requires request { ticket.index < most }
    ensures { IfOk result (λ comes. Plays (held_rows ticket (spec.found_rows found)) answers.old comes answers.new) }
{
    let rows = found_rows(alloc, found)?;
    hold(alloc, ticket, rows, answers)
}

// The rows under the rows with these heads.
fn next_level(
    alloc: Global,
    ticket: Ticket,
    overlay: &Overlay,
    masters: &[Naming],
    heads: &IndexMap<usize, IdSet>,
    answers: &mut Answers<'_>,
) -> Result<Comes<Items<Row>>, NoMemory>
    requires session { suc ticket.session < most }
    requires request { ticket.index < most }
    ensures { IfOk result (λ comes. (rows : List TheRow) → AreHeads rows heads.now → Plays (down.next_level ticket overlay.now masters.now rows) answers.old comes answers.new) }
{
    match naming_all(alloc, overlay, masters, heads, answers)? {
        Comes::Wants(question) => Ok(Comes::Wants(question)),
        Comes::Found(found) => hold_found(alloc, ticket, found, answers),
    }
}

/// The rows under the records that go on, level by level; the rows of each level are held.
pub fn all_levels(
    alloc: Global,
    schema: &Schema,
    ticket: Ticket,
    overlay: &Overlay,
    records: &[Record],
    answers: &mut Answers<'_>,
) -> Result<Comes<Items<Items<Row>>>, NoMemory>
    requires session { suc ticket.session < most }
    requires request { ticket.index < most }
    ensures { IfOk result (λ comes. Plays (spec.levels (site_of schema.now ticket) overlay.now 3 (rows_of (going records.now))) answers.old comes answers.new) }
{
    let masters = masters(alloc, schema)?;
    let mut heads = heads_of_records(alloc, records)?;
    let mut more = is_one_going(records);
    let mut all = Items::new(alloc);
    for i in 0..MOST_LEVELS {
        if !more {
            return Ok(Comes::Found(all));
        }
        let rows = match next_level(alloc, ticket, overlay, masters.as_slice(), &heads, answers)? {
            Comes::Wants(question) => return Ok(Comes::Wants(question)),
            Comes::Found(rows) => rows,
        };
        heads = heads_of_rows(alloc, rows.as_slice())?;
        more = !rows.is_empty();
        all.push(rows)?;
    }
    Ok(Comes::Found(all))
}

/// The rows that name, by a lookup, one of the rows that go.
pub fn naming_gone(
    alloc: Global,
    schema: &Schema,
    overlay: &Overlay,
    records: &[Record],
    levels: &[Items<Row>],
    answers: &mut Answers<'_>,
) -> Result<Comes<Items<(Naming, Items<Row>)>>, NoMemory>
    ensures { IfOk result (λ comes. Plays (spec.naming_all overlay.now (fields.lookups schema.now) (rows_of (going records.now) ++ spec.joined levels.now)) answers.old comes answers.new) }
{
    let lookups = lookups(alloc, schema)?;
    let heads = heads_of_all(alloc, records, levels)?;
    naming_all(alloc, overlay, lookups.as_slice(), &heads, answers)
}
