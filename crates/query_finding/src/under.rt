// The rows under rows.

ghost use Rattle.std.specs.Prelude.{◌≡◌, ◌<◌, ◌++◌, ◌∷◌, [], suc, length, map, IfOk, OnOk};
ghost use Rattle.record_ids.specs.Ids.{most};
ghost use Rattle.query_meaning.specs.Queries as spec;
ghost use Rattle.answer_replay.specs.Playing.{Plays};
ghost use Rattle.query_finding.specs.Steps.{site_of, under_row};

use crate::gathered::{Gathered, gather};
use answer_replay::{Answers, Comes, IdSet};
use apex_list::Items;
use apex_num::NoMemory;
use apex_requests::Ticket;
use apex_rows::{Bind, Child, Row, SubQuery};
use apex_schema::{Mode, Schema};
use query_rows::{Families, Known, Reader, children_under};
use std::alloc::Global;
use std::marker::Model;
use txn_overlay::Overlay;

/// A subquery with the rows that it found, by the rows that they name.
#[derive(Drop)]
pub struct Under<'a> {
    sub: &'a SubQuery,
    families: Families,
    known: Known,
}

impl<'a> Model for Under<'a> {
    ghost use Rattle.std.specs.Prelude.{◌≡◌};
    ghost use Rattle.std.specs.Coded.{codes};
    ghost use Rattle.apex_rows.specs.contracts.query.SubQuery as subs;
    ghost use Rattle.apex_rows.specs.declared.query.SubQuery.{SubQuery as TheSubQuery};
    ghost use Rattle.apex_rows.specs.declared.query.Query.TheViews.{out-SubQuery};
    ghost use Rattle.query_meaning.specs.Queries.{Gathered as RowsAndKnown};

    ghost Value = { TheSubQuery × RowsAndKnown };

    ghost coded = { Prim.hlevel (codes, subs.the_row.coded) };

    ghost view = { λ u. (u.sub.now, record { rows = u.families.rows; known = u.known }) };

    ghost invariant = { λ u. u.families.lookup ≡ (out-SubQuery u.sub.now).lookup };
}

impl<'a> Under<'a> {
    /// A subquery with what it found. Each row is looked up once.
    pub fn new(alloc: Global, sub: &'a SubQuery, found: Gathered) -> Result<Under<'a>, NoMemory>
        ensures { IfOk result (λ u. u ≡ (sub.now, found)) }
    {
        let (rows, known) = found.into_parts();
        let families = Families::new(alloc, sub.lookup, rows.into_vec())?;
        Ok(Under {
            sub,
            families,
            known,
        })
    }

    // The rows under one row, cut for it alone.
    fn children(
        &self,
        alloc: Global,
        schema: &Schema,
        binds: &[Bind],
        row: &Row,
    ) -> Result<Items<Child>, NoMemory>
        ensures { IfOk result (λ cs. cs ≡ under_row schema.now binds.now row.now self.now) }
    {
        let reader = Reader::new(schema, &self.known);
        children_under(
            alloc,
            &reader,
            binds,
            &self.sub.query,
            &self.families,
            &row.id,
        )
    }
}

// The rows of a subquery under these; where there are none, nothing is asked.
fn read_under(
    alloc: Global,
    schema: &Schema,
    ticket: Ticket,
    overlay: &Overlay,
    mode: Mode,
    binds: &[Bind],
    sub: &SubQuery,
    ids: &IdSet,
    answers: &mut Answers<'_>,
) -> Result<Comes<Gathered>, NoMemory>
    requires user { suc ticket.user < most }
    requires users { length schema.now.users < most }
    ensures { IfOk result (λ comes. Plays (spec.read_under (site_of schema.now ticket) overlay.now mode binds.now sub.now ids.now) answers.old comes answers.new) }
{
    if ids.is_empty() {
        return Ok(Comes::Found(Gathered::none(alloc)));
    }
    gather(
        alloc,
        schema,
        ticket,
        overlay,
        mode,
        binds,
        &sub.query,
        Some(sub.lookup),
        ids,
        answers,
    )
}

// With a subquery and what it found.
fn add<'a>(
    alloc: Global,
    all: &mut Items<Under<'a>>,
    sub: &'a SubQuery,
    found: Gathered,
) -> Result<(), NoMemory>
    ensures { OnOk result (all.new ≡ all.old ++ (sub.now, found) ∷ []) }
{
    all.push(Under::new(alloc, sub, found)?)
}

/// What each subquery finds under the rows with these Ids, one behind the other.
pub fn read_all_under<'a>(
    alloc: Global,
    schema: &Schema,
    ticket: Ticket,
    overlay: &Overlay,
    mode: Mode,
    binds: &[Bind],
    subs: &'a [SubQuery],
    ids: &IdSet,
    answers: &mut Answers<'_>,
) -> Result<Comes<Items<Under<'a>>>, NoMemory>
    requires user { suc ticket.user < most }
    requires users { length schema.now.users < most }
    ensures { IfOk result (λ comes. Plays (spec.read_all_under (site_of schema.now ticket) overlay.now mode binds.now subs.now ids.now) answers.old comes answers.new) }
{
    let mut all = Items::new(alloc);
    for sub in subs {
        match read_under(
            alloc, schema, ticket, overlay, mode, binds, sub, ids, answers,
        )? {
            Comes::Wants(question) => return Ok(Comes::Wants(question)),
            Comes::Found(found) => add(alloc, &mut all, sub, found)?,
        }
    }
    Ok(Comes::Found(all))
}

/// The rows under one row, a list for each subquery.
pub fn lists_under(
    alloc: Global,
    schema: &Schema,
    binds: &[Bind],
    under: &[Under<'_>],
    row: &Row,
) -> Result<Items<Items<Child>>, NoMemory>
    ensures { IfOk result (λ lists. lists ≡ map (under_row schema.now binds.now row.now) under.now) }
{
    let mut lists = Items::new(alloc);
    for one in under {
        lists.push(one.children(alloc, schema, binds, row)?)?;
    }
    Ok(lists)
}
