// The rows that a query found, with those under them.

ghost use Rattle.std.specs.Prelude.{◌≡◌, ◌<◌, suc, length, map, IfOk};
ghost use Rattle.record_ids.specs.Ids.{most};
ghost use Rattle.query_meaning.specs.Queries as spec;
ghost use Rattle.answer_replay.specs.Playing.{Plays};
ghost use Rattle.query_rows.specs.Cuts.{cut_of};
ghost use Rattle.query_finding.specs.Steps.{found_of, site_of};

use crate::gathered::{Gathered, gather};
use crate::under::{Under, lists_under, read_all_under};
use answer_replay::{Answers, Comes, IdSet};
use apex_list::Items;
use apex_num::NoMemory;
use apex_requests::Ticket;
use apex_rows::{Bind, Found, Query, Row};
use apex_schema::{Mode, Schema};
use query_rows::{Known, Reader, cells_over, cut};
use std::alloc::Global;
use txn_overlay::Overlay;

// A row that was found, with the values of its paths and the rows under it.
fn found_row(
    alloc: Global,
    schema: &Schema,
    binds: &[Bind],
    query: &Query,
    known: &Known,
    under: &[Under<'_>],
    row: Row,
) -> Result<Found, NoMemory>
    ensures { IfOk result (λ found. found ≡ found_of schema.now binds.now query.now known.now under.now row) }
{
    let children = lists_under(alloc, schema, binds, under, &row)?;
    let reader = Reader::new(schema, known);
    let paths = cells_over(alloc, &reader, query.paths.as_slice(), &row)?;
    Ok(Found {
        row,
        paths,
        children,
    })
}

// All rows that were found.
fn found_rows(
    alloc: Global,
    schema: &Schema,
    binds: &[Bind],
    query: &Query,
    known: &Known,
    under: &[Under<'_>],
    rows: Items<Row>,
) -> Result<Items<Found>, NoMemory>
    ensures { IfOk result (λ found. found ≡ map (found_of schema.now binds.now query.now known.now under.now) rows) }
{
    let mut found = Items::new(alloc);
    for row in rows.into_vec() {
        found.push(found_row(alloc, schema, binds, query, known, under, row)?)?;
    }
    Ok(found)
}

// The rows that a query found, with those under them.
fn with_children(
    alloc: Global,
    schema: &Schema,
    ticket: Ticket,
    overlay: &Overlay,
    mode: Mode,
    binds: &[Bind],
    query: &Query,
    known: &Known,
    rows: Items<Row>,
    answers: &mut Answers<'_>,
) -> Result<Comes<Items<Found>>, NoMemory>
    requires user { suc ticket.user < most }
    requires users { length schema.now.users < most }
    ensures { IfOk result (λ comes. Plays (spec.with_children (site_of schema.now ticket) overlay.now mode binds.now query.now known.now rows) answers.old comes answers.new) }
{
    let ids = IdSet::of_rows(alloc, rows.as_slice())?;
    match read_all_under(
        alloc,
        schema,
        ticket,
        overlay,
        mode,
        binds,
        query.children.as_slice(),
        &ids,
        answers,
    )? {
        Comes::Wants(question) => Ok(Comes::Wants(question)),
        Comes::Found(under) => {
            let found = found_rows(alloc, schema, binds, query, known, under.as_slice(), rows)?;
            Ok(Comes::Found(found))
        }
    }
}

// The rows in order, without those that OFFSET skips, and LIMIT of them at the most.
fn cut_rows(
    alloc: Global,
    schema: &Schema,
    binds: &[Bind],
    query: &Query,
    known: &Known,
    rows: Items<Row>,
) -> Result<Items<Row>, NoMemory>
    ensures { IfOk result (λ rs. rs ≡ cut_of (record { schema = schema.now; known = known.now }) binds.now query.now rows) }
{
    let reader = Reader::new(schema, known);
    Ok(Items::of(cut(alloc, &reader, binds, query, rows.into_vec())?))
}

// The rows that were gathered, cut and with those under them.
fn find_in(
    alloc: Global,
    schema: &Schema,
    ticket: Ticket,
    overlay: &Overlay,
    mode: Mode,
    binds: &[Bind],
    query: &Query,
    gathered: Gathered,
    answers: &mut Answers<'_>,
) -> Result<Comes<Items<Found>>, NoMemory>
    requires user { suc ticket.user < most }
    requires users { length schema.now.users < most }
    ensures { IfOk result (λ comes. Plays (spec.with_children (site_of schema.now ticket) overlay.now mode binds.now query.now gathered.known (spec.cut (site_of schema.now ticket) overlay.now mode binds.now query.now gathered.known gathered.rows)) answers.old comes answers.new) }
{
    let (rows, known) = gathered.into_parts();
    let rows = cut_rows(alloc, schema, binds, query, &known, rows)?;
    with_children(
        alloc, schema, ticket, overlay, mode, binds, query, &known, rows, answers,
    )
}

/// The rows that a query finds for a request, with those under them, where its binds have these values, on the answers that are
/// left: the question for its rows, those for their parents, the one for sharing, and then the same for each subquery, all rows
/// of it by one question. The time grows with the rows, and with n log n of those that are put in order.
pub fn finding(
    alloc: Global,
    schema: &Schema,
    ticket: Ticket,
    overlay: &Overlay,
    mode: Mode,
    binds: &[Bind],
    query: &Query,
    answers: &mut Answers<'_>,
) -> Result<Comes<Items<Found>>, NoMemory>
    requires user { suc ticket.user < most }
    requires users { length schema.now.users < most }
    ensures { IfOk result (λ comes. Plays (spec.finding (record { schema = schema.now; ticket = ticket }) overlay.now mode binds.now query.now) answers.old comes answers.new) }
{
    let none = IdSet::new(alloc);
    match gather(
        alloc, schema, ticket, overlay, mode, binds, query, None, &none, answers,
    )? {
        Comes::Wants(question) => Ok(Comes::Wants(question)),
        Comes::Found(gathered) => find_in(
            alloc, schema, ticket, overlay, mode, binds, query, gathered, answers,
        ),
    }
}
