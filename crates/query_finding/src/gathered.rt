// The rows that a query gathers.

ghost use Rattle.std.specs.Prelude.{◌≡◌, ◌<◌, ◌++◌, ◌∷◌, [], suc, length, IfOk};
ghost use Rattle.apex_rows.specs.declared.query.Query.TheViews.{out-Query};
ghost use Rattle.record_ids.specs.Ids.{most};
ghost use Rattle.store_inquiries.specs.Questions as questions;
ghost use Rattle.query_meaning.specs.Questions.{asked};
ghost use Rattle.query_meaning.specs.Queries as spec;
ghost use Rattle.answer_replay.specs.Playing.{Plays};
ghost use Rattle.query_finding.specs.Steps.{behind_parents, further_of, site_of, test_of};

use crate::keeps::keep;
use crate::parents::read_parents;
use crate::sharing::shown;
use answer_replay::{Answers, Comes, IdSet, answered, within};
use apex_list::Items;
use apex_num::NoMemory;
use apex_requests::Ticket;
use apex_rows::{Bind, Cond, Query, Question, Row};
use apex_schema::{Mode, Schema};
use query_questions::{parents_of, reading};
use query_rows::Known;
use std::alloc::Global;
use std::marker::Model;
use txn_overlay::Overlay;

/// Rows of a query on their way, and the rows over them that are known.
#[derive(Drop)]
pub struct Gathered {
    rows: Items<Row>,
    known: Known,
}

impl Model for Gathered {
    ghost use Rattle.query_meaning.specs.Queries.{Gathered as RowsAndKnown};

    ghost Value = { RowsAndKnown };

    ghost view = { λ g. record { rows = g.rows; known = g.known } };
}

impl Gathered {
    /// Rows, and those over them.
    pub fn new(rows: Items<Row>, known: Known) -> Gathered
        ensures { result ≡ record { rows = rows; known = known } }
    {
        Gathered { rows, known }
    }

    /// No rows; takes no memory.
    pub fn none(alloc: Global) -> Gathered
        ensures { result ≡ record { rows = []; known = [] } }
    {
        Gathered {
            rows: Items::new(alloc),
            known: Known::new(alloc),
        }
    }

    /// The rows, and those over them.
    pub fn into_parts(self) -> (Items<Row>, Known)
        ensures { result ≡ (self.rows, self.known) }
    {
        let Gathered { rows, known } = self;
        (rows, known)
    }
}

// The rows that are kept of those that were read, where the rows over them are known.
fn sift_over(
    alloc: Global,
    schema: &Schema,
    ticket: Ticket,
    overlay: &Overlay,
    mode: Mode,
    binds: &[Bind],
    query: &Query,
    under: Option<usize>,
    ids: &IdSet,
    rows: Items<Row>,
    known: Known,
    answers: &mut Answers<'_>,
) -> Result<Comes<Gathered>, NoMemory>
    requires user { suc ticket.user < most }
    requires users { length schema.now.users < most }
    ensures { IfOk result (λ comes. Plays (behind_parents (site_of schema.now ticket) overlay.now mode binds.now query.now (test_of under ids.now) rows known) answers.old comes answers.new) }
{
    let left = keep(alloc, schema, binds, query, under, ids, &known, rows)?;
    match shown(
        alloc,
        schema,
        ticket,
        overlay,
        mode,
        query.object,
        left,
        answers,
    )? {
        Comes::Wants(question) => Ok(Comes::Wants(question)),
        Comes::Found(seen) => Ok(Comes::Found(Gathered::new(seen, known))),
    }
}

// The rows that are kept of those that were read: their parents, the whole condition, sharing.
fn sifted(
    alloc: Global,
    schema: &Schema,
    ticket: Ticket,
    overlay: &Overlay,
    mode: Mode,
    binds: &[Bind],
    query: &Query,
    under: Option<usize>,
    ids: &IdSet,
    rows: Items<Row>,
    answers: &mut Answers<'_>,
) -> Result<Comes<Gathered>, NoMemory>
    requires user { suc ticket.user < most }
    requires users { length schema.now.users < most }
    ensures { IfOk result (λ comes. Plays (spec.sifted (site_of schema.now ticket) overlay.now mode binds.now query.now (test_of under ids.now) rows) answers.old comes answers.new) }
{
    let paths = parents_of(alloc, query)?;
    match read_parents(
        alloc,
        schema,
        ticket,
        overlay,
        query.object,
        paths.as_slice(),
        rows.as_slice(),
        answers,
    )? {
        Comes::Wants(question) => Ok(Comes::Wants(question)),
        Comes::Found(known) => sift_over(
            alloc, schema, ticket, overlay, mode, binds, query, under, ids, rows, known, answers,
        ),
    }
}

// A field is one of these Ids.
fn naming_one(alloc: Global, field: usize, ids: &IdSet) -> Result<Items<Cond>, NoMemory>
    ensures { IfOk result (λ conds. conds ≡ questions.within field ids.now ∷ []) }
{
    let wanted = ids.items(alloc)?;
    let mut conds = Items::new(alloc);
    conds.push(within(alloc, field, wanted.as_slice())?)?;
    Ok(conds)
}

// A field is one of these Ids, where one is given.
fn further(alloc: Global, under: Option<usize>, ids: &IdSet) -> Result<Items<Cond>, NoMemory>
    ensures { IfOk result (λ conds. conds ≡ further_of under ids.now) }
{
    match under {
        Some(field) => naming_one(alloc, field, ids),
        None => Ok(Items::new(alloc)),
    }
}

// The question for the rows of a query, those of which a field is one of these Ids, where one is given.
fn read(
    alloc: Global,
    binds: &[Bind],
    query: &Query,
    under: Option<usize>,
    ids: &IdSet,
) -> Result<Question, NoMemory>
    ensures { IfOk result (λ question. question ≡ Question.Read (out-Query query.now).object (Cond.All (further_of under ids.now ++ asked binds.now (out-Query query.now).cond))) }
{
    let further = further(alloc, under, ids)?;
    let cond = reading(alloc, binds, query, further)?;
    Ok(Question::Read {
        object: query.object,
        cond,
    })
}

/// The rows of a query, which are asked for by the part of its condition that a store can decide, with their parents and after
/// its whole condition and sharing; those of which a field is one of these Ids, where one is given.
pub fn gather(
    alloc: Global,
    schema: &Schema,
    ticket: Ticket,
    overlay: &Overlay,
    mode: Mode,
    binds: &[Bind],
    query: &Query,
    under: Option<usize>,
    ids: &IdSet,
    answers: &mut Answers<'_>,
) -> Result<Comes<Gathered>, NoMemory>
    requires user { suc ticket.user < most }
    requires users { length schema.now.users < most }
    ensures { IfOk result (λ comes. Plays (spec.gather (site_of schema.now ticket) overlay.now mode binds.now query.now (further_of under ids.now) (test_of under ids.now)) answers.old comes answers.new) }
{
    match answers.next() {
        Some(answer) => {
            let rows = answered(alloc, overlay, query.object, answer)?;
            sifted(
                alloc, schema, ticket, overlay, mode, binds, query, under, ids, rows, answers,
            )
        }
        None => Ok(Comes::Wants(read(alloc, binds, query, under, ids)?)),
    }
}
