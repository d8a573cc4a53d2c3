// Queries and conditions, with their names resolved; questions to a store and its answers.

ghost use Rattle.std.specs.Prelude.{◌≡◌, IfOk};

use crate::row::Row;
use apex_list::{Boxed, Items};
use apex_num::{Cell, Copied, Id, NoMemory, copy_list, copy_values};

/// A field that is reached over parents: the fields that are followed, from the query's object on, and the field of
/// the last object.
#[derive(Drop)]
pub struct Path {
    pub parents: Items<usize>,
    pub field: usize,
}

/// The comparison of a condition.
#[derive(Clone, Copy, PartialEq, Eq, Drop)]
pub enum CondOp {
    Equal,
    Differs,
    Less,
    AtMost,
    More,
    AtLeast,
    /// The text agrees with a pattern.
    Like,
}

/// A value of a condition: given, or that of a bind, by the number of the bind in the text of the whole query.
#[derive(Drop)]
pub enum Term {
    Given(Cell),
    Bound(usize),
}

/// The values behind IN: a list, or that of a bind.
#[derive(Drop)]
pub enum Terms {
    Given(Items<Term>),
    Bound(usize),
}

/// A condition on rows.
#[derive(Drop)]
pub enum Cond {
    /// Each of these holds.
    All(Items<Cond>),
    /// One of these holds.
    Any(Items<Cond>),
    Not(Boxed<Cond>),
    Compare(Path, CondOp, Term),
    /// IN; where the truth value is true, NOT IN.
    Within(Path, bool, Terms),
}

/// A key of ORDER BY.
#[derive(Drop)]
pub struct SortKey {
    pub path: Path,
    pub descending: bool,
    pub nulls_last: bool,
}

/// A query. One without WHERE has the condition All of no conditions.
#[cycle(query)]
#[derive(Drop)]
pub struct Query {
    /// The number of the object.
    pub object: usize,
    /// Whether it is COUNT().
    pub counted: bool,
    /// The selected paths, in the order of the text.
    pub paths: Items<Path>,
    pub children: Items<SubQuery>,
    pub cond: Cond,
    pub keys: Items<SortKey>,
    pub limit: Option<Term>,
    pub offset: Option<Term>,
    /// FOR UPDATE.
    pub locked: bool,
}

/// A query for the rows under each row.
#[cycle(query)]
#[derive(Drop)]
pub struct SubQuery {
    /// The child's field that names the parent.
    pub lookup: usize,
    pub query: Query,
}

/// The value of a bind.
#[derive(Drop)]
pub enum Bind {
    One(Cell),
    /// The elements of a list or set behind IN.
    Many(Items<Cell>),
}

/// What a transaction asks of its tenant's store.
#[derive(Drop)]
pub enum Question {
    /// The rows of an object for which a condition holds. The condition has no bind.
    Read { object: usize, cond: Boxed<Cond> },
    /// These rows, for this transaction alone.
    Grab { ids: Items<Id> },
}

/// What a store answers.
#[derive(Drop)]
pub enum Answer {
    /// To Read: the rows, in rising order of their Ids.
    Rows(Items<Row>),
    /// To Grab.
    Granted,
}

impl Path {
    /// An equal path.
    pub fn copy(&self) -> Result<Path, NoMemory>
        ensures { IfOk result (λ c. c ≡ self.now) }
    {
        Ok(Path {
            parents: copy_values(&self.parents)?,
            field: self.field,
        })
    }
}

impl Term {
    /// An equal term.
    pub fn copy(&self) -> Result<Term, NoMemory>
        ensures { IfOk result (λ c. c ≡ self.now) }
    {
        Ok(match self {
            Term::Given(cell) => Term::Given(cell.copy()?),
            Term::Bound(n) => Term::Bound(*n),
        })
    }
}

impl Terms {
    /// Equal terms.
    pub fn copy(&self) -> Result<Terms, NoMemory>
        ensures { IfOk result (λ c. c ≡ self.now) }
    {
        Ok(match self {
            Terms::Given(list) => Terms::Given(copy_list(list)?),
            Terms::Bound(n) => Terms::Bound(*n),
        })
    }
}

fn copy_compare(path: &Path, op: CondOp, term: &Term) -> Result<Cond, NoMemory>
    ensures { IfOk result (λ c. c ≡ Cond.Compare path.now op term.now) }
{
    Ok(Cond::Compare(path.copy()?, op, term.copy()?))
}

fn copy_within(path: &Path, negated: bool, terms: &Terms) -> Result<Cond, NoMemory>
    ensures { IfOk result (λ c. c ≡ Cond.Within path.now negated terms.now) }
{
    Ok(Cond::Within(path.copy()?, negated, terms.copy()?))
}

impl Cond {
    /// An equal condition.
    #[cycle(copy_cond)]
    pub fn copy(&self) -> Result<Cond, NoMemory>
        ensures { IfOk result (λ c. c ≡ self.now) }
    {
        match self {
            Cond::All(list) => Ok(Cond::All(copy_each(list)?)),
            Cond::Any(list) => Ok(Cond::Any(copy_each(list)?)),
            Cond::Not(inner) => {
                let copied = inner.get().copy()?;
                Ok(Cond::Not(Boxed::new(inner.allocator(), copied)?))
            }
            Cond::Compare(path, op, term) => copy_compare(path, *op, term),
            Cond::Within(path, negated, terms) => copy_within(path, *negated, terms),
        }
    }
}

#[cycle(copy_cond)]
fn copy_each(list: &Items<Cond>) -> Result<Items<Cond>, NoMemory>
    ensures { IfOk result (λ v. v ≡ list.now) }
{
    let mut done = Items::new(list.allocator());
    for cond in list.as_slice() {
        done.push(cond.copy()?)?;
    }
    Ok(done)
}

impl SortKey {
    /// An equal key.
    pub fn copy(&self) -> Result<SortKey, NoMemory>
        ensures { IfOk result (λ c. c ≡ self.now) }
    {
        Ok(SortKey {
            path: self.path.copy()?,
            descending: self.descending,
            nulls_last: self.nulls_last,
        })
    }
}

fn copy_count(term: &Option<Term>) -> Result<Option<Term>, NoMemory>
    ensures { IfOk result (λ c. c ≡ term.now) }
{
    Ok(match term {
        Some(term) => Some(term.copy()?),
        None => None,
    })
}

impl Query {
    /// An equal query.
    #[cycle(copy_query)]
    pub fn copy(&self) -> Result<Query, NoMemory>
        ensures { IfOk result (λ c. c ≡ self.now) }
    {
        Ok(Query {
            object: self.object,
            counted: self.counted,
            paths: copy_list(&self.paths)?,
            children: copy_subqueries(&self.children)?,
            cond: self.cond.copy()?,
            keys: copy_list(&self.keys)?,
            limit: copy_count(&self.limit)?,
            offset: copy_count(&self.offset)?,
            locked: self.locked,
        })
    }
}

impl SubQuery {
    /// An equal subquery.
    #[cycle(copy_query)]
    pub fn copy(&self) -> Result<SubQuery, NoMemory>
        ensures { IfOk result (λ c. c ≡ self.now) }
    {
        Ok(SubQuery {
            lookup: self.lookup,
            query: self.query.copy()?,
        })
    }
}

#[cycle(copy_query)]
fn copy_subqueries(list: &Items<SubQuery>) -> Result<Items<SubQuery>, NoMemory>
    ensures { IfOk result (λ v. v ≡ list.now) }
{
    let mut done = Items::new(list.allocator());
    for child in list.as_slice() {
        done.push(child.copy()?)?;
    }
    Ok(done)
}

impl Bind {
    /// An equal value.
    pub fn copy(&self) -> Result<Bind, NoMemory>
        ensures { IfOk result (λ c. c ≡ self.now) }
    {
        Ok(match self {
            Bind::One(cell) => Bind::One(cell.copy()?),
            Bind::Many(cells) => Bind::Many(copy_list(cells)?),
        })
    }
}

impl Question {
    /// An equal question.
    pub fn copy(&self) -> Result<Question, NoMemory>
        ensures { IfOk result (λ c. c ≡ self.now) }
    {
        Ok(match self {
            Question::Read { object, cond } => Question::Read {
                object: *object,
                cond: Boxed::new(cond.allocator(), cond.get().copy()?)?,
            },
            Question::Grab { ids } => Question::Grab {
                ids: copy_values(ids)?,
            },
        })
    }
}

impl Answer {
    /// An equal answer.
    pub fn copy(&self) -> Result<Answer, NoMemory>
        ensures { IfOk result (λ c. c ≡ self.now) }
    {
        Ok(match self {
            Answer::Rows(rows) => Answer::Rows(copy_list(rows)?),
            Answer::Granted => Answer::Granted,
        })
    }
}

impl Copied for Path {
    fn copied(&self) -> Result<Path, NoMemory> {
        self.copy()
    }
}

impl Copied for Term {
    fn copied(&self) -> Result<Term, NoMemory> {
        self.copy()
    }
}

impl Copied for SortKey {
    fn copied(&self) -> Result<SortKey, NoMemory> {
        self.copy()
    }
}
