// Queries as far as they are read.

ghost use Rattle.std.specs.Prelude.{◌≡◌, IfOk, OnOk};
ghost use Rattle.type_names.specs.Walks.{Comes, Tells, all};
ghost use Rattle.typed_values.specs.Alterations.{Alters};
ghost use Rattle.query_terms.specs.Besides.{Adds};
ghost use Rattle.query_terms.specs.OpenQueries as spec;

use crate::bind::{list_bind, one_bind};
use crate::path::sort_key;
use apex_list::{Boxed, Items};
use apex_num::NoMemory;
use apex_rows::{Cond, Path, Query, SortKey, SubQuery, Term, Terms};
use apex_syntax::OrderTree;
use class_tables::ClassHeads;
use fault_words::FaultWord;
use record_words::RecordWords;
use static_types::Primitive;
use std::alloc::Global;
use type_names::{TreeFault, WalkFault};
use typed_program::TypedBind;
use typed_values::Typed;

/// A query as far as it is read.
#[derive(Drop)]
pub struct OpenQuery {
    pub object: usize,
    pub counted: bool,
    pub paths: Items<Path>,
    pub children: Items<SubQuery>,
    pub cond: Cond,
    pub keys: Items<SortKey>,
    pub limit: Option<Term>,
    pub offset: Option<Term>,
}

/// A query of an object with nothing behind its `FROM`, which selects nothing yet; takes no memory.
pub fn opened(alloc: Global, object: usize) -> OpenQuery
    ensures { result ≡ spec.opened object }
{
    OpenQuery {
        object,
        counted: false,
        paths: Items::new(alloc),
        children: Items::new(alloc),
        cond: Cond::All(Items::new(alloc)),
        keys: Items::new(alloc),
        limit: None,
        offset: None,
    }
}

/// `COUNT()`.
pub fn counting(so_far: &mut OpenQuery)
    ensures { so_far.new ≡ spec.counting so_far.old }
{
    so_far.counted = true;
}

/// One path more.
pub fn with_path(so_far: &mut OpenQuery, path: Path) -> Result<(), NoMemory>
    ensures { OnOk result (so_far.new ≡ spec.with_path so_far.old path) }
{
    so_far.paths.push(path)?;
    Ok(())
}

/// One subquery more, over the children's field with this number.
pub fn with_child(
    so_far: &mut OpenQuery,
    lookup: usize,
    query: Boxed<Query>,
) -> Result<(), NoMemory>
    ensures { OnOk result (so_far.new ≡ spec.with_child so_far.old lookup query) }
{
    let query = query.into_value();
    so_far.children.push(SubQuery { lookup, query })?;
    Ok(())
}

/// The condition.
pub fn with_cond(so_far: &mut OpenQuery, cond: Boxed<Cond>)
    ensures { so_far.new ≡ spec.with_cond so_far.old cond }
{
    so_far.cond = cond.into_value();
}

/// The limit.
pub fn with_limit(so_far: &mut OpenQuery, limit: Term)
    ensures { so_far.new ≡ spec.with_limit so_far.old limit }
{
    so_far.limit = Some(limit);
}

/// The offset.
pub fn with_offset(so_far: &mut OpenQuery, offset: Term)
    ensures { so_far.new ≡ spec.with_offset so_far.old offset }
{
    so_far.offset = Some(offset);
}

fn sort_keys(
    alloc: Global,
    words: &RecordWords,
    object: usize,
    order: &OrderTree,
) -> Result<Items<SortKey>, WalkFault>
    ensures { Comes (all (spec.key_walks words.now.schema.now.objects object order.now)) result }
{
    let mut keys = Items::new(alloc);
    for key in order.keys.as_slice() {
        let key = sort_key(alloc, words, object, key)?;
        keys.push(key)?;
    }
    Ok(keys)
}

fn ordered(
    alloc: Global,
    words: &RecordWords,
    order: &OrderTree,
    so_far: &mut OpenQuery,
) -> Result<(), WalkFault>
    ensures { Alters (spec.ordered words.now.schema.now.objects so_far.old order.now) result so_far.new }
{
    if so_far.counted {
        return Err(TreeFault::new(FaultWord::BadQuery, order.span.from).into());
    }
    so_far.keys = sort_keys(alloc, words, so_far.object, order)?;
    Ok(())
}

/// The order. `BadQuery` at `ORDER` behind `COUNT()`, and at a path that leads to no field.
pub fn with_order(
    alloc: Global,
    words: &RecordWords,
    order: &Option<OrderTree>,
    so_far: &mut OpenQuery,
) -> Result<(), WalkFault>
    ensures { Alters (spec.with_order words.now.schema.now.objects so_far.old order.now) result so_far.new }
{
    match order {
        Some(order) => ordered(alloc, words, order, so_far),
        None => Ok(()),
    }
}

/// The query as it is.
pub fn closed_query(
    alloc: Global,
    so_far: OpenQuery,
    locked: bool,
) -> Result<Boxed<Query>, NoMemory>
    ensures { IfOk result (λ query. query ≡ spec.closed_query so_far locked) }
{
    let OpenQuery {
        object,
        counted,
        paths,
        children,
        cond,
        keys,
        limit,
        offset,
    } = so_far;
    Boxed::new(
        alloc,
        Query {
            object,
            counted,
            paths,
            children,
            cond,
            keys,
            limit,
            offset,
            locked,
        },
    )
}

/// The term of a bind of one value, which is one bind more, as `one_bind`.
pub fn bound(
    alloc: Global,
    lines: &ClassHeads,
    to: Primitive,
    at: usize,
    value: Typed,
    binds: &mut Items<TypedBind>,
) -> Result<Term, WalkFault>
    ensures { Adds (spec.bound lines.now.heads to at value binds.old) result binds.new }
{
    let n = binds.len();
    let bind = one_bind(alloc, lines, to, at, value)?;
    binds.push(bind)?;
    Ok(Term::Bound(n))
}

/// The terms of a bind behind `IN`, which is one bind more, as `list_bind`.
pub fn bound_list(
    lines: &ClassHeads,
    to: Primitive,
    at: usize,
    value: Typed,
    binds: &mut Items<TypedBind>,
) -> Result<Terms, WalkFault>
    ensures { Adds (spec.bound_list lines.now.heads to at value binds.old) result binds.new }
{
    let n = binds.len();
    let bind = list_bind(lines, to, at, value)?;
    binds.push(bind)?;
    Ok(Terms::Bound(n))
}
