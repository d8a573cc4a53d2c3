// The trees of queries: one variant for each alternative of the grammar, and one field for each part.

use crate::expr::Expr;
use crate::word::Word;
use apex_list::{Boxed, Items};
use apex_text::Span;

/// A query. Each tree's span goes from its first token to its last one: byte places from 0.
#[derive(Drop)]
#[cycle(expr)]
pub struct QueryTree {
    pub span: Span,
    pub select: SelectTree,
    /// The object behind `FROM`.
    pub object: Word,
    /// The condition behind `WHERE`.
    pub cond: Option<Boxed<CondTree>>,
    /// `ORDER BY` and its keys.
    pub order: Option<OrderTree>,
    pub limit: Option<CountTree>,
    pub offset: Option<CountTree>,
    /// `FOR UPDATE`
    pub locked: bool,
}

/// What a query selects.
#[derive(Drop)]
#[cycle(expr)]
pub enum SelectTree {
    /// `COUNT()`
    Count(Span),
    /// One or more paths and subqueries.
    Items(Items<SelTree>),
}

/// An item behind `SELECT`.
#[derive(Drop)]
#[cycle(expr)]
pub enum SelTree {
    Path(PathTree),
    /// A query in parentheses; the span has them.
    Query(Span, Boxed<QueryTree>),
}

/// One to six names with dots between them.
#[derive(Drop)]
pub struct PathTree {
    pub span: Span,
    pub names: Items<Word>,
}

/// A condition.
#[derive(Drop)]
#[cycle(expr)]
pub enum CondTree {
    /// Two or more conditions with `AND` between them.
    All(Span, Items<CondTree>),
    /// Two or more conditions with `OR` between them.
    Any(Span, Items<CondTree>),
    /// `NOT`
    Not(Span, Boxed<CondTree>),
    /// A condition in parentheses.
    Paren(Span, Boxed<CondTree>),
    /// `path op value`
    Compare(Span, PathTree, CompareOp, ValueTree),
    /// `path IN list`, and `path NOT IN list` where the mark says so.
    Within(Span, PathTree, bool, ListTree),
}

/// An operator of a condition.
#[derive(Clone, Copy, Drop)]
pub enum CompareOp {
    /// `=`
    Equal,
    /// `!=` and `<>`
    Differs,
    /// `<`
    Less,
    /// `<=`
    AtMost,
    /// `>`
    More,
    /// `>=`
    AtLeast,
    /// `LIKE`
    Like,
}

/// A value of a condition.
#[derive(Drop)]
#[cycle(expr)]
pub enum ValueTree {
    /// A number, and whether a `-` stands before it.
    Number(Span, bool, NumberTree),
    /// The bytes that a text literal stands for, without its quotes and escapes.
    Text(Span, Items<u8>),
    /// The days from 1970-01-01.
    Date(Span, i32),
    /// The seconds from 1970-01-01T00:00:00Z.
    Moment(Span, i64),
    Bool(Span, bool),
    Null(Span),
    Bind(BindTree),
}

/// A number without a sign.
#[derive(Clone, Copy, Drop)]
pub enum NumberTree {
    Integer(i32),
    Long(i64),
    /// The millionths of a Decimal.
    Decimal(u64),
}

/// What stands behind `IN`.
#[derive(Drop)]
#[cycle(expr)]
pub enum ListTree {
    /// One or more values in parentheses; the span has them.
    Values(Span, Items<ValueTree>),
    Bind(BindTree),
}

/// `ORDER BY` and one or more keys.
#[derive(Drop)]
pub struct OrderTree {
    pub span: Span,
    pub keys: Items<KeyTree>,
}

/// A key of an order.
#[derive(Drop)]
pub struct KeyTree {
    pub span: Span,
    pub path: PathTree,
    /// `DESC`
    pub descending: bool,
    /// `NULLS LAST`
    pub nulls_last: bool,
}

/// What stands behind `LIMIT` and `OFFSET`.
#[derive(Drop)]
#[cycle(expr)]
pub enum CountTree {
    /// An Integer literal.
    Whole(Span, i32),
    Bind(BindTree),
}

/// A bind: a colon and an expression.
#[derive(Drop)]
#[cycle(expr)]
pub enum BindTree {
    /// Its tokens, where they are kept as they are.
    Tokens(BindRange),
    /// Its expression; the span has the colon.
    Expr(Span, Boxed<Expr>),
}

/// The tokens of a bind: the first is the colon, and the expression stands behind that.
#[derive(Clone, Copy, Drop)]
pub struct BindRange {
    pub span: Span,
    /// The place of the colon among the tokens, from 0.
    pub from: usize,
    /// The place of the token behind the bind.
    pub to: usize,
    /// How many forms may still be opened inside of it.
    pub room: usize,
}
