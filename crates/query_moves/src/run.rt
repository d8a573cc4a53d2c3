// Where a query stands.

use apex_list::{Boxed, Items};
use apex_rows::{Answer, Bind, Found, Query};
use apex_schema::Mode;

/// What a query does next.
#[derive(Drop)]
pub enum QueryStage {
    /// It looks at its LIMIT and OFFSET, and is charged.
    Begin,
    /// It finds its rows, on the answers that it had so far.
    Find(Items<Answer>),
    /// It has found these rows, and holds them where it is one with FOR UPDATE, on the answers that it had for that.
    Hold(Items<Found>, Items<Answer>),
}

/// A query on its way: the query, the values of its binds in the order of the text, and the sharing mode that it runs in.
#[derive(Drop)]
pub struct QueryRun {
    pub query: Boxed<Query>,
    pub binds: Items<Bind>,
    pub mode: Mode,
    pub stage: QueryStage,
}
