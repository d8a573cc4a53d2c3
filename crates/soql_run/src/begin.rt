// How a query begins.

ghost use Rattle.std.specs.Prelude.{◌≡◌};
ghost use Rattle.query_moves.specs.Moves as spec;

use apex_list::{Boxed, Items};
use apex_rows::{Bind, Query};
use apex_schema::Mode;
use query_moves::{QueryRun, QueryStage};

/// A query whose binds have these values, in a sharing mode, before its first move. It takes no memory.
pub fn first_run(query: Boxed<Query>, binds: Items<Bind>, mode: Mode) -> QueryRun
    ensures { result ≡ spec.first_run query binds mode }
{
    QueryRun {
        query,
        binds,
        mode,
        stage: QueryStage::Begin,
    }
}
