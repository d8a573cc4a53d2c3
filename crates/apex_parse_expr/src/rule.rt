// The rule of a bind in code.

ghost use Rattle.apex_parse_expr.specs.Exprs as grammar;

use soql_parse::BindRule;

/// Binds are expressions, and no more than `room` forms may be open inside of one.
#[derive(Drop)]
pub struct InCode {
    pub room: usize,
}

impl BindRule for InCode {
    ghost rule = { λ how inside. grammar.binds how.room inside };
}
