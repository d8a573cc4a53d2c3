// Laws of the definitions that the functions of this crate meet. The function does nothing: what it promises is proved.

ghost use Rattle.apex_parse_stmt.specs.Laws as laws;

/// With what statements and expressions begin.
pub fn laws_of_beginnings()
    ensures statements { laws.StmtBegins }
    ensures expressions { laws.ExprBegins }
{}
