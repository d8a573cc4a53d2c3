// What ties tests and rules.

ghost use Rattle.apex_parse_expr.specs.Laws.{TokenLaws, BeginLaws};

/// The operators of one token are read exactly where the tests of them hold.
pub fn laws_of_tokens()
    ensures { TokenLaws }
{}

/// Types, expressions and what goes on with them are read only where the tests that look ahead hold.
pub fn laws_of_beginnings()
    ensures { BeginLaws }
{}
