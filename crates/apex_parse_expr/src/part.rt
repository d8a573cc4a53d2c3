// What is read on the way to an expression.

use apex_list::Boxed;
use apex_syntax::Expr;

/// An expression, and whether it can be the target of an assignment.
#[derive(Drop)]
pub struct Part {
    pub tree: Boxed<Expr>,
    pub target: bool,
}

/// What stands behind the `?` of a conditional expression.
#[derive(Drop)]
pub struct Branches {
    pub one: Boxed<Expr>,
    pub other: Boxed<Expr>,
}
