// What is read on the way to a statement.

use apex_list::Boxed;
use apex_syntax::{Expr, ForStart, Stmt, TypeTree, Word};

/// The statements of an `if`.
#[derive(Drop)]
pub struct Ways {
    pub yes: Boxed<Stmt>,
    /// The one behind `else`.
    pub no: Option<Boxed<Stmt>>,
}

/// What stands in the parentheses of a `for`.
#[derive(Drop)]
pub enum ForHead {
    /// A type, a name, and the list behind the colon.
    Each(Boxed<TypeTree>, Word, Boxed<Expr>),
    /// What it begins with, its condition and its step.
    Loop(Boxed<ForStart>, Option<Boxed<Expr>>, Option<Boxed<Expr>>),
}

/// What stands in the parentheses of a `catch`.
#[derive(Drop)]
pub struct Caught {
    pub class: Word,
    /// The name behind a dot of the class.
    pub member: Option<Word>,
    pub name: Word,
}
