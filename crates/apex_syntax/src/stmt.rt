// The trees of statements.

use crate::expr::{Expr, TypeTree};
use crate::word::Word;
use apex_list::{Boxed, Items};
use apex_text::Span;

/// Statements in braces; the span has them.
#[derive(Drop)]
#[cycle(stmt)]
pub struct Body {
    pub span: Span,
    pub stmts: Items<Stmt>,
}

/// A statement.
#[derive(Drop)]
#[cycle(stmt)]
pub enum Stmt {
    Block(Body),
    /// `;`
    Empty(Span),
    Declare(Span, TypeTree, Items<Declarator>),
    Expr(Span, Boxed<Expr>),
    /// A condition, a statement, and the one behind `else`.
    If(Span, Boxed<Expr>, Boxed<Stmt>, Option<Boxed<Stmt>>),
    While(Span, Boxed<Expr>, Boxed<Stmt>),
    Do(Span, Boxed<Stmt>, Boxed<Expr>),
    /// What it begins with, its condition, its step and its statement.
    For(Span, ForStart, Option<Boxed<Expr>>, Option<Boxed<Expr>>, Boxed<Stmt>),
    /// `for (type name : list) stmt`
    ForEach(Span, TypeTree, Word, Boxed<Expr>, Boxed<Stmt>),
    Return(Span, Option<Boxed<Expr>>),
    Break(Span),
    Continue(Span),
    Throw(Span, Boxed<Expr>),
    Try(Span, Body, Items<Catch>, Option<Body>),
    Dml(Span, DmlOp, Boxed<Expr>),
    /// `this(..);`
    This(Span, Items<Expr>),
    /// `super(..);`
    Super(Span, Items<Expr>),
}

/// A name of a declaration, and its value.
#[derive(Drop)]
pub struct Declarator {
    pub name: Word,
    pub value: Option<Boxed<Expr>>,
}

/// What stands before the first `;` of a `for`.
#[derive(Drop)]
pub enum ForStart {
    Nothing,
    /// Each name has a value.
    Declare(TypeTree, Items<Declarator>),
    Expr(Boxed<Expr>),
}

/// `catch (class name) { .. }`
#[derive(Drop)]
#[cycle(stmt)]
pub struct Catch {
    pub span: Span,
    pub class: Word,
    /// The name behind a dot of the class.
    pub member: Option<Word>,
    pub name: Word,
    pub body: Body,
}

/// A statement that changes records.
#[derive(Clone, Copy, Debug, PartialEq, Eq, Drop)]
pub enum DmlOp {
    Insert,
    Update,
    Delete,
    Upsert,
}
