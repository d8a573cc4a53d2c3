// The trees of types and expressions. Each tree's span goes from its first token to its last one: byte places from 0.

use crate::query::{NumberTree, QueryTree};
use crate::word::Word;
use apex_list::{Boxed, Items};
use apex_text::Span;

/// A type as it is written.
#[derive(Drop)]
pub struct TypeTree {
    pub span: Span,
    /// The first name.
    pub name: Word,
    /// The name behind a dot.
    pub member: Option<Word>,
    /// What stands between `<` and `>`: nothing, one type or two.
    pub args: Items<TypeTree>,
    /// How many pairs of `[` and `]` stand behind it.
    pub arrays: usize,
}

/// A literal, or a word that stands for a value.
#[derive(Drop)]
pub enum Literal {
    Number(NumberTree),
    /// The bytes that a text literal stands for, without its quotes and escapes.
    Text(Items<u8>),
    Bool(bool),
    Null,
}

/// A prefix operator.
#[derive(Clone, Copy, Drop)]
pub enum PrefixOp {
    /// `!`
    Not,
    /// `-`
    Minus,
    /// `++`
    Increment,
    /// `--`
    Decrement,
}

/// A binary operator.
#[derive(Clone, Copy, Drop)]
pub enum BinaryOp {
    /// `||`
    Or,
    /// `&&`
    And,
    /// `==`
    Equal,
    /// `!=`
    Differs,
    /// `<`
    Less,
    /// `<=`
    AtMost,
    /// `>`
    More,
    /// `>=`
    AtLeast,
    /// `+`
    Plus,
    /// `-`
    Minus,
    /// `*`
    Times,
    /// `/`
    Over,
}

/// An operator that assigns.
#[derive(Clone, Copy, Drop)]
pub enum AssignOp {
    /// `=`
    Assign,
    /// `+=`
    Add,
    /// `-=`
    Subtract,
    /// `*=`
    Multiply,
    /// `/=`
    Divide,
}

/// What stands behind the last part of a postfix expression.
#[derive(Clone, Copy, PartialEq, Eq, Drop)]
pub enum StepOp {
    /// `++`
    Increment,
    /// `--`
    Decrement,
}

/// An expression.
#[derive(Drop)]
#[cycle(expr)]
pub enum Expr {
    Literal(Span, Literal),
    This(Span),
    Super(Span),
    Name(Word),
    /// A name with arguments.
    Call(Span, Word, Items<Expr>),
    Paren(Span, Boxed<Expr>),
    /// `new type` and what stands behind it.
    New(Span, TypeTree, NewPart),
    /// A query in brackets; the span has them.
    Query(Span, Boxed<QueryTree>),
    /// A primary expression with one or more parts behind it.
    Postfix(Span, Boxed<Expr>, Items<PostfixPart>),
    Prefix(Span, PrefixOp, Boxed<Expr>),
    Cast(Span, TypeTree, Boxed<Expr>),
    /// A first operand, and one or more operators of one precedence with their operands.
    Chain(Span, Boxed<Expr>, Items<Operand>),
    /// `a ? b : c`
    Conditional(Span, Boxed<Expr>, Boxed<Expr>, Boxed<Expr>),
    Assign(Span, Boxed<Expr>, AssignOp, Boxed<Expr>),
}

/// A binary operator and the operand on its right.
#[derive(Drop)]
#[cycle(expr)]
pub struct Operand {
    pub op: BinaryOp,
    pub right: Boxed<Expr>,
}

/// What goes on with a primary expression.
#[derive(Drop)]
#[cycle(expr)]
pub enum PostfixPart {
    /// A dot and a name.
    Field(Word),
    /// A dot, a name and arguments; the span goes from the name on.
    Call(Span, Word, Items<Expr>),
    /// An index in brackets; the span has them.
    Index(Span, Boxed<Expr>),
    /// `++` or `--`, which nothing follows.
    Step(Span, StepOp),
}

/// What stands behind `new` and a type. The spans have the parentheses and braces.
#[derive(Drop)]
#[cycle(expr)]
pub enum NewPart {
    Args(Span, Items<Expr>),
    /// One or more fields with their values.
    Fields(Span, Items<FieldValue>),
    Items(Span, Items<NewItem>),
}

/// `name = expr`
#[derive(Drop)]
#[cycle(expr)]
pub struct FieldValue {
    pub field: Word,
    pub value: Boxed<Expr>,
}

/// An item of a new collection, and the value behind its `=>`.
#[derive(Drop)]
#[cycle(expr)]
pub struct NewItem {
    pub item: Boxed<Expr>,
    pub value: Option<Boxed<Expr>>,
}
