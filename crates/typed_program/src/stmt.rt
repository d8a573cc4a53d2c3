// The typed trees of statements. Numbers count from 0, as in `typed_trees`.

use crate::{Conversion, TypedExpr};
use apex_list::{Boxed, Items};
use apex_syntax::DmlOp;
use static_types::ValueType;

/// A statement.
#[derive(Drop)]
#[cycle(typed_stmt)]
pub enum TypedStmt {
    /// Statements in braces, which charge for themselves alone; a `;` by itself is none in braces.
    Block(Items<TypedStmt>),
    /// One or more locals, in this order.
    Declare(Items<TypedLocal>),
    Expr(TypedExpr),
    /// A condition, a statement, and the one behind `else`.
    If(TypedExpr, Boxed<TypedStmt>, Option<Boxed<TypedStmt>>),
    While(TypedExpr, Boxed<TypedStmt>),
    Do(Boxed<TypedStmt>, TypedExpr),
    /// What it begins with, its condition, its step and its statement.
    For(TypedStart, Option<TypedExpr>, Option<TypedExpr>, Boxed<TypedStmt>),
    /// The slot that has each item in turn, how an item becomes its value, and the list or set.
    ForEach(usize, Conversion, TypedExpr, Boxed<TypedStmt>),
    Return(Option<TypedExpr>),
    Break,
    Continue,
    Throw(TypedExpr),
    /// Statements, what catches, and what stands behind `finally`.
    Try(Items<TypedStmt>, Items<TypedCatch>, Option<Items<TypedStmt>>),
    Dml(DmlOp, Saved, TypedExpr),
}

/// What catches exceptions of a type, which the slot has then.
#[derive(Drop)]
#[cycle(typed_stmt)]
pub struct TypedCatch {
    pub kind: ValueType,
    pub slot: usize,
    pub body: Items<TypedStmt>,
}

/// A new local in its slot, with its value; without one it is null.
#[derive(Drop)]
pub struct TypedLocal {
    pub slot: usize,
    pub value: Option<Boxed<TypedExpr>>,
}

/// What a `for` begins with.
#[derive(Drop)]
pub enum TypedStart {
    Nothing,
    Declare(Items<TypedLocal>),
    Expr(Boxed<TypedExpr>),
}

/// What a statement saves.
#[derive(Clone, Copy, PartialEq, Eq, Drop)]
pub enum Saved {
    /// A record of this object.
    One(usize),
    /// A list of records of this object.
    Many(usize),
    /// `null`
    Nothing,
}
