//! The trees of Apex source: those of queries, expressions, statements and units, with their spans (docs/language.md).
#![tactic(auto)]

mod expr;
mod nesting;
mod query;
mod stmt;
mod unit;
mod word;

pub use expr::{
    AssignOp, BinaryOp, Expr, FieldValue, Literal, NewItem, NewPart, Operand, PostfixPart,
    PrefixOp, StepOp, TypeTree,
};
pub use nesting::depth;
pub use query::{
    BindRange, BindTree, CompareOp, CondTree, CountTree, KeyTree, ListTree, NumberTree, OrderTree,
    PathTree, QueryTree, SelTree, SelectTree, ValueTree,
};
pub use stmt::{Body, Catch, Declarator, DmlOp, ForStart, Stmt};
pub use unit::{
    ClassModifier, ClassTree, ClassWord, EventOp, EventTree, InterfaceTree, MemberModifier,
    MemberTree, MemberWord, ParamTree, ResultTree, SignatureTree, TriggerTree, Unit,
};
pub use word::Word;
