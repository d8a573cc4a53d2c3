//! What the checker makes of code: typed trees of expressions, statements and units. Every name is a number, locals are
//! slots, every conversion is written, and what stands in a class has the place of its member.
#![tactic(auto)]

mod expr;
mod program;
mod stmt;
mod unit;

pub use expr::{
    Arithmetic, Assignment, CollectionKind, Constant, Constructor, Conversion, Number, Order,
    StepKind, TriggerVariable, TypedBind, TypedExpr, TypedItem, TypedNew, TypedOp, TypedOperand,
    TypedPair, TypedPart, TypedPlace,
};
pub use program::Program;
pub use stmt::{Saved, TypedCatch, TypedLocal, TypedStart, TypedStmt};
pub use unit::{
    ImpliedCall, ParentCall, ParentClass, TypedClass, TypedConstructor, TypedEvent, TypedField,
    TypedMethod, TypedTrigger,
};
