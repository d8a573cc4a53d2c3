// Expressions with what is known of them.

ghost use Rattle.std.specs.Prelude.{◌≡◌, IfOk};
ghost use Rattle.typed_values.specs.Fits as spec;

use apex_list::Boxed;
use apex_num::NoMemory;
use static_types::{TypeName, ValueType};
use std::alloc::Global;
use typed_program::TypedExpr;

/// What is known of the type of an expression.
#[derive(Drop)]
pub enum Kind {
    /// It is no value: a call that answers nothing, or a name that stands for no value.
    Nothing,
    /// `null`, which fits everywhere.
    Null,
    /// Its type has a fault that is told later; it fits everywhere.
    Faulty,
    Is(ValueType),
}

/// What a name before a dot stands for where it is no value.
#[derive(Clone, Copy, Drop)]
pub enum Space {
    /// The class or interface with this number.
    Class(usize),
    /// The object with this number.
    Record(usize),
    /// A built-in type.
    Named(TypeName),
    System,
    Database,
    Math,
    Limits,
    UserInfo,
    Trigger,
}

/// What may be done with an expression beside reading its value.
#[derive(Clone, Copy, Drop)]
pub enum Role {
    Plain,
    /// It is a query itself, so that it may stand for its only record.
    Query,
    /// It may be assigned to.
    Variable,
    /// It is the record that a relation leads to, so that the path may go on where it is null.
    Relation,
    /// `super`
    Super,
    /// It is no value; names may stand behind a dot.
    Space(Space),
}

/// An expression whose names and types are known. The byte place of its first token counts from 0.
#[derive(Drop)]
pub struct Typed {
    pub at: usize,
    pub kind: Kind,
    pub role: Role,
    pub tree: Boxed<TypedExpr>,
}

impl Typed {
    /// An expression of these parts.
    pub fn of(
        alloc: Global,
        at: usize,
        kind: Kind,
        role: Role,
        tree: TypedExpr,
    ) -> Result<Typed, NoMemory>
        ensures { IfOk result (λ t. t ≡ spec.typed at kind role tree) }
    {
        let tree = Boxed::new(alloc, tree)?;
        Ok(Typed {
            at,
            kind,
            role,
            tree,
        })
    }

    /// An expression that is read for its value alone.
    pub fn plain(alloc: Global, at: usize, kind: Kind, tree: TypedExpr) -> Result<Typed, NoMemory>
        ensures { IfOk result (λ t. t ≡ spec.plain at kind tree) }
    {
        Typed::of(alloc, at, kind, Role::Plain, tree)
    }
}
