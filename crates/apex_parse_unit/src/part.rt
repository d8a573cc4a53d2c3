// What is read on the way to a unit.

use apex_list::{Boxed, Items};
use apex_syntax::{Body, ClassModifier, Expr, ParamTree, ResultTree, TypeTree, Word};

/// The name of a unit, and its bytes as they are written.
#[derive(Drop)]
pub struct UnitName {
    pub word: Word,
    pub written: Items<u8>,
}

/// A member without its modifiers.
#[derive(Drop)]
pub enum MemberBody {
    Field(Boxed<TypeTree>, Word, Option<Boxed<Expr>>),
    Property(Boxed<TypeTree>, Word),
    Method(Boxed<ResultTree>, Word, Items<ParamTree>, Option<Body>),
    Constructor(Word, Items<ParamTree>, Body),
}

/// What stands before the braces of a class.
#[derive(Drop)]
pub struct ClassHead {
    pub modifiers: Items<ClassModifier>,
    pub name: UnitName,
    /// The name behind `extends`.
    pub parent: Option<Word>,
    /// The names behind `implements`.
    pub interfaces: Items<Word>,
}

/// What stands before the braces of an interface.
#[derive(Drop)]
pub struct InterfaceHead {
    pub modifier: Option<ClassModifier>,
    pub name: UnitName,
}

/// What stands before the events of a trigger.
#[derive(Drop)]
pub struct TriggerHead {
    pub name: UnitName,
    /// The object behind `on`.
    pub object: Word,
}
