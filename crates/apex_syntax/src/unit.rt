// The trees of units. Each tree's span goes from its first token to its last one: byte places from 0.

use crate::expr::{Expr, TypeTree};
use crate::stmt::{Body, Stmt};
use crate::word::Word;
use apex_list::{Boxed, Items};
use apex_text::Span;

/// A class, an interface, a trigger, or the statements of an anonymous block.
#[derive(Drop)]
pub enum Unit {
    Class(ClassTree),
    Interface(InterfaceTree),
    Trigger(TriggerTree),
    Block(Items<Stmt>),
}

/// A class.
#[derive(Drop)]
pub struct ClassTree {
    pub span: Span,
    /// As they are written: one may be repeated, and one may contradict another.
    pub modifiers: Items<ClassModifier>,
    pub name: Word,
    /// The name as it is written.
    pub written: Items<u8>,
    /// The name behind `extends`.
    pub parent: Option<Word>,
    /// The names behind `implements`; none where it isn't written.
    pub interfaces: Items<Word>,
    pub members: Items<MemberTree>,
}

/// A modifier of a class or an interface.
#[derive(Clone, Copy, Drop)]
pub struct ClassModifier {
    pub span: Span,
    pub word: ClassWord,
}

/// What a modifier of a class says.
#[derive(Clone, Copy, Drop)]
pub enum ClassWord {
    Public,
    Global,
    Private,
    Virtual,
    Abstract,
    /// `with sharing`
    WithSharing,
    /// `without sharing`
    WithoutSharing,
    /// `inherited sharing`
    InheritedSharing,
}

/// A member of a class. The span has the modifiers.
#[derive(Drop)]
pub enum MemberTree {
    /// A field, and the value behind its `=`.
    Field(Span, Items<MemberModifier>, TypeTree, Word, Option<Boxed<Expr>>),
    /// A field with `{ get; set; }`
    Property(Span, Items<MemberModifier>, TypeTree, Word),
    /// A method, with a body or with `;`.
    Method(Span, Items<MemberModifier>, ResultTree, Word, Items<ParamTree>, Option<Body>),
    Constructor(Span, Items<MemberModifier>, Word, Items<ParamTree>, Body),
}

/// A modifier of a member.
#[derive(Clone, Copy, Drop)]
pub struct MemberModifier {
    pub span: Span,
    pub word: MemberWord,
}

/// What a modifier of a member says.
#[derive(Clone, Copy, PartialEq, Eq, Drop)]
pub enum MemberWord {
    Public,
    Global,
    Private,
    Protected,
    Static,
    Final,
    Virtual,
    Abstract,
    Override,
}

/// What a method answers.
#[derive(Drop)]
pub enum ResultTree {
    /// `void`
    Void(Span),
    Type(TypeTree),
}

/// A parameter.
#[derive(Drop)]
pub struct ParamTree {
    pub span: Span,
    pub kind: TypeTree,
    pub name: Word,
}

/// An interface.
#[derive(Drop)]
pub struct InterfaceTree {
    pub span: Span,
    /// `public` or `global`
    pub modifier: Option<ClassModifier>,
    pub name: Word,
    /// The name as it is written.
    pub written: Items<u8>,
    pub methods: Items<SignatureTree>,
}

/// A method of an interface; the span has its `;`.
#[derive(Drop)]
pub struct SignatureTree {
    pub span: Span,
    pub result: ResultTree,
    pub name: Word,
    pub params: Items<ParamTree>,
}

/// A trigger.
#[derive(Drop)]
pub struct TriggerTree {
    pub span: Span,
    pub name: Word,
    /// The name as it is written.
    pub written: Items<u8>,
    /// The object behind `on`.
    pub object: Word,
    pub events: Items<EventTree>,
    pub body: Body,
}

/// An event of a trigger.
#[derive(Clone, Copy, Drop)]
pub struct EventTree {
    pub span: Span,
    /// `after`, and not `before`
    pub after: bool,
    pub op: EventOp,
}

/// What is done to records where an event is met.
#[derive(Clone, Copy, PartialEq, Eq, Drop)]
pub enum EventOp {
    Insert,
    Update,
    Delete,
}
