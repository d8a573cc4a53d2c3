// The typed trees of units. Numbers count from 0, as in expressions.

use crate::{Constructor, TypedExpr, TypedStmt};
use apex_list::{Boxed, Items};
use apex_num::Text;
use apex_schema::Mode;
use apex_syntax::EventOp;
use apex_text::Name;

/// A constructor that is called without being written, without arguments.
#[derive(Clone, Copy, PartialEq, Eq, Drop)]
pub struct ImpliedCall {
    pub class: usize,
    pub constructor: Constructor,
}

/// The constructor that a constructor calls before its own statements.
#[derive(Drop)]
pub enum ParentCall {
    /// None: the class has no parent, or `Exception` is its parent.
    Nothing,
    /// The one of its parent without parameters.
    Implied(ImpliedCall),
    /// `super(..)`: this one of this class, with its arguments.
    Super(usize, Constructor, Items<TypedExpr>),
    /// `super(..)` where `Exception` is the parent: a message, or nothing.
    Exception(Items<TypedExpr>),
    /// `this(..)`: this one of its own class, with its arguments; the fields have their initial values by that one.
    This(Constructor, Items<TypedExpr>),
}

/// What a class extends.
#[derive(Clone, Copy, PartialEq, Eq, Drop)]
pub enum ParentClass {
    Nothing,
    /// `Exception`
    Exception,
    /// The class with this number.
    Class(usize),
}

/// A field or a static of a class, with its initial value; without one it is null at first.
#[derive(Drop)]
pub struct TypedField {
    pub is_static: bool,
    pub value: Option<Boxed<TypedExpr>>,
}

/// A method.
#[derive(Drop)]
pub struct TypedMethod {
    /// Its name, folded.
    pub name: Name,
    /// The number of its parameters, which have the first slots.
    pub params: usize,
    pub is_static: bool,
    /// `None` where it has no body.
    pub body: Option<Items<TypedStmt>>,
}

/// A constructor.
#[derive(Drop)]
pub struct TypedConstructor {
    pub parent: ParentCall,
    pub stmts: Items<TypedStmt>,
}

/// A class or an interface, and what stands in its members, each kind in the order of the text.
#[derive(Drop)]
pub struct TypedClass {
    /// Its name as it is written.
    pub name: Text,
    pub parent: ParentClass,
    /// The numbers of the interfaces that it names.
    pub interfaces: Items<usize>,
    /// Whether its code runs with sharing; `None` where it takes its caller's mode.
    pub sharing: Option<Mode>,
    /// What the constructor of a class that declares none calls of its parent.
    pub implied: Option<ImpliedCall>,
    pub fields: Items<TypedField>,
    pub methods: Items<TypedMethod>,
    pub constructors: Items<TypedConstructor>,
}

/// An event of a trigger: before or after records are saved so.
#[derive(Clone, Copy, PartialEq, Eq, Drop)]
pub struct TypedEvent {
    /// `after`, and not `before`
    pub after: bool,
    pub op: EventOp,
}

/// A trigger.
#[derive(Drop)]
pub struct TypedTrigger {
    /// Its name as it is written.
    pub name: Text,
    /// Its name, folded; triggers run in the order of these.
    pub folded: Name,
    /// The number of its object.
    pub object: usize,
    pub events: Items<TypedEvent>,
    pub body: Items<TypedStmt>,
}
