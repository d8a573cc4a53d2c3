// The typed trees of expressions. Numbers of objects and their fields are those of the schema, and those of classes are
// the places of their units among those that are classes and interfaces. A member of a class has the number of its place
// among the fields, the methods or the constructors of the class in its text. All count from 0.

use apex_list::{Boxed, Items};
use apex_rows::Query;
use builtin_table::{Builtin, ExceptionClass};
use static_types::Primitive;

/// A constant.
#[derive(Drop)]
pub enum Constant {
    Null,
    Bool(bool),
    /// An Integer or a Long.
    Whole(i64),
    /// The millionths of a Decimal.
    Decimal(u64),
    /// The bytes of a String.
    Text(Items<u8>),
}

/// A type of numbers.
#[derive(Clone, Copy, PartialEq, Eq, Drop)]
pub enum Number {
    Integer,
    Long,
    Decimal,
}

/// An operator on numbers.
#[derive(Clone, Copy, PartialEq, Eq, Drop)]
pub enum Arithmetic {
    Plus,
    Minus,
    Times,
    Over,
}

/// A comparison by order.
#[derive(Clone, Copy, PartialEq, Eq, Drop)]
pub enum Order {
    Less,
    AtMost,
    More,
    AtLeast,
}

/// How a value of one type becomes one of another.
#[derive(Clone, Copy, PartialEq, Eq, Drop)]
pub enum Conversion {
    /// It stays what it is.
    Same,
    /// An Integer becomes a Long.
    ToLong,
    /// An Integer or a Long becomes a Decimal.
    ToDecimal,
    /// A String becomes an Id.
    ToId,
    /// An Id becomes a String of 18 characters.
    ToText,
    /// The records of a query become the only one of them.
    ToRecord,
}

/// A binary operator whose operands have the types that it needs.
#[derive(Clone, Copy, PartialEq, Eq, Drop)]
pub enum TypedOp {
    /// Both are numbers of this type.
    Arithmetic(Arithmetic, Number),
    /// The texts of two primitives, one behind the other.
    Join,
    /// `==`
    Equal,
    /// `!=`
    Differs,
    Order(Order),
    /// `&&`
    And,
    /// `||`
    Or,
}

/// `++` or `--`, before or behind what is changed.
#[derive(Clone, Copy, PartialEq, Eq, Drop)]
pub struct StepKind {
    /// `++`, and not `--`
    pub up: bool,
    /// Whether it stands before, so that its value is the new one.
    pub before: bool,
}

/// A variable of a trigger.
#[derive(Clone, Copy, PartialEq, Eq, Drop)]
pub enum TriggerVariable {
    New,
    Old,
    NewMap,
    OldMap,
    IsInsert,
    IsUpdate,
    IsDelete,
    IsBefore,
    IsAfter,
    Size,
}

/// A constructor of a class.
#[derive(Clone, Copy, PartialEq, Eq, Drop)]
pub enum Constructor {
    /// The one without parameters of a class that declares none.
    Implied,
    /// The one of an exception class that takes nothing or a message.
    Exception,
    /// The declared one at this place.
    Declared(usize),
}

/// A kind of collection.
#[derive(Clone, Copy, PartialEq, Eq, Drop)]
pub enum CollectionKind {
    List,
    /// Of primitives of this type.
    Set(Primitive),
    /// The type of the keys.
    Map(Primitive),
}

/// An operator with an assignment: how the variable's value becomes the left operand, the operator, how the value becomes
/// the right operand, and how what the operator gives becomes the variable's value.
#[derive(Clone, Copy, PartialEq, Eq, Drop)]
pub struct Assignment {
    pub left: Conversion,
    pub op: TypedOp,
    pub right: Conversion,
    pub back: Conversion,
}

/// An expression.
#[derive(Drop)]
#[cycle(typed)]
pub enum TypedExpr {
    Constant(Constant),
    /// The local in a slot.
    Local(usize),
    /// The static of a class.
    Static(usize, usize),
    /// `this`
    This,
    TriggerVariable(TriggerVariable),
    /// A value and what goes on with it, from left to right.
    Postfix(Boxed<TypedExpr>, Items<TypedPart>),
    /// A first operand, and operators with their right operands, from left to right.
    Chain(Boxed<TypedExpr>, Items<TypedOperand>),
    Convert(Conversion, Boxed<TypedExpr>),
    /// `!`
    Not(Boxed<TypedExpr>),
    /// `-` of a number of this type.
    Minus(Number, Boxed<TypedExpr>),
    /// `a ? b : c`
    Conditional(Boxed<TypedExpr>, Boxed<TypedExpr>, Boxed<TypedExpr>),
    /// A variable and its new value.
    Assign(Boxed<TypedPlace>, Boxed<TypedExpr>),
    /// A variable, the operator, and the value that becomes its right operand.
    AssignWith(Boxed<TypedPlace>, Assignment, Boxed<TypedExpr>),
    /// A variable that is a number of this type.
    Step(StepKind, Number, Boxed<TypedPlace>),
    /// An instance that has to be one of this class.
    Cast(usize, Boxed<TypedExpr>),
    /// An exception that has to be one of this built-in class.
    CastException(ExceptionClass, Boxed<TypedExpr>),
    New(Boxed<TypedNew>),
    /// The static method of a class, with its arguments.
    CallStatic(usize, usize, Items<TypedExpr>),
    /// A built-in method that is called on a type.
    CallBuiltin(Builtin, Items<TypedExpr>),
    /// `System.debug`
    Debug(Boxed<TypedExpr>),
    /// A query, and its binds in the order of the text.
    Query(Boxed<Query>, Items<TypedBind>),
}

/// A variable that may be assigned to: its parts come before the value, and the value before the store.
#[derive(Drop)]
#[cycle(typed)]
pub enum TypedPlace {
    /// The local in a slot.
    Local(usize),
    /// The static of a class.
    Static(usize, usize),
    /// The field of an instance: the instance, and the class that has the field.
    Field(Boxed<TypedExpr>, usize, usize),
    /// The cell of a record: the record, its object and the field. Where the mark says so, the record is what a relation of
    /// the same path leads to; such a cell is read as null where the record is, and a store still fails.
    Cell(Boxed<TypedExpr>, usize, usize, bool),
    /// The element of a list.
    Index(Boxed<TypedExpr>, Boxed<TypedExpr>),
}

/// A bind of a query.
#[derive(Drop)]
#[cycle(typed)]
pub enum TypedBind {
    One(Boxed<TypedExpr>),
    /// The items of a list or a set, each converted so.
    Many(Conversion, Boxed<TypedExpr>),
}

/// What goes on with a value.
#[derive(Drop)]
#[cycle(typed)]
pub enum TypedPart {
    /// The field of an instance: the class that has it.
    Field(usize, usize),
    /// The cell of a record: the object and the field. Where the mark says so, the record is what a relation of the same
    /// path leads to, and where it is null so is the cell.
    Cell(usize, usize, bool),
    /// The record that a cell of a record leads to, with a mark as before.
    Parent(usize, usize, bool),
    /// The records that lead to a record: their object, and the field that does; with a mark as before.
    Children(usize, usize, bool),
    /// The element of a list.
    Index(Boxed<TypedExpr>),
    /// A method of an instance: the class that has it; the mark says that the nearest method of the instance's own class
    /// is called.
    Call(usize, usize, bool, Items<TypedExpr>),
    /// A built-in method.
    Builtin(Builtin, Items<TypedExpr>),
}

/// A binary operator, how what stands before it becomes its left operand, what stands behind it, and how that becomes its
/// right operand. Both become operands once both were evaluated.
#[derive(Drop)]
#[cycle(typed)]
pub struct TypedOperand {
    pub left: Conversion,
    pub op: TypedOp,
    pub right: Conversion,
    pub value: Boxed<TypedExpr>,
}

/// What `new` makes.
#[derive(Drop)]
#[cycle(typed)]
pub enum TypedNew {
    /// An instance of a class.
    Instance(usize, Constructor, Items<TypedExpr>),
    /// An exception of a built-in class, with a message or without.
    Exception(ExceptionClass, Items<TypedExpr>),
    /// A record of an object, with values of its fields.
    Record(usize, Items<TypedPair>),
    /// A list or a set of these items.
    Collection(CollectionKind, Items<TypedExpr>),
    /// A map of these keys and values.
    Map(Primitive, Items<TypedItem>),
    /// A collection of what is in another one.
    Copy(CollectionKind, Boxed<TypedExpr>),
    /// A map of records by their Ids.
    ById(Boxed<TypedExpr>),
}

/// The value of a field of a new record.
#[derive(Drop)]
#[cycle(typed)]
pub struct TypedPair {
    pub field: usize,
    pub value: Boxed<TypedExpr>,
}

/// A key of a new map, and its value.
#[derive(Drop)]
#[cycle(typed)]
pub struct TypedItem {
    pub key: Boxed<TypedExpr>,
    pub value: Boxed<TypedExpr>,
}
