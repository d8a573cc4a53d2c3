// What is made of the parts of an expression.

ghost use Rattle.std.specs.Prelude.{◌≡◌, IfOk};
ghost use Rattle.name_meanings.specs.Settings.{around};
ghost use Rattle.type_names.specs.Walks.{Comes, Gives, Tells};
ghost use Rattle.expression_walk.specs.Leaves as spec;

use apex_list::Items;
use apex_num::NoMemory;
use apex_syntax::{AssignOp, BinaryOp, Literal, NumberTree, PrefixOp, StepOp};
use class_tables::ClassHeads;
use fault_words::FaultWord;
use method_calls::Callee;
use name_meanings::Setting;
use static_types::{Primitive, ValueType};
use std::alloc::Global;
use type_names::{TreeFault, WalkFault};
use typed_calls::{builtin_call, debug_call, method_call, static_call, type_call};
use typed_operations::{Target, assigned, assigned_with, negated, opposite, stepped};
use typed_program::{Constant, StepKind, TypedExpr};
use typed_values::{Kind, Role, Typed};

fn primitive(
    alloc: Global,
    at: usize,
    kind: Primitive,
    constant: Constant,
) -> Result<Typed, NoMemory>
    ensures { IfOk result (λ t. t ≡ spec.primitive at kind constant) }
{
    let kind = Kind::Is(ValueType::Primitive(kind));
    Typed::plain(alloc, at, kind, TypedExpr::Constant(constant))
}

fn number(alloc: Global, at: usize, number: NumberTree) -> Result<Typed, NoMemory>
    ensures { IfOk result (λ t. t ≡ spec.number at number) }
{
    match number {
        NumberTree::Integer(n) => {
            let constant = Constant::Whole(i64::from(n));
            primitive(alloc, at, Primitive::Integer, constant)
        }
        NumberTree::Long(n) => primitive(alloc, at, Primitive::Long, Constant::Whole(n)),
        NumberTree::Decimal(n) => primitive(alloc, at, Primitive::Decimal, Constant::Decimal(n)),
    }
}

fn text(alloc: Global, at: usize, bytes: &Items<u8>) -> Result<Typed, NoMemory>
    ensures { IfOk result (λ t. t ≡ spec.text at bytes.now) }
{
    let bytes = Items::from_slice(alloc, bytes.as_slice())?;
    primitive(alloc, at, Primitive::String, Constant::Text(bytes))
}

fn constant(alloc: Global, at: usize, literal: &Literal) -> Result<Typed, NoMemory>
    ensures { IfOk result (λ t. t ≡ spec.literal at literal.now) }
{
    match literal {
        Literal::Number(n) => number(alloc, at, *n),
        Literal::Text(bytes) => text(alloc, at, bytes),
        Literal::Bool(b) => primitive(alloc, at, Primitive::Boolean, Constant::Bool(*b)),
        Literal::Null => {
            Typed::plain(alloc, at, Kind::Null, TypedExpr::Constant(Constant::Null))
        }
    }
}

/// A literal that stands at this byte.
pub fn literal(alloc: Global, at: usize, literal: &Literal) -> Result<Typed, WalkFault>
    ensures { Comes (Gives (spec.literal at literal.now)) result }
{
    Ok(constant(alloc, at, literal)?)
}

/// Whether an expression is a value, and not the name of a class and its like, or `super`.
pub fn is_value(role: Role) -> bool
    ensures { result ≡ spec.is_value role }
{
    match role {
        Role::Space(_) | Role::Super => false,
        Role::Plain | Role::Query | Role::Variable | Role::Relation => true,
    }
}

/// An expression where a value is needed: `WrongType` at a name that is none, and at `super`.
pub fn value_of(value: Typed) -> Result<Typed, TreeFault>
    ensures { Tells (spec.value_of value) result }
{
    if is_value(value.role) {
        Ok(value)
    } else {
        Err(TreeFault::new(FaultWord::WrongType, value.at))
    }
}

/// A value in parentheses, the first of which stands at this byte: it is read for its value alone.
pub fn in_parentheses(at: usize, value: Typed) -> Typed
    ensures { result ≡ spec.in_parentheses at value }
{
    Typed {
        at,
        kind: value.kind,
        role: Role::Plain,
        tree: value.tree,
    }
}

/// A prefix operator, which stands at this byte, and its operand.
pub fn prefixed(
    alloc: Global,
    lines: &ClassHeads,
    at: usize,
    op: PrefixOp,
    value: Typed,
) -> Result<Typed, WalkFault>
    ensures { Comes (spec.prefixed lines.now.heads at op value) result }
{
    match op {
        PrefixOp::Not => negated(alloc, lines, at, value),
        PrefixOp::Minus => opposite(alloc, at, value),
        PrefixOp::Increment => {
            let step = StepKind {
                up: true,
                before: true,
            };
            stepped(alloc, at, step, value)
        }
        PrefixOp::Decrement => {
            let step = StepKind {
                up: false,
                before: true,
            };
            stepped(alloc, at, step, value)
        }
    }
}

fn is_up(op: StepOp) -> bool
    ensures { result ≡ spec.is_up op }
{
    match op {
        StepOp::Increment => true,
        StepOp::Decrement => false,
    }
}

/// `++` or `--` behind an operand.
pub fn stepped_behind(alloc: Global, op: StepOp, value: Typed) -> Result<Typed, WalkFault>
    ensures { Comes (spec.stepped_behind op value) result }
{
    let at = value.at;
    let step = StepKind {
        up: is_up(op),
        before: false,
    };
    stepped(alloc, at, step, value)
}

// The operator that an assignment applies first.
fn operator(op: AssignOp) -> Option<BinaryOp>
    ensures { result ≡ spec.operator op }
{
    match op {
        AssignOp::Assign => None,
        AssignOp::Add => Some(BinaryOp::Plus),
        AssignOp::Subtract => Some(BinaryOp::Minus),
        AssignOp::Multiply => Some(BinaryOp::Times),
        AssignOp::Divide => Some(BinaryOp::Over),
    }
}

/// An assignment, with an operator or without one.
pub fn assigned_by(
    alloc: Global,
    lines: &ClassHeads,
    target: Target,
    op: AssignOp,
    value: Typed,
) -> Result<Typed, WalkFault>
    ensures { Comes (spec.assigned_by lines.now.heads target op value) result }
{
    match operator(op) {
        Some(op) => assigned_with(alloc, lines, target, op, value),
        None => assigned(alloc, lines, target, value),
    }
}

fn own_kind(class: Option<usize>) -> Kind
    ensures { result ≡ spec.own_kind class }
{
    match class {
        Some(class) => Kind::Is(ValueType::Class(class)),
        None => Kind::Nothing,
    }
}

/// What a method is called on whose name stands alone, at this byte.
pub fn own_receiver(alloc: Global, class: Option<usize>, at: usize) -> Result<Typed, NoMemory>
    ensures { IfOk result (λ t. t ≡ spec.own_receiver class at) }
{
    Typed::plain(alloc, at, own_kind(class), TypedExpr::This)
}

/// A call of what its name means, with its arguments; the name stands at this byte.
pub fn called(
    alloc: Global,
    setting: &Setting,
    receiver: Typed,
    callee: Callee,
    name_at: usize,
    args: Items<Typed>,
) -> Result<Typed, WalkFault>
    ensures { Comes (spec.called (around setting.now) receiver callee name_at args) result }
{
    let lines = setting.lines;
    match callee {
        Callee::Static(member) => static_call(alloc, setting, receiver.at, member, name_at, args),
        Callee::Method(member, nearest) => {
            method_call(alloc, setting, receiver, member, nearest, name_at, args)
        }
        Callee::WrongCount => Err(TreeFault::new(FaultWord::WrongArguments, name_at).into()),
        Callee::Builtin(builtin) => builtin_call(alloc, lines, receiver, builtin, name_at, args),
        Callee::OfType(builtin) => type_call(alloc, lines, receiver.at, builtin, name_at, args),
        Callee::Debug => debug_call(alloc, receiver.at, name_at, args),
        Callee::Faulty => Ok(faulty(receiver)),
    }
}

fn faulty(receiver: Typed) -> Typed
    ensures { result ≡ spec.faulty receiver }
{
    Typed {
        at: receiver.at,
        kind: Kind::Faulty,
        role: Role::Plain,
        tree: receiver.tree,
    }
}
