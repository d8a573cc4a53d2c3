// Chains of binary operators.

ghost use Rattle.std.specs.Prelude.{◌≡◌, IfOk};
ghost use Rattle.type_names.specs.Walks.{Gives, Tells};
ghost use Rattle.typed_values.specs.Alterations.{Alters};
ghost use Rattle.typed_operations.specs.Chains as spec;

use crate::{Fit, Judged, judge};
use apex_list::{Boxed, Items};
use apex_num::NoMemory;
use apex_syntax::BinaryOp;
use class_tables::ClassHeads;
use fault_words::FaultWord;
use static_types::{Primitive, ValueType};
use std::alloc::Global;
use type_names::{TreeFault, WalkFault};
use typed_program::{TypedExpr, TypedOperand};
use typed_values::{Kind, Typed};

/// The operands of a chain up to some place: what they give together, the first one, and the operators behind it.
#[derive(Drop)]
pub struct OpenChain {
    /// The byte place of the first token, from 0.
    pub at: usize,
    pub kind: Kind,
    pub first: Boxed<TypedExpr>,
    pub rest: Items<TypedOperand>,
}

/// The kind of what an operator gives.
pub fn given(gives: Option<Primitive>) -> Kind
    ensures { result ≡ spec.given gives }
{
    match gives {
        Some(p) => Kind::Is(ValueType::Primitive(p)),
        None => Kind::Faulty,
    }
}

/// The first operand alone.
pub fn begun(alloc: Global, value: Typed) -> OpenChain
    ensures { result ≡ spec.begun value }
{
    OpenChain {
        at: value.at,
        kind: value.kind,
        first: value.tree,
        rest: Items::new(alloc),
    }
}

/// How an operator goes with its operands, the left one of which begins at this byte. `WrongType` at it where the operator
/// doesn't take it, and at the right one where it doesn't take that behind it.
pub fn fit_at(
    lines: &ClassHeads,
    left: &Kind,
    at: usize,
    op: BinaryOp,
    right: &Typed,
) -> Result<Fit, TreeFault>
    ensures { Tells (spec.fit_at lines.now.heads left.now at op right.now) result }
{
    match judge(lines, left, op, &right.kind) {
        Judged::Left => Err(TreeFault::new(FaultWord::WrongType, at)),
        Judged::Right => Err(TreeFault::new(FaultWord::WrongType, right.at)),
        Judged::Fits(fit) => Ok(fit),
    }
}

fn with_fit(fit: Fit, value: Boxed<TypedExpr>, chain: &mut OpenChain) -> Result<(), WalkFault>
    ensures { Alters (Gives (spec.with_fit chain.old fit value)) result chain.new }
{
    chain.rest.push(TypedOperand {
        left: fit.left,
        op: fit.op,
        right: fit.right,
        value,
    })?;
    chain.kind = given(fit.gives);
    Ok(())
}

/// One operator and one operand more. `WrongType` at the first token of the chain where the operator doesn't take what
/// stands before it, and at the right operand where it doesn't take that behind it.
pub fn with_operand(
    lines: &ClassHeads,
    op: BinaryOp,
    right: Typed,
    chain: &mut OpenChain,
) -> Result<(), WalkFault>
    ensures { Alters (spec.with_operand lines.now.heads chain.old op right) result chain.new }
{
    let fit = fit_at(lines, &chain.kind, chain.at, op, &right)?;
    with_fit(fit, right.tree, chain)
}

/// The expression that a chain is.
pub fn closed(alloc: Global, chain: OpenChain) -> Result<Typed, NoMemory>
    ensures { IfOk result (λ t. t ≡ spec.closed chain) }
{
    let tree = TypedExpr::Chain(chain.first, chain.rest);
    Typed::plain(alloc, chain.at, chain.kind, tree)
}
