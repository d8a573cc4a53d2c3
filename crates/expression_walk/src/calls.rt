// Calls, and elements of lists.

ghost use Rattle.std.specs.Prelude.{◌≡◌};
ghost use Rattle.type_names.specs.Walks.{Comes};
ghost use Rattle.expression_walk.specs.Expressions as spec;
ghost use Rattle.expression_walk.specs.Views.{sight};

use crate::leaf::{called, own_receiver, value_of};
use crate::view::View;
use crate::walk::{value, values};
use apex_syntax::{Expr, PostfixPart, Word};
use apex_text::Span;
use method_calls::{called_alone, called_on};
use new_values::indexed;
use std::alloc::Global;
use type_names::WalkFault;
use typed_values::Typed;

#[cycle(expr)]
pub fn call(
    alloc: Global,
    view: &View,
    tree: &Expr,
    span: Span,
    word: &Word,
    args: &[Expr],
) -> Result<Typed, WalkFault>
    requires { tree.now ≡ Expr.Call span word.now args.now }
    ensures { Comes (spec.bare (sight view.now) tree.now) result }
{
    let setting = view.setting;
    let at = word.span.from;
    let callee = called_alone(alloc, setting, view.methods, word, args.len())?;
    let args = values(alloc, view, args)?;
    let this = own_receiver(alloc, setting.class, at)?;
    called(alloc, setting, this, callee, at, args)
}

#[cycle(expr)]
pub fn call_on(
    alloc: Global,
    view: &View,
    tree: &PostfixPart,
    span: Span,
    word: &Word,
    args: &[Expr],
    value: Typed,
) -> Result<Typed, WalkFault>
    requires { tree.now ≡ PostfixPart.Call span word.now args.now }
    ensures { Comes (spec.part (sight view.now) tree.now value) result }
{
    let setting = view.setting;
    let callee = called_on(alloc, setting, view.methods, &value, word, args.len())?;
    let args = values(alloc, view, args)?;
    called(alloc, setting, value, callee, word.span.from, args)
}

#[cycle(expr)]
pub fn index(
    alloc: Global,
    view: &View,
    tree: &PostfixPart,
    span: Span,
    inner: &Expr,
    list: Typed,
) -> Result<Typed, WalkFault>
    requires { tree.now ≡ PostfixPart.Index span inner.now }
    ensures { Comes (spec.part (sight view.now) tree.now list) result }
{
    let setting = view.setting;
    let list = value_of(list)?;
    let index = value(alloc, view, inner)?;
    indexed(alloc, setting.lines, list, index)
}
