// What members declare.

ghost use Rattle.std.specs.Prelude.{[]};
ghost use Rattle.type_names.specs.TypeTrees.{known};
ghost use Rattle.type_names.specs.Walks.{Comes, Tells};
ghost use Rattle.class_walk.specs.Declarations as spec;

use apex_syntax::{ParamTree, ResultTree, TypeTree, Word};
use apex_text::Name;
use fault_words::FaultWord;
use local_scopes::{Scope, declare, fresh};
use static_types::ValueType;
use std::alloc::Global;
use type_names::{TreeFault, TypeNames, WalkFault, type_of};

// The parameters from left to right, each its type and then its name: the locals that they are.
fn params_declared(
    alloc: Global,
    names: &TypeNames,
    params: &[ParamTree],
) -> Result<Scope, WalkFault>
    ensures { Comes (spec.params_walk (known names.now) [] params.now) result }
{
    let mut scope = Scope::new(alloc);
    for param in params {
        let kind = type_of(alloc, names, &param.kind)?;
        fresh(&scope, &param.name)?;
        declare(&mut scope, &param.name, kind)?;
    }
    Ok(scope)
}

fn result_declared(alloc: Global, names: &TypeNames, answer: &ResultTree) -> Result<(), WalkFault>
    ensures { Comes (spec.result_walk (known names.now) answer.now) result }
{
    match answer {
        ResultTree::Void(_) => Ok(()),
        ResultTree::Type(tree) => {
            type_of(alloc, names, tree)?;
            Ok(())
        }
    }
}

fn once(duplicate: bool, at: usize) -> Result<(), TreeFault>
    ensures { Tells (spec.once duplicate at) result }
{
    if duplicate {
        return Err(TreeFault::new(FaultWord::Duplicate, at));
    }
    Ok(())
}

/// The type of a field, or the first fault of its declaration: of its type, and `Duplicate` at its name.
pub fn field_declared(
    alloc: Global,
    names: &TypeNames,
    kind: &TypeTree,
    word: &Word,
    duplicate: bool,
) -> Result<ValueType, WalkFault>
    ensures { Comes (spec.field_walk (known names.now) kind.now word.now duplicate) result }
{
    let kind = type_of(alloc, names, kind)?;
    once(duplicate, word.span.from)?;
    Ok(kind)
}

fn method_name(duplicate: bool, overrides_well: bool, at: usize) -> Result<(), TreeFault>
    ensures { Tells (spec.method_name_walk duplicate overrides_well at) result }
{
    if duplicate {
        return Err(TreeFault::new(FaultWord::Duplicate, at));
    }
    if overrides_well {
        Ok(())
    } else {
        Err(TreeFault::new(FaultWord::BadParent, at))
    }
}

/// What stands before the body of a method, or a method of an interface: the locals that its parameters are. Otherwise
/// its first fault: of the type of what it answers, `Duplicate` and `BadParent` at its name, and of its parameters from
/// left to right, each its type and then `Duplicate` at its name.
pub fn signature_declared(
    alloc: Global,
    names: &TypeNames,
    answer: &ResultTree,
    word: &Word,
    params: &[ParamTree],
    duplicate: bool,
    overrides_well: bool,
) -> Result<Scope, WalkFault>
    ensures { Comes (spec.signature_walk (known names.now) answer.now word.now params.now duplicate overrides_well) result }
{
    result_declared(alloc, names, answer)?;
    method_name(duplicate, overrides_well, word.span.from)?;
    params_declared(alloc, names, params)
}

// Whether the name of a constructor is that of its class.
fn named_so(class: &Name, word: &Word) -> Result<(), TreeFault>
    ensures { Tells (spec.named_walk class.now word.now) result }
{
    if class.bytes() == word.name.bytes() {
        Ok(())
    } else {
        Err(TreeFault::new(FaultWord::UnknownName, word.span.from))
    }
}

/// What stands before the body of a constructor: the locals that its parameters are. Otherwise its first fault:
/// `UnknownName` at its name where that isn't the class's, `Duplicate` at it, also where the class is an exception and
/// the constructor has none or one parameter, and of its parameters.
pub fn constructor_declared(
    alloc: Global,
    names: &TypeNames,
    class: &Name,
    is_exception: bool,
    word: &Word,
    params: &[ParamTree],
    duplicate: bool,
) -> Result<Scope, WalkFault>
    ensures { Comes (spec.constructor_walk (known names.now) class.now is_exception word.now params.now duplicate) result }
{
    named_so(class, word)?;
    once(
        duplicate || (is_exception && params.len() < 2),
        word.span.from,
    )?;
    params_declared(alloc, names, params)
}
