// Classes and interfaces as far as they are walked through.

ghost use Rattle.std.specs.Prelude.{◌≡◌, slice_get, IfOk};
ghost use Rattle.class_tables.specs.Lines.{interfaces_at};
ghost use Rattle.apex_types.specs.OpenClasses as spec;

use crate::written::text_of;
use apex_list::{Boxed, Items};
use apex_num::NoMemory;
use apex_schema::Mode;
use apex_syntax::{ParamTree, Word};
use class_tables::{ClassHeads, Parent};
use std::alloc::Global;
use typed_program::{
    ImpliedCall, ParentClass, TypedClass, TypedConstructor, TypedExpr, TypedField, TypedMethod,
    TypedStmt,
};

fn extends(parent: Parent) -> ParentClass
    ensures { result ≡ spec.extends parent }
{
    match parent {
        Parent::None => ParentClass::Nothing,
        Parent::Exception => ParentClass::Exception,
        Parent::Class(class) => ParentClass::Class(class),
    }
}

fn sharing_of(lines: &ClassHeads, class: usize) -> Option<Mode>
    ensures { result ≡ spec.sharing_or (slice_get lines.now.heads class) }
{
    match lines.heads.get(class) {
        Some(head) => head.sharing,
        None => None,
    }
}

fn interfaces_of(alloc: Global, lines: &ClassHeads, class: usize) -> Result<Items<usize>, NoMemory>
    ensures { IfOk result (λ all. all ≡ interfaces_at lines.now.heads class) }
{
    match lines.heads.get(class) {
        Some(head) => Items::from_slice(alloc, head.interfaces.as_slice()),
        None => Ok(Items::new(alloc)),
    }
}

/// The class or interface with this number, whose name is written so, without its members.
pub fn opened(
    alloc: Global,
    lines: &ClassHeads,
    class: usize,
    written: &Items<u8>,
    implied: Option<ImpliedCall>,
) -> Result<TypedClass, NoMemory>
    ensures { IfOk result (λ c. c ≡ spec.opened lines.now.heads class written.now implied) }
{
    let name = text_of(alloc, written)?;
    let interfaces = interfaces_of(alloc, lines, class)?;
    Ok(TypedClass {
        name,
        parent: extends(lines.parent(class)),
        interfaces,
        sharing: sharing_of(lines, class),
        implied,
        fields: Items::new(alloc),
        methods: Items::new(alloc),
        constructors: Items::new(alloc),
    })
}

/// One field more.
pub fn add_field(
    so_far: &mut TypedClass,
    is_static: bool,
    value: Option<Boxed<TypedExpr>>,
) -> Result<(), NoMemory>
    ensures { IfOk result (λ _. so_far.new ≡ spec.with_field so_far.old (spec.field_of is_static value)) }
{
    so_far.fields.push(TypedField { is_static, value })
}

/// One method more.
pub fn add_method(
    so_far: &mut TypedClass,
    word: &Word,
    params: &[ParamTree],
    is_static: bool,
    body: Option<Items<TypedStmt>>,
) -> Result<(), NoMemory>
    ensures { IfOk result (λ _. so_far.new ≡ spec.with_method so_far.old (spec.method_of word.now params.now is_static body)) }
{
    let name = word.name.copy()?;
    so_far.methods.push(TypedMethod {
        name,
        params: params.len(),
        is_static,
        body,
    })
}

/// One constructor more.
pub fn add_constructor(
    so_far: &mut TypedClass,
    made: Boxed<TypedConstructor>,
) -> Result<(), NoMemory>
    ensures { IfOk result (λ _. so_far.new ≡ spec.with_constructor so_far.old made) }
{
    so_far.constructors.push(made.into_value())
}
