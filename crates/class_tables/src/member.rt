// Members as others see them.

ghost use Rattle.std.specs.Prelude.{◌≡◌, ◌++◌, ◌∷◌, [], map, IfOk, OnOk};
ghost use Rattle.type_names.specs.TypeTrees.{known};
ghost use Rattle.class_tables.specs.Lookups.{method_key};
ghost use Rattle.class_tables.specs.Members as spec;

use crate::key::MethodKey;
use crate::member_modifiers::{has_word, is_private, is_private_method, is_virtual};
use apex_list::Items;
use apex_num::NoMemory;
use apex_syntax::{
    ClassTree, InterfaceTree, MemberModifier, MemberTree, MemberWord, ParamTree, ResultTree,
    SignatureTree, TypeTree, Word,
};
use apex_text::Name;
use static_types::ValueType;
use std::alloc::{AllocError, Global};
use type_names::{TypeNames, WalkFault, type_of};

/// A field.
#[derive(Drop)]
pub struct FieldHead {
    pub name: Name,
    /// `None` where its type has a fault.
    pub kind: Option<ValueType>,
    pub is_static: bool,
    pub is_final: bool,
    pub is_private: bool,
}

/// What a method answers.
#[derive(Drop)]
pub enum ResultHead {
    Void,
    Value(ValueType),
    /// Its type has a fault.
    Faulty,
}

/// A method.
#[derive(Drop)]
pub struct MethodHead {
    pub name: Name,
    pub result: ResultHead,
    /// The types of its parameters; `None` where one has a fault.
    pub params: Items<Option<ValueType>>,
    pub is_static: bool,
    pub is_private: bool,
    /// Whether a child's method may override it.
    pub is_virtual: bool,
    pub is_override: bool,
    pub has_body: bool,
}

impl MethodHead {
    /// What it is found by.
    pub fn key(&self) -> Result<MethodKey, NoMemory>
        ensures { IfOk result (λ k. k ≡ method_key self.now) }
    {
        Ok(MethodKey {
            is_static: self.is_static,
            name: self.name.copy()?,
            count: self.params.len(),
        })
    }
}

/// A constructor.
#[derive(Drop)]
pub struct ConstructorHead {
    /// The types of its parameters; `None` where one has a fault.
    pub params: Items<Option<ValueType>>,
    pub is_private: bool,
}

/// The members of a class or an interface, each kind in the order of the text.
#[derive(Drop)]
pub struct ClassMembers {
    pub fields: Items<FieldHead>,
    pub methods: Items<MethodHead>,
    pub constructors: Items<ConstructorHead>,
}

// The type of a tree, where it has one.
fn kind_of(alloc: Global, names: &TypeNames, tree: &TypeTree) -> Result<Option<ValueType>, NoMemory>
    ensures { IfOk result (λ kind. kind ≡ spec.kind_of (known names.now) tree.now) }
{
    match type_of(alloc, names, tree) {
        Ok(kind) => Ok(Some(kind)),
        Err(WalkFault::Wrong(_)) => Ok(None),
        Err(WalkFault::NoMemory) => Err(AllocError),
    }
}

fn result_of(alloc: Global, names: &TypeNames, tree: &ResultTree) -> Result<ResultHead, NoMemory>
    ensures { IfOk result (λ head. head ≡ spec.result_of (known names.now) tree.now) }
{
    match tree {
        ResultTree::Void(_) => Ok(ResultHead::Void),
        ResultTree::Type(tree) => match kind_of(alloc, names, tree)? {
            Some(kind) => Ok(ResultHead::Value(kind)),
            None => Ok(ResultHead::Faulty),
        },
    }
}

fn params_of(
    alloc: Global,
    names: &TypeNames,
    params: &[ParamTree],
) -> Result<Items<Option<ValueType>>, NoMemory>
    ensures { IfOk result (λ all. all ≡ map (spec.param_of (known names.now)) params.now) }
{
    let mut all = Items::new(alloc);
    for param in params {
        all.push(kind_of(alloc, names, &param.kind)?)?;
    }
    Ok(all)
}

fn field_head(
    alloc: Global,
    names: &TypeNames,
    modifiers: &[MemberModifier],
    kind: &TypeTree,
    word: &Word,
) -> Result<FieldHead, NoMemory>
    ensures { IfOk result (λ f. f ≡ spec.field_head (known names.now) modifiers.now kind.now word.now) }
{
    Ok(FieldHead {
        name: word.name.copy()?,
        kind: kind_of(alloc, names, kind)?,
        is_static: has_word(modifiers, MemberWord::Static),
        is_final: has_word(modifiers, MemberWord::Final),
        is_private: is_private(modifiers),
    })
}

fn method_head(
    alloc: Global,
    names: &TypeNames,
    modifiers: &[MemberModifier],
    answer: &ResultTree,
    word: &Word,
    params: &[ParamTree],
    has_body: bool,
) -> Result<MethodHead, NoMemory>
    ensures { IfOk result (λ m. m ≡ spec.method_head (known names.now) modifiers.now answer.now word.now params.now has_body) }
{
    Ok(MethodHead {
        name: word.name.copy()?,
        result: result_of(alloc, names, answer)?,
        params: params_of(alloc, names, params)?,
        is_static: has_word(modifiers, MemberWord::Static),
        is_private: is_private_method(modifiers, has_body),
        is_virtual: is_virtual(modifiers, has_body),
        is_override: has_word(modifiers, MemberWord::Override),
        has_body,
    })
}

// A method of an interface has no body and no modifiers.
fn signature_head(
    alloc: Global,
    names: &TypeNames,
    tree: &SignatureTree,
) -> Result<MethodHead, NoMemory>
    ensures { IfOk result (λ m. m ≡ spec.signature_head (known names.now) tree.now) }
{
    method_head(
        alloc,
        names,
        &[],
        &tree.result,
        &tree.name,
        tree.params.as_slice(),
        false,
    )
}

// A field behind the others.
fn add_field(
    names: &TypeNames,
    all: &mut Items<FieldHead>,
    modifiers: &[MemberModifier],
    kind: &TypeTree,
    word: &Word,
) -> Result<(), NoMemory>
    ensures { OnOk result (all.new ≡ all.old ++ spec.field_head (known names.now) modifiers.now kind.now word.now ∷ []) }
{
    let alloc = all.allocator();
    all.push(field_head(alloc, names, modifiers, kind, word)?)
}

fn fields_of(
    alloc: Global,
    names: &TypeNames,
    members: &[MemberTree],
) -> Result<Items<FieldHead>, NoMemory>
    ensures { IfOk result (λ all. all ≡ spec.fields_of (known names.now) members.now) }
{
    let mut all = Items::new(alloc);
    for member in members {
        match member {
            MemberTree::Field(_, modifiers, kind, word, _) => {
                add_field(names, &mut all, modifiers.as_slice(), kind, word)?
            }
            MemberTree::Property(_, modifiers, kind, word) => {
                add_field(names, &mut all, modifiers.as_slice(), kind, word)?
            }
            MemberTree::Method(..) | MemberTree::Constructor(..) => {}
        }
    }
    Ok(all)
}

fn methods_of(
    alloc: Global,
    names: &TypeNames,
    members: &[MemberTree],
) -> Result<Items<MethodHead>, NoMemory>
    ensures { IfOk result (λ all. all ≡ spec.methods_of (known names.now) members.now) }
{
    let mut all = Items::new(alloc);
    for member in members {
        match member {
            MemberTree::Method(_, modifiers, answer, word, params, body) => {
                let has_body = body.is_some();
                let ms = modifiers.as_slice();
                let ps = params.as_slice();
                all.push(method_head(alloc, names, ms, answer, word, ps, has_body)?)?;
            }
            MemberTree::Field(..) | MemberTree::Property(..) | MemberTree::Constructor(..) => {}
        }
    }
    Ok(all)
}

fn constructors_of(
    alloc: Global,
    names: &TypeNames,
    members: &[MemberTree],
) -> Result<Items<ConstructorHead>, NoMemory>
    ensures { IfOk result (λ all. all ≡ spec.constructors_of (known names.now) members.now) }
{
    let mut all = Items::new(alloc);
    for member in members {
        match member {
            MemberTree::Constructor(_, modifiers, _, params, _) => {
                let params = params_of(alloc, names, params.as_slice())?;
                let is_private = is_private(modifiers.as_slice());
                all.push(ConstructorHead { params, is_private })?;
            }
            MemberTree::Field(..) | MemberTree::Property(..) | MemberTree::Method(..) => {}
        }
    }
    Ok(all)
}

/// The members of a class.
pub fn class_members(
    alloc: Global,
    names: &TypeNames,
    tree: &ClassTree,
) -> Result<ClassMembers, NoMemory>
    ensures { IfOk result (λ m. m ≡ spec.class_members (known names.now) tree.now) }
{
    let members = tree.members.as_slice();
    Ok(ClassMembers {
        fields: fields_of(alloc, names, members)?,
        methods: methods_of(alloc, names, members)?,
        constructors: constructors_of(alloc, names, members)?,
    })
}

fn signatures_of(
    alloc: Global,
    names: &TypeNames,
    trees: &[SignatureTree],
) -> Result<Items<MethodHead>, NoMemory>
    ensures { IfOk result (λ all. all ≡ map (spec.signature_head (known names.now)) trees.now) }
{
    let mut all = Items::new(alloc);
    for tree in trees {
        all.push(signature_head(alloc, names, tree)?)?;
    }
    Ok(all)
}

/// The members of an interface.
pub fn interface_members(
    alloc: Global,
    names: &TypeNames,
    tree: &InterfaceTree,
) -> Result<ClassMembers, NoMemory>
    ensures { IfOk result (λ m. m ≡ spec.interface_members (known names.now) tree.now) }
{
    Ok(ClassMembers {
        fields: Items::new(alloc),
        methods: signatures_of(alloc, names, tree.methods.as_slice())?,
        constructors: Items::new(alloc),
    })
}
