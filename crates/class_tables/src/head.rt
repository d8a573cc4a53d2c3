// Heads of classes and interfaces.

ghost use Rattle.std.specs.Prelude.{◌≡◌, filter_map, slice_get, IfOk};
ghost use Rattle.class_tables.specs.Heads as spec;
ghost use Rattle.type_names.specs.TypeTrees.{known};
ghost use Rattle.static_types.specs.declared.kind.ValueType.TheViews.{out-ValueType};

use crate::modifiers::{is_abstract, is_open, sharing};
use apex_list::Items;
use apex_num::NoMemory;
use apex_schema::Mode;
use apex_syntax::{ClassTree, Unit, Word};
use static_types::ValueType;
use std::alloc::Global;
use type_names::{TypeNames, named_type};

/// What a class extends. A name that may not stand there counts as nothing.
#[derive(Clone, Copy, Drop)]
pub enum Parent {
    None,
    /// `Exception`
    Exception,
    /// The class with this number.
    Class(usize),
}

/// What stands in front of the members of a class or an interface.
#[derive(Drop)]
pub struct ClassHead {
    /// The number of its unit, from 0.
    pub unit: usize,
    pub interface: bool,
    /// Whether it is `virtual` or `abstract`, so that a class may extend it.
    pub extendable: bool,
    pub is_abstract: bool,
    /// Whether it runs with sharing; `None` where it takes its caller's mode.
    pub sharing: Option<Mode>,
    pub parent: Parent,
    /// The numbers of the interfaces that it names, in their order.
    pub interfaces: Items<usize>,
}

fn flag(interfaces: &[bool], c: usize) -> Option<bool>
    ensures { result ≡ slice_get interfaces.now c }
{
    interfaces.get(c).copied()
}

fn class_or_none(interface: Option<bool>, c: usize) -> Parent
    ensures { result ≡ spec.class_or_none interface c }
{
    match interface {
        Some(false) => Parent::Class(c),
        _ => Parent::None,
    }
}

fn parent_type(interfaces: &[bool], kind: &ValueType) -> Parent
    ensures { result ≡ spec.parent_type interfaces.now (out-ValueType kind.now) }
{
    match kind {
        ValueType::Class(c) => class_or_none(flag(interfaces, *c), *c),
        ValueType::AnyException => Parent::Exception,
        _ => Parent::None,
    }
}

fn parent_named(names: &TypeNames, interfaces: &[bool], word: &Option<Word>) -> Parent
    ensures { result ≡ spec.parent_named (known names.now) interfaces.now word.now }
{
    match word {
        None => Parent::None,
        Some(word) => match named_type(names, &word.name, &None, word.span.from) {
            Ok(kind) => parent_type(interfaces, &kind),
            Err(_) => Parent::None,
        },
    }
}

fn interface_or_none(interface: Option<bool>, c: usize) -> Option<usize>
    ensures { result ≡ spec.interface_or_none interface c }
{
    match interface {
        Some(true) => Some(c),
        _ => None,
    }
}

fn interface_type(interfaces: &[bool], kind: &ValueType) -> Option<usize>
    ensures { result ≡ spec.interface_type interfaces.now (out-ValueType kind.now) }
{
    match kind {
        ValueType::Class(c) => interface_or_none(flag(interfaces, *c), *c),
        _ => None,
    }
}

fn interface_named(names: &TypeNames, interfaces: &[bool], word: &Word) -> Option<usize>
    ensures { result ≡ spec.interface_named (known names.now) interfaces.now word.now }
{
    match named_type(names, &word.name, &None, word.span.from) {
        Ok(kind) => interface_type(interfaces, &kind),
        Err(_) => None,
    }
}

fn interfaces_named(
    alloc: Global,
    names: &TypeNames,
    interfaces: &[bool],
    words: &[Word],
) -> Result<Items<usize>, NoMemory>
    ensures { IfOk result (λ all. all ≡ filter_map (spec.interface_named (known names.now) interfaces.now) words.now) }
{
    let mut all = Items::new(alloc);
    for word in words {
        if let Some(c) = interface_named(names, interfaces, word) {
            all.push(c)?;
        }
    }
    Ok(all)
}

fn class_head(
    alloc: Global,
    names: &TypeNames,
    interfaces: &[bool],
    unit: usize,
    tree: &ClassTree,
) -> Result<ClassHead, NoMemory>
    ensures { IfOk result (λ h. h ≡ spec.class_head (known names.now) interfaces.now unit tree.now) }
{
    let modifiers = tree.modifiers.as_slice();
    Ok(ClassHead {
        unit,
        interface: false,
        extendable: is_open(modifiers),
        is_abstract: is_abstract(modifiers),
        sharing: sharing(modifiers),
        parent: parent_named(names, interfaces, &tree.parent),
        interfaces: interfaces_named(alloc, names, interfaces, tree.interfaces.as_slice())?,
    })
}

fn interface_head(alloc: Global, unit: usize) -> ClassHead
    ensures { result ≡ spec.interface_head unit }
{
    ClassHead {
        unit,
        interface: true,
        extendable: false,
        is_abstract: true,
        sharing: None,
        parent: Parent::None,
        interfaces: Items::new(alloc),
    }
}

/// The heads of the classes and interfaces among units, in their order. The truth values say which of them are
/// interfaces.
pub fn heads(
    alloc: Global,
    names: &TypeNames,
    interfaces: &[bool],
    units: &[Unit],
) -> Result<Items<ClassHead>, NoMemory>
    ensures { IfOk result (λ all. all ≡ spec.heads_from (known names.now) interfaces.now 0 units.now) }
{
    let mut all = Items::new(alloc);
    for i in 0..units.len() {
        match &units[i] {
            Unit::Class(tree) => all.push(class_head(alloc, names, interfaces, i, tree)?)?,
            Unit::Interface(_) => all.push(interface_head(alloc, i))?,
            Unit::Trigger(_) | Unit::Block(_) => {}
        }
    }
    Ok(all)
}
