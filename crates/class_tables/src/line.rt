// Classes with their ancestors and interfaces.

ghost use Rattle.std.specs.Prelude.{◌≡◌, ◌&&◌, ◌||◌, ◌∷◌, eqb, ℕ, IfOk, OnOk};
ghost use Rattle.std.specs.List.{list_any};
ghost use Rattle.indexmap.specs.IndexSet.{contains};
ghost use Rattle.static_types.specs.declared.kind.ValueType.TheViews.{out-ValueType};
ghost use Rattle.class_tables.specs.Lines as spec;
ghost use Rattle.class_tables.specs.Pairs.{pair, pair_eq, HasPairs};

use crate::head::{ClassHead, Parent};
use apex_list::Items;
use apex_num::NoMemory;
use indexmap::IndexSet;
use static_types::{Primitive, ValueType};
use std::alloc::{AllocError, Global};

/// That a class names an interface.
#[derive(Clone, Copy, PartialEq, Eq, Hash, Drop)]
pub struct Implements {
    pub class: usize,
    pub interface: usize,
}

/// The heads of classes and interfaces by their numbers.
#[derive(Drop)]
pub struct ClassHeads {
    pub heads: Items<ClassHead>,
    pairs: IndexSet<Implements>,
    ghost pairs_are: { HasPairs heads pairs },
}

fn add_pair(
    pairs: &mut IndexSet<Implements>,
    class: usize,
    interface: usize,
) -> Result<(), NoMemory>
    ensures { OnOk result ((c i : ℕ) → contains pair_eq pairs.new (pair c i) ≡ (contains pair_eq pairs.old (pair c i) || (eqb class c && eqb interface i))) }
{
    let pair = Implements { class, interface };
    pairs.insert(pair).map_err(AllocError::from)?;
    Ok(())
}

fn add_class(
    pairs: &mut IndexSet<Implements>,
    class: usize,
    interfaces: &[usize],
) -> Result<(), NoMemory>
    ensures { OnOk result ((c i : ℕ) → contains pair_eq pairs.new (pair c i) ≡ (contains pair_eq pairs.old (pair c i) || (eqb class c && spec.has_number interfaces.now i))) }
{
    for interface in interfaces {
        add_pair(pairs, class, *interface)?;
    }
    Ok(())
}

fn pairs_of(alloc: Global, heads: &[ClassHead]) -> Result<IndexSet<Implements>, NoMemory>
    ensures { IfOk result (HasPairs heads.now) }
{
    let mut pairs = IndexSet::new(alloc);
    for i in 0..heads.len() {
        add_class(&mut pairs, i, heads[i].interfaces.as_slice())?;
    }
    Ok(pairs)
}

// From a primitive type to another one.
fn widens(from: Primitive, to: Primitive) -> bool
    ensures { result ≡ spec.widens from to }
{
    match (from, to) {
        (Primitive::Integer, Primitive::Long)
        | (Primitive::Integer, Primitive::Decimal)
        | (Primitive::Long, Primitive::Decimal)
        | (Primitive::String, Primitive::Id)
        | (Primitive::Id, Primitive::String) => true,
        _ => false,
    }
}

impl ClassHeads {
    /// The heads, each found by its number.
    pub fn of(alloc: Global, heads: Items<ClassHead>) -> Result<ClassHeads, NoMemory>
        ensures { IfOk result (λ h. h.heads ≡ heads) }
    {
        let pairs = pairs_of(alloc, heads.as_slice())?;
        Ok(ClassHeads { heads, pairs })
    }

    /// What the class with this number extends.
    pub fn parent(&self, class: usize) -> Parent
        ensures { result ≡ spec.parent_at self.now.heads class }
    {
        match self.heads.get(class) {
            Some(head) => head.parent,
            None => Parent::None,
        }
    }

    /// Whether a class names an interface in its own header: one look into a hash table.
    pub fn names(&self, class: usize, interface: usize) -> bool
        ensures { result ≡ spec.has_number (spec.interfaces_at self.now.heads class) interface }
    {
        self.pairs.contains(&Implements { class, interface })
    }

    /// Whether a chain of parents has at most so many ancestors.
    #[cycle(ends_within)]
    pub fn ends_within(&self, most: usize, parent: Parent) -> bool
        ensures { result ≡ spec.ends_within self.now.heads most parent }
    {
        match parent {
            Parent::None => true,
            Parent::Exception => most > 0,
            Parent::Class(c) => most > 0 && self.ends_within(most - 1, self.parent(c)),
        }
    }

    /// Whether a chain of parents comes to `Exception` within so many.
    #[cycle(reaches_exception)]
    pub fn reaches_exception(&self, most: usize, parent: Parent) -> bool
        ensures { result ≡ spec.reaches_exception self.now.heads most parent }
    {
        match parent {
            Parent::None => false,
            Parent::Exception => most > 0,
            Parent::Class(c) => most > 0 && self.reaches_exception(most - 1, self.parent(c)),
        }
    }

    /// Whether a class is an exception.
    pub fn is_exception(&self, class: usize) -> bool
        ensures { result ≡ spec.is_exception self.now.heads class }
    {
        self.reaches_exception(32, self.parent(class))
    }

    // Whether a class, or one of so many ancestors, is another one or names it.
    #[cycle(meets)]
    fn meets(&self, most: usize, class: usize, to: usize) -> bool
        ensures { result ≡ list_any (spec.meets self.now.heads to) (class ∷ spec.ancestors self.now.heads most (spec.parent_at self.now.heads class)) }
    {
        if class == to || self.names(class, to) {
            return true;
        }
        if most == 0 {
            return false;
        }
        match self.parent(class) {
            Parent::Class(c) => self.meets(most - 1, c, to),
            Parent::None | Parent::Exception => false,
        }
    }

    /// Whether a class fits another one, or an interface.
    pub fn class_fits(&self, class: usize, to: usize) -> bool
        ensures { result ≡ spec.class_fits self.now.heads class to }
    {
        self.meets(32, class, to)
    }

    fn form_fits(&self, from: &ValueType, to: &ValueType) -> bool
        ensures { result ≡ spec.form_fits self.now.heads (out-ValueType from.now) (out-ValueType to.now) }
    {
        match (from, to) {
            (ValueType::Primitive(p), ValueType::Primitive(q)) => widens(*p, *q),
            (ValueType::Class(c), ValueType::Class(d)) => self.class_fits(*c, *d),
            (ValueType::Class(c), ValueType::AnyException) => self.is_exception(*c),
            (ValueType::Exception(_), ValueType::AnyException) => true,
            _ => false,
        }
    }

    /// Whether a value of a type may stand where one of another type is due: the types are equal, or the value becomes
    /// one of it along Integer, Long and Decimal or between String and Id, or its class has the other type as an ancestor
    /// or an interface.
    pub fn fits(&self, from: &ValueType, to: &ValueType) -> bool
        ensures { result ≡ spec.fits self.now.heads from.now to.now }
    {
        from.same(to) || self.form_fits(from, to)
    }
}
