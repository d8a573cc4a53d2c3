// The names of methods, however many parameters they have.

ghost use Rattle.std.specs.Prelude.{◌≡◌, ◌∷◌, map, slice_get, IfOk};
ghost use Rattle.std.specs.List.{list_any};
ghost use Rattle.class_tables.specs.Lines.{ancestors, parent_at};
ghost use Rattle.schema_names.specs.Names.{place_of};
ghost use Rattle.method_calls.specs.MethodNamings as spec;

use apex_list::{Boxed, Items};
use apex_num::NoMemory;
use apex_text::Name;
use class_tables::{ClassHeads, MemberTable, MemberTables, MethodHead, Parent};
use schema_names::Places;
use std::alloc::Global;

/// How a method is called.
#[derive(Clone, Copy, Drop)]
pub enum Way {
    /// A static one, on a class.
    Static,
    /// One of an instance, on it.
    Instance,
    /// One of an instance, through `super`.
    Super,
}

/// The names of the methods of a class or an interface that may run when they are called in each way.
#[derive(Drop)]
pub struct ClassNames {
    pub statics: Boxed<Places>,
    pub instances: Boxed<Places>,
    pub supers: Boxed<Places>,
}

/// The names of the methods of all classes and interfaces, in the order of their numbers.
#[derive(Drop)]
pub struct MethodNames {
    pub classes: Items<ClassNames>,
}

/// Whether a method may run when it is called so: what would run itself has a body.
pub fn may_run(way: Way, method: &MethodHead) -> bool
    ensures { result ≡ spec.may_run way method.now }
{
    match way {
        Way::Static => method.is_static && method.has_body,
        Way::Instance => !method.is_static && (method.has_body || !method.is_private),
        Way::Super => !method.is_static && method.has_body,
    }
}

fn places_of(alloc: Global, way: Way, methods: &[MethodHead]) -> Result<Boxed<Places>, NoMemory>
    ensures { IfOk result (λ p. p.names.items ≡ spec.names_for way methods.now) }
{
    let mut names = Vec::new(alloc);
    for method in methods {
        if may_run(way, method) {
            names.push(method.name.copy()?)?;
        }
    }
    Boxed::new(alloc, Places::of(alloc, names)?)
}

fn names_of(alloc: Global, methods: &[MethodHead]) -> Result<ClassNames, NoMemory>
    ensures { IfOk result (λ n. spec.names_in n ≡ spec.names_of_methods methods.now) }
{
    Ok(ClassNames {
        statics: places_of(alloc, Way::Static, methods)?,
        instances: places_of(alloc, Way::Instance, methods)?,
        supers: places_of(alloc, Way::Super, methods)?,
    })
}

fn all_names(alloc: Global, tables: &[MemberTable]) -> Result<Items<ClassNames>, NoMemory>
    ensures { IfOk result (λ all. map spec.names_in all ≡ map spec.names_of_table tables.now) }
{
    let mut all = Items::new(alloc);
    for table in tables {
        all.push(names_of(alloc, table.members.methods.as_slice())?)?;
    }
    Ok(all)
}

/// The interfaces that a class names, where it is abstract, so that it may leave their methods open.
pub fn open_at(lines: &ClassHeads, class: usize) -> &[usize]
    ensures { result.now ≡ spec.open_at lines.now.heads class }
{
    match lines.heads.get(class) {
        Some(head) => {
            if head.is_abstract {
                head.interfaces.as_slice()
            } else {
                &[]
            }
        }
        None => &[],
    }
}

impl ClassNames {
    fn place(&self, way: Way, name: &Name) -> Option<usize>
        ensures { result ≡ place_of (spec.called_so way (spec.names_in self.now)) name.now }
    {
        match way {
            Way::Static => self.statics.get().place(name),
            Way::Instance => self.instances.get().place(name),
            Way::Super => self.supers.get().place(name),
        }
    }
}

impl MethodNames {
    /// The names of the methods of these classes.
    pub fn of(alloc: Global, members: &MemberTables) -> Result<MethodNames, NoMemory>
        ensures { IfOk result (λ n. spec.namings n ≡ map spec.names_of_table members.now.tables) }
    {
        Ok(MethodNames {
            classes: all_names(alloc, members.tables.as_slice())?,
        })
    }

    fn own(&self, way: Way, class: usize, name: &Name) -> Option<usize>
        ensures { result ≡ spec.place_in way (slice_get (spec.namings self.now) class) name.now }
    {
        match self.classes.get(class) {
            Some(names) => names.place(way, name),
            None => None,
        }
    }

    fn has_own(&self, way: Way, class: usize, name: &Name) -> bool
        ensures { result ≡ spec.has_named (spec.namings self.now) way name.now class }
    {
        self.own(way, class, name).is_some()
    }

    fn has_among(&self, way: Way, classes: &[usize], name: &Name) -> bool
        ensures { result ≡ list_any (spec.has_named (spec.namings self.now) way name.now) classes.now }
    {
        for class in classes {
            if self.has_own(way, *class, name) {
                return true;
            }
        }
        false
    }

    #[cycle(within)]
    fn within(&self, way: Way, lines: &ClassHeads, most: usize, class: usize, name: &Name) -> bool
        ensures { result ≡ list_any (spec.has_named (spec.namings self.now) way name.now) (class ∷ ancestors lines.now.heads most (parent_at lines.now.heads class)) }
    {
        if self.has_own(way, class, name) {
            return true;
        }
        if most == 0 {
            return false;
        }
        match lines.parent(class) {
            Parent::Class(c) => self.within(way, lines, most - 1, c, name),
            Parent::None | Parent::Exception => false,
        }
    }

    #[cycle(open_within)]
    fn open_within(
        &self,
        way: Way,
        lines: &ClassHeads,
        most: usize,
        class: usize,
        name: &Name,
    ) -> bool
        ensures { result ≡ list_any (spec.has_open (spec.namings self.now) way name.now lines.now.heads) (class ∷ ancestors lines.now.heads most (parent_at lines.now.heads class)) }
    {
        if self.has_among(way, open_at(lines, class), name) {
            return true;
        }
        if most == 0 {
            return false;
        }
        match lines.parent(class) {
            Parent::Class(c) => self.open_within(way, lines, most - 1, c, name),
            Parent::None | Parent::Exception => false,
        }
    }

    /// Whether a class or an ancestor has a method of this name that may be called so, or an interface that it leaves
    /// open has one.
    pub fn has(&self, way: Way, lines: &ClassHeads, class: usize, name: &Name) -> bool
        ensures { result ≡ spec.is_named (spec.namings self.now) way lines.now.heads class name.now }
    {
        self.within(way, lines, 32, class, name) || self.open_within(way, lines, 32, class, name)
    }
}
