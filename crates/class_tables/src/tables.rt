// The members of all classes.

ghost use Rattle.std.specs.Prelude.{◌≡◌, ◌∷◌, map, slice_get, IfOk};
ghost use Rattle.std.specs.Option.{option_copied};
ghost use Rattle.type_names.specs.TypeTrees.{known};
ghost use Rattle.class_tables.specs.Heads.{known_of};
ghost use Rattle.class_tables.specs.Lines.{ancestors, parent_at};
ghost use Rattle.class_tables.specs.Members.{members_among};
ghost use Rattle.class_tables.specs.Lookups as spec;
ghost use Rattle.class_tables.specs.Tables.{all_in, members_of};

use crate::key::MethodKey;
use crate::member::{FieldHead, MethodHead, class_members, interface_members};
use crate::table::MemberTable;
use crate::{ClassHeads, Classes, Parent};
use apex_list::Items;
use apex_num::NoMemory;
use apex_syntax::Unit;
use apex_text::Name;
use std::alloc::Global;
use type_names::TypeNames;

/// A member by the class that declares it, and its place among the members of its kind there.
#[derive(Clone, Copy, Debug, PartialEq, Eq, Hash, Drop)]
pub struct Member {
    pub class: usize,
    pub place: usize,
}

/// The members of all classes and interfaces, in the order of their numbers.
#[derive(Drop)]
pub struct MemberTables {
    pub tables: Items<MemberTable>,
}

fn tables_of(
    alloc: Global,
    names: &TypeNames,
    units: &[Unit],
) -> Result<Items<MemberTable>, NoMemory>
    ensures { IfOk result (λ tables. map members_of tables ≡ members_among (known names.now) units.now) }
{
    let mut tables = Items::new(alloc);
    for unit in units {
        match unit {
            Unit::Class(tree) => {
                tables.push(MemberTable::of(alloc, class_members(alloc, names, tree)?)?)?
            }
            Unit::Interface(tree) => {
                tables.push(MemberTable::of(alloc, interface_members(alloc, names, tree)?)?)?
            }
            Unit::Trigger(_) | Unit::Block(_) => {}
        }
    }
    Ok(tables)
}

impl MemberTables {
    /// The members of these classes and interfaces.
    pub fn of(alloc: Global, classes: &Classes) -> Result<MemberTables, NoMemory>
        ensures { IfOk result (λ t. all_in t ≡ members_among (known_of classes.now.objects.now.names.items classes.now.units.now) classes.now.units.now) }
    {
        let names = classes.names();
        Ok(MemberTables {
            tables: tables_of(alloc, &names, classes.units)?,
        })
    }

    // The place of a field among those of one class.
    fn own_field(&self, class: usize, is_static: bool, name: &Name) -> Option<usize>
        ensures { result ≡ spec.in_table (spec.own_field is_static name.now) (slice_get (all_in self.now) class) }
    {
        match self.tables.get(class) {
            Some(table) => table.field(is_static, name),
            None => None,
        }
    }

    /// The place of a method among those of one class.
    pub fn own_method(&self, class: usize, key: &MethodKey) -> Option<usize>
        ensures { result ≡ spec.in_table (spec.own_method key.now) (slice_get (all_in self.now) class) }
    {
        match self.tables.get(class) {
            Some(table) => table.method(key),
            None => None,
        }
    }

    #[cycle(field_within)]
    fn field_within(
        &self,
        lines: &ClassHeads,
        most: usize,
        class: usize,
        is_static: bool,
        name: &Name,
    ) -> Option<Member>
        ensures { result ≡ spec.first_in (spec.own_field is_static name.now) (all_in self.now) (class ∷ ancestors lines.now.heads most (parent_at lines.now.heads class)) }
    {
        if let Some(place) = self.own_field(class, is_static, name) {
            return Some(Member { class, place });
        }
        if most == 0 {
            return None;
        }
        match lines.parent(class) {
            Parent::Class(c) => self.field_within(lines, most - 1, c, is_static, name),
            Parent::None | Parent::Exception => None,
        }
    }

    #[cycle(method_within)]
    fn method_within(
        &self,
        lines: &ClassHeads,
        most: usize,
        class: usize,
        key: &MethodKey,
    ) -> Option<Member>
        ensures { result ≡ spec.first_in (spec.own_method key.now) (all_in self.now) (class ∷ ancestors lines.now.heads most (parent_at lines.now.heads class)) }
    {
        if let Some(place) = self.own_method(class, key) {
            return Some(Member { class, place });
        }
        if most == 0 {
            return None;
        }
        match lines.parent(class) {
            Parent::Class(c) => self.method_within(lines, most - 1, c, key),
            Parent::None | Parent::Exception => None,
        }
    }

    /// The field of this kind, a static or one of an instance, that a name means in a class: its own, or that of its
    /// nearest ancestor that has one. Private ones count.
    pub fn field(
        &self,
        lines: &ClassHeads,
        class: usize,
        is_static: bool,
        name: &Name,
    ) -> Option<Member>
        ensures { result ≡ spec.found_field (all_in self.now) lines.now.heads class is_static name.now }
    {
        self.field_within(lines, 32, class, is_static, name)
    }

    /// The method of this kind, name and number of parameters in a class: its own, or that of its nearest ancestor that
    /// has one. Private ones count.
    pub fn method(&self, lines: &ClassHeads, class: usize, key: &MethodKey) -> Option<Member>
        ensures { result ≡ spec.found_method (all_in self.now) lines.now.heads class key.now }
    {
        self.method_within(lines, 32, class, key)
    }

    /// The field in a place.
    pub fn field_at(&self, member: Member) -> Option<&FieldHead>
        ensures { option_copied result ≡ spec.field_at (all_in self.now) member }
    {
        match self.tables.get(member.class) {
            Some(table) => table.members.fields.get(member.place),
            None => None,
        }
    }

    /// The method in a place.
    pub fn method_at(&self, member: Member) -> Option<&MethodHead>
        ensures { option_copied result ≡ spec.method_at (all_in self.now) member }
    {
        match self.tables.get(member.class) {
            Some(table) => table.members.methods.get(member.place),
            None => None,
        }
    }
}
