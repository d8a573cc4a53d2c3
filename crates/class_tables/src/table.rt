// The members of one class by their names.

ghost use Rattle.std.specs.Prelude.{◌≡◌, [], map, true, false, IfOk};
ghost use Rattle.class_tables.specs.Keys.{key};
ghost use Rattle.class_tables.specs.Lookups as spec;

use crate::key::{KeyPlaces, MethodKey};
use crate::member::{ClassMembers, ConstructorHead, FieldHead, MethodHead};
use apex_list::Boxed;
use apex_num::NoMemory;
use apex_text::Name;
use schema_names::Places;
use std::alloc::{AllocError, Global};

/// The members of a class or an interface, each found by one look into a hash table.
#[derive(Drop)]
pub struct MemberTable {
    pub members: ClassMembers,
    statics: Boxed<Places>,
    fields: Boxed<Places>,
    methods: Boxed<KeyPlaces>,
    constructors: Boxed<KeyPlaces>,
    ghost statics_are: { statics.names.items ≡ map (spec.name_of_kind true) members.fields },
    ghost fields_are: { fields.names.items ≡ map (spec.name_of_kind false) members.fields },
    ghost methods_are: { methods.keys.items ≡ map spec.method_key members.methods },
    ghost constructors_are: { constructors.keys.items ≡ map spec.constructor_key members.constructors },
}

fn name_of_kind(alloc: Global, is_static: bool, field: &FieldHead) -> Result<Name, NoMemory>
    ensures { IfOk result (λ name. name ≡ spec.name_of_kind is_static field.now) }
{
    if field.is_static == is_static {
        field.name.copy()
    } else {
        Name::of(alloc, b"")
    }
}

// The places of the fields of one kind.
fn field_places(
    alloc: Global,
    is_static: bool,
    fields: &[FieldHead],
) -> Result<Boxed<Places>, NoMemory>
    ensures { IfOk result (λ p. p.names.items ≡ map (spec.name_of_kind is_static) fields.now) }
{
    let mut names = Vec::new(alloc);
    for field in fields {
        names.push(name_of_kind(alloc, is_static, field)?)?;
    }
    Boxed::new(alloc, Places::of(alloc, names)?)
}

fn method_places(alloc: Global, methods: &[MethodHead]) -> Result<Boxed<KeyPlaces>, NoMemory>
    ensures { IfOk result (λ p. p.keys.items ≡ map spec.method_key methods.now) }
{
    let mut keys = Vec::new(alloc);
    for method in methods {
        keys.push(method.key()?).map_err(AllocError::from)?;
    }
    Boxed::new(alloc, KeyPlaces::of(alloc, keys)?)
}

fn constructor_key(alloc: Global, count: usize) -> Result<MethodKey, NoMemory>
    ensures { IfOk result (λ k. k ≡ key false [] count) }
{
    Ok(MethodKey {
        is_static: false,
        name: Name::of(alloc, b"")?,
        count,
    })
}

fn constructor_places(
    alloc: Global,
    constructors: &[ConstructorHead],
) -> Result<Boxed<KeyPlaces>, NoMemory>
    ensures { IfOk result (λ p. p.keys.items ≡ map spec.constructor_key constructors.now) }
{
    let mut keys = Vec::new(alloc);
    for constructor in constructors {
        let count = constructor.params.len();
        keys.push(constructor_key(alloc, count)?)
            .map_err(AllocError::from)?;
    }
    Boxed::new(alloc, KeyPlaces::of(alloc, keys)?)
}

impl MemberTable {
    /// These members by their names.
    pub fn of(alloc: Global, members: ClassMembers) -> Result<MemberTable, NoMemory>
        ensures { IfOk result (λ t. t.members ≡ members) }
    {
        let statics = field_places(alloc, true, members.fields.as_slice())?;
        let fields = field_places(alloc, false, members.fields.as_slice())?;
        let methods = method_places(alloc, members.methods.as_slice())?;
        let constructors = constructor_places(alloc, members.constructors.as_slice())?;
        Ok(MemberTable {
            members,
            statics,
            fields,
            methods,
            constructors,
        })
    }

    /// The place of the first field of this kind and name.
    pub fn field(&self, is_static: bool, name: &Name) -> Option<usize>
        ensures { result ≡ spec.own_field is_static name.now self.now.members }
    {
        if is_static {
            self.statics.get().place(name)
        } else {
            self.fields.get().place(name)
        }
    }

    /// The place of the first method with this key.
    pub fn method(&self, key: &MethodKey) -> Option<usize>
        ensures { result ≡ spec.own_method key.now self.now.members }
    {
        self.methods.get().place(key)
    }

    /// The place of the first constructor with this number of parameters.
    pub fn constructor(&self, alloc: Global, count: usize) -> Result<Option<usize>, NoMemory>
        ensures { IfOk result (λ n. n ≡ spec.own_constructor count self.now.members) }
    {
        Ok(
            self.constructors
                .get()
                .place(&constructor_key(alloc, count)?),
        )
    }
}
