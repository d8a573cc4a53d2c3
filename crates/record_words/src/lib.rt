//! The words that may stand behind a record and a dot: its fields, its parents by their relations, and its children.
//! The names of a schema's objects and of their fields, each found by one look into a hash table.
#![tactic(auto)]

mod entries;
mod words;

ghost use Rattle.std.specs.Prelude.{◌≡◌, map, slice_get, option_map, IfOk};
ghost use Rattle.std.specs.Option.{option_copied};
ghost use Rattle.schema_names.specs.Names.{place_of};
ghost use Rattle.apex_text.specs.Fold.{folded};
ghost use Rattle.record_words.specs.Names.{names_in, object_names, all_field_names};

use apex_num::{NoMemory, Text};
use apex_schema::{Object, Schema};
use apex_text::Name;
pub use entries::{RecordKey, RecordWord};
use formula_rules::field_places;
use schema_names::Places;
use std::alloc::Global;
pub use words::RecordWords;

/// A schema with the places of its names.
#[derive(Drop)]
pub struct SchemaPlaces<'a> {
    pub schema: &'a Schema,
    objects: Places,
    fields: Vec<Places>,
    ghost objects_are: { objects.names.items ≡ object_names schema.now.objects },
    ghost fields_are: { map names_in fields.items ≡ all_field_names schema.now.objects },
}

/// The names of objects, in their order.
pub fn object_places(alloc: Global, objects: &[Object]) -> Result<Places, NoMemory>
    ensures { IfOk result (λ places. places.names.items ≡ object_names objects.now) }
{
    let mut names = Vec::new(alloc);
    for object in objects {
        names.push(Name::of(alloc, object.name.bytes())?)?;
    }
    Places::of(alloc, names)
}

fn places_of_fields(alloc: Global, objects: &[Object]) -> Result<Vec<Places>, NoMemory>
    ensures { IfOk result (λ all. map names_in all.items ≡ all_field_names objects.now) }
{
    let mut all = Vec::new(alloc);
    for object in objects {
        all.push(field_places(alloc, object.fields.as_slice())?)?;
    }
    Ok(all)
}

impl<'a> SchemaPlaces<'a> {
    /// The places of the names of a schema's objects and fields.
    pub fn of(alloc: Global, schema: &'a Schema) -> Result<SchemaPlaces<'a>, NoMemory>
        ensures { IfOk result (λ places. places.schema.now ≡ schema.now) }
    {
        let objects = object_places(alloc, schema.objects.as_slice())?;
        let fields = places_of_fields(alloc, schema.objects.as_slice())?;
        Ok(SchemaPlaces {
            schema,
            objects,
            fields,
        })
    }

    /// The number of the object with this name, without the case of ASCII letters.
    pub fn object(&self, alloc: Global, name: &Text) -> Result<Option<usize>, NoMemory>
        ensures { IfOk result (λ n. n ≡ place_of (object_names self.now.schema.now.objects) (folded name.now)) }
    {
        let name = Name::of(alloc, name.bytes())?;
        Ok(self.objects.place(&name))
    }

    /// The names of the fields of the object with this number.
    pub fn fields_of(&self, n: usize) -> Option<&Places>
        ensures { option_map names_in (option_copied result) ≡ slice_get (all_field_names self.now.schema.now.objects) n }
    {
        self.fields.get(n)
    }
}
