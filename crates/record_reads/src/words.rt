// The names of objects, fields and relations, as a record tells them that doesn't know what is read.

ghost use Rattle.std.specs.Prelude.{◌≡◌, slice_get, IfOk};
ghost use Rattle.std.specs.Option.{option_copied};
ghost use Rattle.apex_meaning.specs.Records as spec;

use apex_num::{NoMemory, Text};
use apex_schema::{Field, FieldKind, Object, Schema};
use platform_errors::Thrown;
use std::alloc::Global;
use value_operators::Calculated;

fn name_of(alloc: Global, object: Option<&Object>) -> Result<Text, NoMemory>
    ensures { IfOk result (λ t. t ≡ spec.name_of (option_copied object.entry)) }
{
    match object {
        None => Text::from_str(alloc, ""),
        Some(object) => object.name.copy(),
    }
}

fn field_at(object: Option<&Object>, field: usize) -> Option<&Field>
    ensures { option_copied result ≡ spec.field_at (option_copied object.entry) field }
{
    match object {
        None => None,
        Some(object) => object.fields.get(field),
    }
}

fn relation_of(alloc: Global, kind: &FieldKind) -> Result<Text, NoMemory>
    ensures { IfOk result (λ t. t ≡ spec.relation_of kind.now) }
{
    match kind {
        FieldKind::Lookup(link) => link.relation.copy(),
        FieldKind::MasterDetail(link) => link.relation.copy(),
        _ => Text::from_str(alloc, ""),
    }
}

fn children_of(alloc: Global, kind: &FieldKind) -> Result<Text, NoMemory>
    ensures { IfOk result (λ t. t ≡ spec.children_of kind.now) }
{
    match kind {
        FieldKind::Lookup(link) => link.children.copy(),
        FieldKind::MasterDetail(link) => link.children.copy(),
        _ => Text::from_str(alloc, ""),
    }
}

/// The name of a field of an object; empty where there is none.
pub(crate) fn field_name(
    alloc: Global,
    schema: &Schema,
    object: usize,
    field: usize,
) -> Result<Text, NoMemory>
    ensures { IfOk result (λ t. t ≡ spec.field_name (spec.field_at (slice_get schema.now.objects object) field)) }
{
    match field_at(schema.objects.get(object), field) {
        None => Text::from_str(alloc, ""),
        Some(field) => field.name.copy(),
    }
}

/// The word that leads to the row that a field names; empty where there is none.
pub(crate) fn relation_word(
    alloc: Global,
    schema: &Schema,
    object: usize,
    field: usize,
) -> Result<Text, NoMemory>
    ensures { IfOk result (λ t. t ≡ spec.word_of spec.relation_of (spec.field_at (slice_get schema.now.objects object) field)) }
{
    match field_at(schema.objects.get(object), field) {
        None => Text::from_str(alloc, ""),
        Some(field) => relation_of(alloc, &field.kind),
    }
}

/// The word that leads back from there; empty where there is none.
pub(crate) fn children_word(
    alloc: Global,
    schema: &Schema,
    object: usize,
    field: usize,
) -> Result<Text, NoMemory>
    ensures { IfOk result (λ t. t ≡ spec.word_of spec.children_of (spec.field_at (slice_get schema.now.objects object) field)) }
{
    match field_at(schema.objects.get(object), field) {
        None => Text::from_str(alloc, ""),
        Some(field) => children_of(alloc, &field.kind),
    }
}

/// What is thrown where a record of this object was given by a query that didn't select this.
pub(crate) fn unasked(
    alloc: Global,
    schema: &Schema,
    object: usize,
    word: Text,
) -> Result<Calculated, NoMemory>
    ensures { IfOk result (λ c. c ≡ Calculated.Fails (Thrown.NotQueried (spec.name_of (slice_get schema.now.objects object)) word)) }
{
    let name = name_of(alloc, schema.objects.get(object))?;
    Ok(Calculated::Fails(Thrown::NotQueried(name, word)))
}
