// What stands behind a record and a dot.

ghost use Rattle.std.specs.Prelude.{◌≡◌, slice_get};
ghost use Rattle.std.specs.Option.{option_copied};
ghost use Rattle.name_meanings.specs.Records as spec;

use apex_schema::{Field, FieldKind, Object};
use static_types::Primitive;

/// The type of what a field holds.
pub fn cell_type(kind: &FieldKind) -> Primitive
    ensures { result ≡ spec.cell_type kind.now }
{
    match kind {
        FieldKind::Id | FieldKind::Lookup(_) | FieldKind::MasterDetail(_) => Primitive::Id,
        FieldKind::Text(_) => Primitive::String,
        FieldKind::Number | FieldKind::Rollup(_) => Primitive::Decimal,
        FieldKind::Checkbox => Primitive::Boolean,
        FieldKind::Date => Primitive::Date,
        FieldKind::Datetime => Primitive::Datetime,
    }
}

/// Whether code may set a field: roll-ups are computed.
pub fn may_set_cell(kind: &FieldKind) -> bool
    ensures { result ≡ spec.may_set_cell kind.now }
{
    match kind {
        FieldKind::Rollup(_) => false,
        _ => true,
    }
}

/// The object that a field leads to.
pub fn parent_object(kind: &FieldKind) -> Option<usize>
    ensures { result ≡ spec.parent_object kind.now }
{
    match kind {
        FieldKind::Lookup(link) | FieldKind::MasterDetail(link) => Some(link.to),
        _ => None,
    }
}

/// A field of an object, by their numbers.
pub fn field_in(objects: &[Object], object: usize, field: usize) -> Option<&Field>
    ensures { option_copied result ≡ spec.field_in objects.now object field }
{
    match objects.get(object) {
        Some(object) => object.fields.get(field),
        None => None,
    }
}
