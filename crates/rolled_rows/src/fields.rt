// Fields of a schema.

ghost use Rattle.std.specs.Prelude.{◌≡◌};
ghost use Rattle.rolled_rows.specs.Groups as groups;
ghost use Rattle.rolled_rows.specs.RollUps as spec;

use apex_schema::{Field, FieldKind, Rollup, Schema};

/// The fields of an object; none where there is no such object.
pub fn fields_of(schema: &Schema, object: usize) -> &[Field]
    ensures { result.now ≡ spec.fields_of schema.now object }
{
    match schema.objects.get(object) {
        Some(o) => o.fields.as_slice(),
        None => &[],
    }
}

// The object whose rows a field names as masters of its own row.
fn master_of(kind: &FieldKind) -> Option<usize>
    ensures { result ≡ spec.master_of kind.now }
{
    match kind {
        FieldKind::MasterDetail(link) => Some(link.to),
        FieldKind::Lookup(_)
        | FieldKind::Id
        | FieldKind::Text(_)
        | FieldKind::Number
        | FieldKind::Checkbox
        | FieldKind::Date
        | FieldKind::Datetime
        | FieldKind::Rollup(_) => None,
    }
}

/// The roll-up that a field is.
pub fn rollup_of(kind: &FieldKind) -> Option<Rollup>
    ensures { result ≡ spec.rollup_of kind.now }
{
    match kind {
        FieldKind::Rollup(rollup) => Some(*rollup),
        FieldKind::Lookup(_)
        | FieldKind::MasterDetail(_)
        | FieldKind::Id
        | FieldKind::Text(_)
        | FieldKind::Number
        | FieldKind::Checkbox
        | FieldKind::Date
        | FieldKind::Datetime => None,
    }
}

// Whether it leads to masters of this object.
fn leads_to(master: usize, kind: &FieldKind) -> bool
    ensures { result ≡ spec.is_object master (spec.master_of kind.now) }
{
    match master_of(kind) {
        Some(object) => object == master,
        None => false,
    }
}

/// The field by which the rows of an object name their masters of another one.
pub fn master_field(schema: &Schema, detail: usize, master: usize) -> Option<usize>
    ensures { result ≡ spec.master_field schema.now detail master }
{
    let fields = fields_of(schema, detail);
    'fields: for i in 0..fields.len() {
        if leads_to(master, &fields[i].kind) {
            return Some(i);
        }
    }
    None
}

// Whether it is a roll-up over the rows of this object.
fn is_over(detail: usize, kind: &FieldKind) -> bool
    ensures { result ≡ groups.is_over detail (spec.rollup_of kind.now) }
{
    match rollup_of(kind) {
        Some(rollup) => rollup.detail == detail,
        None => false,
    }
}

fn has_rollup(detail: usize, fields: &[Field]) -> bool
    ensures { result ≡ groups.has_rollup detail fields.now }
{
    for field in fields {
        if is_over(detail, &field.kind) {
            return true;
        }
    }
    false
}

/// Whether a field of a detail object leads to masters that have a roll-up over it.
pub fn is_summed(schema: &Schema, detail: usize, kind: &FieldKind) -> bool
    ensures { result ≡ groups.is_summed schema.now detail (spec.master_of kind.now) }
{
    match master_of(kind) {
        Some(master) => has_rollup(detail, fields_of(schema, master)),
        None => false,
    }
}
