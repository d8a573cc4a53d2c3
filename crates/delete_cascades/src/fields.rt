// The fields of a schema that name rows.

ghost use Rattle.std.specs.Prelude.{◌≡◌, ◌++◌, IfOk, OnOk};
ghost use Rattle.save_statements.specs.Records as spec;
ghost use Rattle.delete_cascades.specs.Namings.{leads_by};

use apex_list::Items;
use apex_num::NoMemory;
use apex_schema::{Field, FieldKind, Object, Schema};
use save_statements::Naming;
use std::alloc::Global;

// The object whose rows a field names as their masters.
fn master_to(kind: &FieldKind) -> Option<usize>
    ensures { result ≡ spec.master_to kind.now }
{
    match kind {
        FieldKind::MasterDetail(link) => Some(link.to),
        FieldKind::Lookup(_)
        | FieldKind::Id
        | FieldKind::Text(_)
        | FieldKind::Number
        | FieldKind::Checkbox
        | FieldKind::Date
        | FieldKind::Datetime
        | FieldKind::Rollup(_) => None,
    }
}

// The object whose rows a field looks up.
fn lookup_to(kind: &FieldKind) -> Option<usize>
    ensures { result ≡ spec.lookup_to kind.now }
{
    match kind {
        FieldKind::Lookup(link) => Some(link.to),
        FieldKind::MasterDetail(_)
        | FieldKind::Id
        | FieldKind::Text(_)
        | FieldKind::Number
        | FieldKind::Checkbox
        | FieldKind::Date
        | FieldKind::Datetime
        | FieldKind::Rollup(_) => None,
    }
}

fn leads_to(lookups: bool, kind: &FieldKind) -> Option<usize>
    ensures { result ≡ leads_by lookups kind.now }
{
    if lookups {
        lookup_to(kind)
    } else {
        master_to(kind)
    }
}

// With the fields of an object.
fn add_fields(
    namings: &mut Items<Naming>,
    lookups: bool,
    object: usize,
    fields: &[Field],
) -> Result<(), NoMemory>
    ensures { OnOk result (namings.new ≡ namings.old ++ spec.namings_in (leads_by lookups) object 0 fields.now) }
{
    for i in 0..fields.len() {
        if let Some(to) = leads_to(lookups, &fields[i].kind) {
            namings.push(Naming {
                object,
                field: i,
                to,
            })?;
        }
    }
    Ok(())
}

fn namings(alloc: Global, lookups: bool, objects: &[Object]) -> Result<Items<Naming>, NoMemory>
    ensures { IfOk result (λ ns. ns ≡ spec.namings_from (leads_by lookups) 0 objects.now) }
{
    let mut all = Items::new(alloc);
    for i in 0..objects.len() {
        add_fields(&mut all, lookups, i, objects[i].fields.as_slice())?;
    }
    Ok(all)
}

/// The MasterDetail fields of a schema, in its order.
pub fn masters(alloc: Global, schema: &Schema) -> Result<Items<Naming>, NoMemory>
    ensures { IfOk result (λ ns. ns ≡ spec.masters schema.now) }
{
    namings(alloc, false, schema.objects.as_slice())
}

/// The Lookup fields of a schema, in its order.
pub fn lookups(alloc: Global, schema: &Schema) -> Result<Items<Naming>, NoMemory>
    ensures { IfOk result (λ ns. ns ≡ spec.lookups schema.now) }
{
    namings(alloc, true, schema.objects.as_slice())
}
