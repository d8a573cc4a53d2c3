// Saves as works.

ghost use Rattle.std.specs.Prelude.{◌≡◌, slice_get, Some, IfOk};
ghost use Rattle.formula_rules.specs.Grammar.{field_names};
ghost use Rattle.save_requests.specs.Saves as spec;

use crate::records::{RecordsEnd, records};
use apex_num::{NoMemory, Text};
use apex_requests::Work;
use apex_schema::Object;
use bundle_read::SaveEntry;
use fault_words::{Fault, FaultWord};
use record_words::SchemaPlaces;
use schema_names::Places;
use std::alloc::{AllocError, Global};

fn fault_in(alloc: Global, row: usize, word: FaultWord) -> Result<Fault, NoMemory>
    ensures { IfOk result (λ fault. fault ≡ spec.fault_in row word) }
{
    let place = format!(in alloc; "request {row}")?;
    Ok(Fault {
        place: Text::from_string(alloc, place)?,
        word,
    })
}

// A save of the object with this number.
fn work_of(
    alloc: Global,
    places: &SchemaPlaces,
    save: &SaveEntry,
    number: usize,
    object: &Object,
    fields: &Places,
) -> Result<Work, NoMemory>
    requires of { spec.IsOf places.now.schema.now save.now number object.now }
    requires fields { fields.now.names.items ≡ field_names object.now.fields }
    ensures { IfOk result (spec.IsOnlyWork places.now.schema.now save.now) }
{
    match records(
        alloc,
        fields,
        object.fields.as_slice(),
        save.rows.as_slice(),
    ) {
        Ok(rows) => Ok(Work::Save {
            op: save.op,
            object: number,
            all_or_none: save.all_or_none,
            rows,
        }),
        Err(RecordsEnd::At(row, word)) => Ok(Work::Refused(fault_in(alloc, row, word)?)),
        Err(RecordsEnd::NoMemory) => Err(AllocError),
    }
}

/// The work that a save request is: the save of its rows as records, with the number of each as its key and what it
/// knows of its object's fields; or what refuses it: `UnknownObject` at `request 0`, and otherwise `UnknownField` or
/// `BadCell` at `request` and the number of the first row that has one, from 0. A text may be too long.
pub fn save_work(alloc: Global, places: &SchemaPlaces, save: &SaveEntry) -> Result<Work, NoMemory>
    ensures { IfOk result (spec.IsOnlyWork places.now.schema.now save.now) }
{
    let Some(number) = places.object(alloc, &save.object)? else {
        return Ok(Work::Refused(fault_in(alloc, 0, FaultWord::UnknownObject)?));
    };
    match (places.schema.objects.get(number), places.fields_of(number)) {
        (Some(object), Some(fields)) => work_of(alloc, places, save, number, object, fields),
        _ => Ok(Work::Refused(fault_in(alloc, 0, FaultWord::UnknownObject)?)),
    }
}
