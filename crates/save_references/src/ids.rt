// References, and the Ids that records name by them.

ghost use Rattle.std.specs.Prelude.{◌≡◌, [], cond, IfOk, OnOk};
ghost use Rattle.row_meaning.specs.Conds.{cell_of};
ghost use Rattle.save_meaning.specs.Drafts as drafts;
ghost use Rattle.save_statements.specs.Checks as spec;
ghost use Rattle.save_statements.specs.Records.{going};
ghost use Rattle.save_references.specs.Looked.{named_by};

use answer_replay::IdSet;
use apex_list::{Items, Stack};
use apex_num::{Id, NoMemory};
use apex_schema::{Field, FieldKind};
use record_checks::is_looked_up;
use save_meaning::Reference;
use save_statements::{Pending, Record};
use std::alloc::Global;
use txn_overlay::Overlay;

/// The fields that lead to another object, the first one on top.
pub fn references(alloc: Global, fields: &[Field]) -> Result<Stack<Reference>, NoMemory>
    ensures { IfOk result (λ refs. refs ≡ drafts.references 0 fields.now) }
{
    let mut refs = Stack::new(alloc);
    let mut i = fields.len();
    'back: while i > 0 {
        i -= 1;
        let field = &fields[i];
        match &field.kind {
            FieldKind::Lookup(link) | FieldKind::MasterDetail(link) => {
                refs.push(Reference {
                    field: i,
                    to: link.to,
                    name: field.name.copy()?,
                })?;
            }
            FieldKind::Id
            | FieldKind::Text(_)
            | FieldKind::Number
            | FieldKind::Checkbox
            | FieldKind::Date
            | FieldKind::Datetime
            | FieldKind::Rollup(_) => {}
        }
    }
    Ok(refs)
}

// With the Id that a field of a record names, where it is looked up.
fn add_named(ids: &mut IdSet, field: usize, pending: &Pending) -> Result<(), NoMemory>
    ensures { OnOk result (ids.new ≡ drafts.with_ids (named_by field pending.now) ids.old) }
{
    if !is_looked_up(field, pending) {
        return Ok(());
    }
    match pending.row.cells.get(field) {
        Some(cell) => ids.insert_cell(cell),
        None => Ok(()),
    }
}

// The Ids that a field of the records that go on names, where they are looked up, rising, each once.
fn named_ids(alloc: Global, field: usize, records: &[Record]) -> Result<IdSet, NoMemory>
    ensures { IfOk result (λ ids. ids ≡ drafts.with_ids (spec.named_in field (going records.now)) []) }
{
    let mut ids = IdSet::new(alloc);
    for record in records {
        if let Record::Going(pending) = record {
            add_named(&mut ids, field, pending.get())?;
        }
    }
    Ok(ids)
}

/// Those of them that the transaction didn't touch.
pub fn wanted(
    alloc: Global,
    overlay: &Overlay,
    field: usize,
    records: &[Record],
) -> Result<Items<Id>, NoMemory>
    ensures { IfOk result (λ ids. ids ≡ drafts.untouched overlay.now (drafts.with_ids (spec.named_in field (going records.now)) [])) }
{
    named_ids(alloc, field, records)?.untouched(alloc, overlay)
}
