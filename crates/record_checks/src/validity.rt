// The first thing that is wrong with a record.

ghost use Rattle.std.specs.Prelude.{◌≡◌, ◌<◌, ◌&&◌, IfOk};
ghost use Rattle.platform_errors.specs.declared.record.RecordError.TheVariants as TheError;
ghost use Rattle.row_meaning.specs.Conds.{cell_of};
ghost use Rattle.row_meaning.specs.Rules.{rule_value};
ghost use Rattle.record_ids.specs.Ids.{most};
ghost use Rattle.save_meaning.specs.Drafts as drafts;
ghost use Rattle.save_meaning.specs.Drafts.{or_later, when};
ghost use Rattle.save_statements.specs.Checks as spec;

use crate::fields::{has_bad_level, lacking, other_master, too_long};
use crate::named::Named;
use crate::references::bad_reference;
use apex_num::NoMemory;
use apex_schema::{Object, Rule, RuleHead};
use formula_rules::rule_holds;
use platform_errors::RecordError;
use save_statements::Pending;
use std::alloc::Global;

// Whether a rule holds of the row of a record and the one that it was.
fn holds(rule: &Rule, pending: &Pending) -> bool
    ensures { result ≡ rule_value pending.now.row pending.now.old rule.now }
{
    rule_holds(rule, &pending.row, pending.old.as_ref())
}

// The first rule that holds, with its message.
fn broken(
    rules: &[Rule],
    heads: &[RuleHead],
    pending: &Pending,
) -> Result<Option<RecordError>, NoMemory>
    ensures { IfOk result (λ error. error ≡ spec.broken rules.now heads.now pending.now) }
{
    for i in 0..rules.len() {
        let Some(head) = heads.get(i) else {
            return Ok(None);
        };
        if holds(&rules[i], pending) {
            return Ok(Some(RecordError::Custom(head.message.copy()?)));
        }
    }
    Ok(None)
}

// The first thing that is wrong with the row of a record, whatever it names.
fn bad_row(
    shares: bool,
    object: &Object,
    pending: &Pending,
) -> Result<Option<RecordError>, NoMemory>
    ensures { IfOk result (λ error. error ≡
        or_later (drafts.lacking 0 object.now.fields pending.now.row) (or_later (drafts.too_long 0 object.now.fields pending.now.row)
        (or_later (when (shares && drafts.is_bad_level (cell_of pending.now.row 4)) TheError.BadLevel) (spec.broken object.now.rules object.now.heads pending.now)))) }
{
    if let Some(error) = lacking(object.fields.as_slice(), &pending.row)? {
        return Ok(Some(error));
    }
    if let Some(error) = too_long(object.fields.as_slice(), &pending.row)? {
        return Ok(Some(error));
    }
    if shares && has_bad_level(&pending.row) {
        return Ok(Some(RecordError::BadLevel));
    }
    broken(object.rules.as_slice(), object.heads.as_slice(), pending)
}

/// The first thing that is wrong with a record of an object, which may be RowShare, where there are so many users and these rows
/// may be named: a reference that is looked up and names no row; then a MasterDetail field that an update changes; then a field
/// that needs a value and has none; then a text that is too long; then a level of RowShare that there isn't; then a rule that
/// holds of the row and the one that it was.
pub fn invalid(
    alloc: Global,
    users: usize,
    shares: bool,
    object: &Object,
    found: &[Named],
    pending: &Pending,
) -> Result<Option<RecordError>, NoMemory>
    requires { users < most }
    ensures { IfOk result (λ error. error ≡ spec.invalid users shares object.now found.now pending.now) }
{
    if let Some(error) = bad_reference(alloc, users, object, found, pending)? {
        return Ok(Some(error));
    }
    if let Some(error) = other_master(object.fields.as_slice(), pending)? {
        return Ok(Some(error));
    }
    bad_row(shares, object, pending)
}
