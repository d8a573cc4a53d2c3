// References of a record that name no row.

ghost use Rattle.std.specs.Prelude.{◌≡◌, ◌<◌, ◌&&◌, not, slice_get, IfOk};
ghost use Rattle.std.specs.Option.{option_copied};
ghost use Rattle.row_meaning.specs.Conds.{cell_of};
ghost use Rattle.record_ids.specs.Ids.{most};
ghost use Rattle.save_meaning.specs.Drafts as drafts;
ghost use Rattle.save_statements.specs.Checks as spec;
ghost use Rattle.save_statements.specs.Records.{is_new as new_in};

use crate::changes::is_new;
use crate::named::Named;
use apex_num::{Cell, NoMemory, Text};
use apex_rows::Row;
use apex_schema::{Field, Object};
use platform_errors::RecordError;
use record_ids::user_number;
use save_statements::Pending;
use std::alloc::Global;

// Whether a cell has the Id of one of so many users.
fn is_user(users: usize, cell: &Cell) -> bool
    requires { users < most }
    ensures { result ≡ drafts.is_user users cell.now }
{
    match cell {
        Cell::Id(id) => match user_number(id) {
            Some(n) => n < users,
            None => false,
        },
        _ => false,
    }
}

// Whether the owner of a row is a user.
fn has_owner(users: usize, row: &Row) -> bool
    requires { users < most }
    ensures { result ≡ drafts.is_user users (cell_of row.now 1) }
{
    match row.cells.get(1) {
        Some(cell) => is_user(users, cell),
        None => false,
    }
}

// Whether the owner of a record is looked up and is none of so many users.
fn misses_owner(users: usize, pending: &Pending) -> bool
    requires { users < most }
    ensures { result ≡ (new_in 1 pending.now.row pending.now.seen && not (drafts.is_user users (cell_of pending.now.row 1))) }
{
    is_new(1, &pending.row, pending.seen.as_ref()) && !has_owner(users, &pending.row)
}

// The name of a field.
fn name_of(alloc: Global, field: Option<&Field>) -> Result<Text, NoMemory>
    ensures { IfOk result (λ name. name ≡ drafts.name_of (option_copied field.entry)) }
{
    match field {
        None => Text::from_str(alloc, ""),
        Some(field) => field.name.copy(),
    }
}

// The first reference of a record that is looked up and names no row.
fn dangling(found: &[Named], pending: &Pending) -> Result<Option<RecordError>, NoMemory>
    ensures { IfOk result (λ error. error ≡ spec.dangling found.now pending.now) }
{
    for one in found {
        if one.misses(pending) {
            let name = one.reference().name.copy()?;
            return Ok(Some(RecordError::NoReference(name)));
        }
    }
    Ok(None)
}

/// What is wrong with the references of a record of an object, where there are so many users and these rows may be named: an
/// owner who is new and no user; then the first reference that is looked up and names no row.
pub fn bad_reference(
    alloc: Global,
    users: usize,
    object: &Object,
    found: &[Named],
    pending: &Pending,
) -> Result<Option<RecordError>, NoMemory>
    requires { users < most }
    ensures { IfOk result (λ error. error ≡ spec.bad_reference users object.now found.now pending.now) }
{
    if misses_owner(users, pending) {
        let name = name_of(alloc, object.fields.get(1))?;
        return Ok(Some(RecordError::NoReference(name)));
    }
    dangling(found, pending)
}
