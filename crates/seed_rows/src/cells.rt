// What may be wrong with the cells of a row.

ghost use Rattle.std.specs.Prelude.{◌≡◌, ◌≤◌, length};
ghost use Rattle.std.specs.Option.{option_copied};
ghost use Rattle.std.specs.Str.{chars};
ghost use Rattle.seed_rows.specs.Keys.{HasKeys};
ghost use Rattle.seed_rows.specs.Views.{all_as_written, test_of};
ghost use Rattle.seed_rows.specs.Words as spec;

use crate::keys::RowKey;
use crate::written::WrittenRow;
use apex_num::{Cell, Id};
use apex_schema::{Field, FieldKind};
use indexmap::IndexSet;
use record_ids::user_number;

/// The rows that are written, and those of them that may be named.
#[derive(Drop)]
pub struct Ground<'a> {
    pub all: &'a [WrittenRow<'a>],
    pub keys: IndexSet<RowKey>,
    ghost keys_are: { HasKeys (all_as_written all.now) keys },
}

/// What is asked of each field.
#[derive(Clone, Copy, PartialEq, Eq, Drop)]
pub enum Check {
    TooLong,
    Lacking,
    Dangling,
}

fn count(text: &str) -> usize
    ensures { result ≡ length (chars text.now) }
{
    text.chars().count()
}

// Whether a text has more scalars than its field takes.
fn is_long(kind: &FieldKind, known: &Option<Cell>) -> bool
    ensures { result ≡ spec.is_long kind.now known.now }
{
    match (kind, known) {
        (FieldKind::Text(most), Some(Cell::Text(text))) => count(text.as_str()) > *most as usize,
        _ => false,
    }
}

fn is_needed(required: bool, kind: &FieldKind) -> bool
    ensures { result ≡ spec.is_needed required kind.now }
{
    match kind {
        FieldKind::MasterDetail(_) => true,
        FieldKind::Rollup(_) => false,
        _ => required,
    }
}

// Whether it is nothing, null or an empty text.
fn is_blank(known: &Option<Cell>) -> bool
    ensures { result ≡ spec.is_blank known.now }
{
    match known {
        None | Some(Cell::Null) => true,
        Some(Cell::Text(text)) => text.bytes().is_empty(),
        _ => false,
    }
}

// Whether no row of this object has the Id.
fn is_missing(ground: &Ground, object: usize, id: &Id) -> bool
    ensures { result ≡ spec.is_missing (all_as_written ground.now.all.now) object id.now }
{
    let key = RowKey {
        object,
        id: id.bytes(),
    };
    !ground.keys.contains(&key)
}

fn leads_nowhere(ground: &Ground, kind: &FieldKind, known: &Option<Cell>) -> bool
    ensures { result ≡ spec.leads_nowhere (all_as_written ground.now.all.now) kind.now known.now }
{
    match (kind, known) {
        (FieldKind::Lookup(link) | FieldKind::MasterDetail(link), Some(Cell::Id(id))) => {
            is_missing(ground, link.to, id)
        }
        _ => false,
    }
}

fn passes(ground: &Ground, check: Check, field: &Field, known: &Option<Cell>) -> bool
    ensures { result ≡ spec.passes (test_of (all_as_written ground.now.all.now) check) field.now known.now }
{
    match check {
        Check::TooLong => is_long(&field.kind, known),
        Check::Lacking => is_needed(field.required, &field.kind) && is_blank(known),
        Check::Dangling => leads_nowhere(ground, &field.kind, known),
    }
}

/// Whether one of the fields passes.
pub fn any_field(ground: &Ground, check: Check, fields: &[Field], known: &[Option<Cell>]) -> bool
    requires { length known.now ≡ length fields.now }
    ensures { result ≡ spec.any_field (test_of (all_as_written ground.now.all.now) check) fields.now known.now }
{
    'fields: for i in 0..fields.len() {
        if passes(ground, check, &fields[i], &known[i]) {
            return true;
        }
    }
    false
}

// Whether it is the Id of one of so many users.
fn is_user(users: usize, id: &Id) -> bool
    requires { users ≤ 1000000 }
    ensures { result ≡ spec.is_user users id.now }
{
    match user_number(id) {
        Some(number) => number < users,
        None => false,
    }
}

/// Whether an owner is written that is no user.
pub fn is_no_owner(users: usize, owner: Option<&Option<Cell>>) -> bool
    requires { users ≤ 1000000 }
    ensures { result ≡ spec.is_no_owner users (option_copied owner.entry) }
{
    match owner {
        Some(Some(Cell::Id(id))) => !is_user(users, id),
        Some(Some(_)) => true,
        _ => false,
    }
}
