// The cells of a new row, by what the record knows.

ghost use Rattle.std.specs.Prelude.{◌≡◌, ◌<◌, suc, IfOk};
ghost use Rattle.record_ids.specs.Ids.{most};
ghost use Rattle.save_meaning.specs.Drafts as spec;
ghost use Rattle.save_loading.specs.Known.{known_at};

use apex_list::Items;
use apex_num::{Cell, Id, NoMemory, read_id};
use apex_schema::{Field, FieldKind};
use record_ids::user_id;
use std::alloc::Global;

// What a field has that the record doesn't know.
fn blank_of(kind: &FieldKind) -> Cell
    ensures { result ≡ spec.blank_of kind.now }
{
    match kind {
        FieldKind::Checkbox => Cell::Bool(false),
        FieldKind::Id
        | FieldKind::Text(_)
        | FieldKind::Number
        | FieldKind::Date
        | FieldKind::Datetime
        | FieldKind::Lookup(_)
        | FieldKind::MasterDetail(_)
        | FieldKind::Rollup(_) => Cell::Null,
    }
}

// What a record knows of a field.
fn known_cell(known: &[Option<Cell>], field: usize) -> Result<Option<Cell>, NoMemory>
    ensures { IfOk result (λ cell. cell ≡ known_at known.now field) }
{
    match known.get(field) {
        Some(Some(cell)) => Ok(Some(cell.copy()?)),
        Some(None) | None => Ok(None),
    }
}

// The cell of a field: what is known, or the user as the owner.
fn new_cell(user: usize, number: usize, field: &Field, known: Option<Cell>) -> Cell
    requires { suc user < most }
    ensures { result ≡ spec.new_cell user number field.now known }
{
    match known {
        Some(cell) => cell,
        None => {
            if number == 1 {
                Cell::Id(user_id(user))
            } else {
                blank_of(&field.kind)
            }
        }
    }
}

/// The cells of a new row: a field that the record doesn't know is false in a Checkbox, the user in `OwnerId`, and null otherwise.
pub fn new_cells(
    alloc: Global,
    user: usize,
    fields: &[Field],
    known: &[Option<Cell>],
) -> Result<Items<Cell>, NoMemory>
    requires { suc user < most }
    ensures { IfOk result (λ cells. cells ≡ spec.new_cells user 0 fields.now known.now) }
{
    let mut cells = Items::new(alloc);
    for i in 0..fields.len() {
        let known = known_cell(known, i)?;
        cells.push(new_cell(user, i, &fields[i], known))?;
    }
    Ok(cells)
}

/// The Id of a row that has none yet.
pub fn no_id() -> Id
    ensures { result ≡ spec.no_id }
{
    match read_id(b"000000000000000") {
        Some(id) => id,
        None => unreachable!(),
    }
}
