// One row of a seed.

ghost use Rattle.std.specs.Prelude.{◌≡◌, ◌≤◌, length, slice_get, None, Some, IfOk, MatchResult};
ghost use Rattle.std.specs.Option.{option_copied};
ghost use Rattle.schema_plans.specs.Schemas.{numbered};
ghost use Rattle.formula_rules.specs.Grammar.{field_names};
ghost use Rattle.row_cells.specs.Rows.{IsOnlyRow};
ghost use Rattle.seed_rows.specs.Rows.{IsChecked, IsGoodId, IsOnlySeedRow, NoSeedRow, end_of};
ghost use Rattle.seed_rows.specs.Seeds as seed;
ghost use Rattle.seed_rows.specs.Views.{all_as_written, as_written};
ghost use Rattle.seed_rows.specs.Words as spec;

use crate::cells::{Check, Ground, any_field, is_no_owner};
use crate::made::Made;
use crate::written::WrittenRow;
use apex_list::Items;
use apex_num::{Cell, Id, NoMemory};
use apex_rows::Row;
use apex_schema::{Object, Schema};
use fault_words::FaultWord;
use record_ids::{is_seed_id, user_id};
use row_cells::{RowFault, row_of};
use schema_names::Places;
use std::alloc::{AllocError, Global};

/// Why a row isn't one.
#[derive(Clone, Copy, PartialEq, Eq, Drop)]
pub enum RowEnd {
    /// The first thing that is wrong with it.
    Word(FaultWord),
    NoMemory,
}

impl From<AllocError> for RowEnd {
    ghost use Rattle.std.specs.Prelude.{◌≡◌};
    ghost use Rattle.seed_rows.specs.declared.row.RowEnd.TheVariants.{NoMemory};

    ghost from_gives = { λ _ e. e ≡ NoMemory };

    fn from(_: AllocError) -> RowEnd {
        RowEnd::NoMemory
    }
}

// What isn't known of an owner is the first user, and of any other field null.
fn or_default(n: usize, known: &Option<Cell>) -> Result<Cell, NoMemory>
    ensures { IfOk result (λ cell. cell ≡ seed.or_default n known.now) }
{
    match known {
        Some(cell) => cell.copy(),
        None if n == 1 => Ok(Cell::Id(user_id(0))),
        None => Ok(Cell::Null),
    }
}

fn filled(alloc: Global, known: &[Option<Cell>]) -> Result<Items<Cell>, NoMemory>
    ensures { IfOk result (λ cells. cells ≡ numbered seed.or_default 0 known.now) }
{
    let mut cells = Items::new(alloc);
    'cells: for n in 0..known.len() {
        cells.push(or_default(n, &known[n])?)?;
    }
    Ok(cells)
}

// The Id of a row, where nothing is wrong with it.
fn good_id(prefix: &[u8], made: &Made, cell: Option<&Option<Cell>>) -> Option<Id>
    ensures { IsGoodId (spec.is_bad_id prefix.now made.now.rows.items (option_copied cell.entry)) (option_copied cell.entry) result }
{
    match cell {
        Some(Some(Cell::Id(id))) if is_seed_id(prefix, id) && !made.has(id) => Some(*id),
        _ => None,
    }
}

// The Id of a row whose cells are known, or the first thing that is wrong with it.
fn checked(
    ground: &Ground,
    users: usize,
    made: &Made,
    object: &Object,
    known: &[Option<Cell>],
) -> Result<Id, FaultWord>
    requires few { users ≤ 1000000 }
    requires count { length known.now ≡ length object.now.fields }
    ensures { IsChecked (spec.word_of users (all_as_written ground.now.all.now) made.now.rows.items object.now known.now) known.now result }
{
    let fields = object.fields.as_slice();
    if any_field(ground, Check::TooLong, fields, known) {
        return Err(FaultWord::BadCell);
    }
    let Some(id) = good_id(object.prefix.bytes(), made, known.get(0)) else {
        return Err(FaultWord::BadId);
    };
    if any_field(ground, Check::Lacking, fields, known) {
        Err(FaultWord::Missing)
    } else if is_no_owner(users, known.get(1))
        || any_field(ground, Check::Dangling, fields, known)
    {
        Err(FaultWord::UnknownRow)
    } else {
        Ok(id)
    }
}

// A row whose cells are known.
fn known_row(
    alloc: Global,
    ground: &Ground,
    schema: &Schema,
    made: &Made,
    w: &WrittenRow,
    n: usize,
    object: &Object,
    known: &[Option<Cell>],
) -> Result<Row, RowEnd>
    requires few { length schema.now.users ≤ 1000000 }
    requires number { w.now.object ≡ Some n }
    requires object { slice_get schema.now.objects n ≡ Some object.now }
    requires known { IsOnlyRow object.now.fields w.now.cells.now known.now }
    ensures { MatchResult result (IsOnlySeedRow schema.now (all_as_written ground.now.all.now) made.now.rows.items (as_written w.now)) (NoSeedRow schema.now (all_as_written ground.now.all.now) made.now.rows.items (as_written w.now)) }
{
    match checked(ground, schema.users.len(), made, object, known) {
        Ok(id) => Ok(Row {
            object: n,
            id,
            cells: filled(alloc, known)?,
        }),
        Err(word) => Err(RowEnd::Word(word)),
    }
}

fn end_of(fault: RowFault) -> RowEnd
    ensures { result ≡ end_of fault }
{
    match fault {
        RowFault::UnknownField => RowEnd::Word(FaultWord::UnknownField),
        RowFault::BadCell => RowEnd::Word(FaultWord::BadCell),
        RowFault::NoMemory => RowEnd::NoMemory,
    }
}

/// A row of the object with this number, in view of the rows before it. `places` are those of the object's fields.
pub fn object_row(
    alloc: Global,
    ground: &Ground,
    schema: &Schema,
    made: &Made,
    w: &WrittenRow,
    n: usize,
    object: &Object,
    places: &Places,
) -> Result<Row, RowEnd>
    requires few { length schema.now.users ≤ 1000000 }
    requires number { w.now.object ≡ Some n }
    requires object { slice_get schema.now.objects n ≡ Some object.now }
    requires places { places.now.names.items ≡ field_names object.now.fields }
    ensures { MatchResult result (IsOnlySeedRow schema.now (all_as_written ground.now.all.now) made.now.rows.items (as_written w.now)) (NoSeedRow schema.now (all_as_written ground.now.all.now) made.now.rows.items (as_written w.now)) }
{
    match row_of(alloc, places, object.fields.as_slice(), w.cells) {
        Ok(known) => known_row(alloc, ground, schema, made, w, n, object, known.as_slice()),
        Err(fault) => Err(end_of(fault)),
    }
}
