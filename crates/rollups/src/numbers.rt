// The numbers of a field.

ghost use Rattle.std.specs.Prelude.{◌≡◌, IfSome};
ghost use Rattle.apex_num.specs.Decimals.{IsDecimal};
ghost use Rattle.row_meaning.specs.Rollups.{field_number};
ghost use Rattle.rollups.specs.Parts.{listed};

use apex_num::Cell;
use apex_rows::Row;

// The number that a row has in a field, in millionths; none where it is null.
pub(crate) fn number_in(field: Option<usize>, row: &Row) -> Option<i128>
    ensures is { listed result ≡ field_number field row.now }
    ensures range { IfSome result (λ d. IsDecimal d) }
{
    let Some(field) = field else {
        return None;
    };
    match row.cells.get(field) {
        Some(Cell::Num(d)) => Some(d.millionths()),
        _ => None,
    }
}
