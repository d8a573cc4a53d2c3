// The cells of constants.

ghost use Rattle.std.specs.Prelude.{◌≡◌, cond, Some, None, IfOk};
ghost use Rattle.request_states.specs.Values.{cell_of, is_cell};

use apex_list::Items;
use apex_num::{Cell, Dec, NoMemory, Text};
use std::alloc::Global;
use typed_program::Constant;

/// The cell of a constant; `None` exactly where there is no such cell.
pub fn cell_of(alloc: Global, constant: &Constant) -> Result<Option<Cell>, NoMemory>
    ensures { IfOk result (λ cell. cell ≡ cond (is_cell constant.now) (Some (cell_of constant.now)) None) }
{
    match constant {
        Constant::Null => Ok(Some(Cell::Null)),
        Constant::Bool(b) => Ok(Some(Cell::Bool(*b))),
        Constant::Whole(n) => Ok(Some(Cell::Whole(*n))),
        Constant::Decimal(n) => Ok(decimal(*n)),
        Constant::Text(bytes) => text(alloc, bytes),
    }
}

fn decimal(millionths: u64) -> Option<Cell>
    ensures { result ≡ cond (is_cell (Constant.Decimal millionths)) (Some (cell_of (Constant.Decimal millionths))) None }
{
    match Dec::of(millionths as i128) {
        Some(dec) => Some(Cell::Num(dec)),
        None => None,
    }
}

fn text(alloc: Global, bytes: &Items<u8>) -> Result<Option<Cell>, NoMemory>
    ensures { IfOk result (λ cell. cell ≡ cond (is_cell (Constant.Text bytes.now)) (Some (cell_of (Constant.Text bytes.now))) None) }
{
    let copied = Vec::from_slice(alloc, bytes.as_slice())?;
    match Text::of(alloc, copied)? {
        Some(text) => Ok(Some(Cell::Text(text))),
        None => Ok(None),
    }
}
