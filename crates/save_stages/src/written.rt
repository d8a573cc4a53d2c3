// The row that is written.

ghost use Rattle.std.specs.Prelude.{◌≡◌, ◌<◌, suc, IfOk};
ghost use Rattle.record_ids.specs.Ids.{IsPrefix, minted_id as id_of, most};
ghost use Rattle.save_meaning.specs.Drafts as spec;
ghost use Rattle.save_statements.specs.Moves as moves;

use apex_list::Items;
use apex_num::{Cell, Id, NoMemory};
use apex_requests::Ticket;
use apex_rows::Row;
use apex_schema::Object;
use record_ids::minted_id;
use save_meaning::TxnState;
use std::alloc::Global;

// An empty text is kept as null.
fn kept_cell(cell: Cell) -> Cell
    ensures { result ≡ spec.kept_cell cell }
{
    match cell {
        Cell::Text(text) => {
            if text.bytes().is_empty() {
                Cell::Null
            } else {
                Cell::Text(text)
            }
        }
        other => other,
    }
}

fn kept_cells(alloc: Global, id: Id, cells: Items<Cell>) -> Result<Items<Cell>, NoMemory>
    ensures { IfOk result (λ kept. kept ≡ spec.kept_cells id cells) }
{
    let mut kept = Items::new(alloc);
    for cell in cells.into_vec() {
        if kept.is_empty() {
            kept.push(Cell::Id(id))?;
        } else {
            kept.push(kept_cell(cell))?;
        }
    }
    Ok(kept)
}

// The row that is written under an Id.
fn written(alloc: Global, id: Id, row: Row) -> Result<Row, NoMemory>
    ensures { IfOk result (λ r. r ≡ spec.written id row) }
{
    let Row {
        object,
        id: _,
        cells,
    } = row;
    Ok(Row {
        object,
        id,
        cells: kept_cells(alloc, id, cells)?,
    })
}

/// A row is written under an Id; the row as it was written comes back.
pub fn put_row(alloc: Global, id: Id, row: Row, txn: &mut TxnState) -> Result<Row, NoMemory>
    ensures { IfOk result (λ r. (r ≡ spec.written id row) × (txn.new ≡ moves.put id row txn.old)) }
{
    let row = written(alloc, id, row)?;
    txn.overlay.put(row.copy()?)?;
    Ok(row)
}

/// The Id that a request makes for an object as its `count`-th one, counted from 1.
pub fn next_id(object: &Object, ticket: Ticket, count: usize) -> Id
    requires prefix { IsPrefix object.now.prefix }
    requires session { suc ticket.session < most }
    requires request { ticket.index < most }
    requires count { count < most }
    ensures { result ≡ id_of object.now.prefix ticket.session ticket.index count }
{
    match object.prefix.bytes() {
        [a, b, c] => minted_id(
            [*a, *b, *c],
            ticket.session as usize,
            ticket.index as usize,
            count,
        ),
        _ => unreachable!(),
    }
}
