// Cells, written so: `null`, `yes`, `no`, `wN` a whole number, `nN` a Decimal, `tTEXT`, `iID`, `dN` a day, `mN` a moment.

use apex_list::Items;
use apex_num::{Cell, Id, Text, read_dec, read_id};
use apex_rows::Row;
use std::alloc::{AllocError, Global};

fn value(alloc: Global, kind: &str, text: &str) -> Result<Cell, AllocError> {
    Ok(match kind {
        "w" => Cell::Whole(text.parse().unwrap_or(0)),
        "n" => match read_dec(text.as_bytes()) {
            Ok(d) => Cell::Num(d),
            Err(_) => Cell::Null,
        },
        "t" => Cell::Text(Text::from_str(alloc, text)?),
        "i" => match read_id(text.as_bytes()) {
            Some(id) => Cell::Id(id),
            None => Cell::Null,
        },
        "d" => Cell::Day(text.parse().unwrap_or(0)),
        "m" => Cell::Moment(text.parse().unwrap_or(0)),
        _ => Cell::Null,
    })
}

pub fn cell_of(alloc: Global, written: &str) -> Result<Cell, AllocError> {
    match written {
        "yes" => Ok(Cell::Bool(true)),
        "no" => Ok(Cell::Bool(false)),
        "null" => Ok(Cell::Null),
        _ => match written.split_at_checked(1) {
            Some((kind, text)) => value(alloc, kind, text),
            None => Ok(Cell::Null),
        },
    }
}

pub fn id_of(written: &str) -> Option<Id> {
    read_id(written.as_bytes())
}

pub fn row_of(alloc: Global, object: usize, id: &str, written: &str) -> Result<Row, AllocError> {
    let mut cells = Items::new(alloc);
    for word in written.split_whitespace() {
        cells.push(cell_of(alloc, word)?)?;
    }
    match id_of(id) {
        Some(id) => Ok(Row { object, id, cells }),
        None => Err(AllocError),
    }
}
