// Changes, written so: `+OBJECT:ID:TEXT` is a row that is written, with a text as its cell 1; `-ID` an Id that is removed;
// and of a journal `(`, `)` and `~`, where a statement begins, ends, and is undone.

use crate::cells::{id_of, row_of};
use apex_requests::Ticket;
use apex_rows::Row;
use std::alloc::{AllocError, Global};
use txn_overlay::{Journal, Overlay};

fn one_row(alloc: Global, written: &str) -> Result<Option<Row>, AllocError> {
    let Some((object, rest)) = written.split_once(':') else {
        return Ok(None);
    };
    let (id, text) = rest.split_once(':').unwrap_or((rest, ""));
    let cells = format!(in alloc; "i{id} t{text}")?;
    let row = row_of(alloc, object.parse().unwrap_or(0), id, cells.as_str())?;
    Ok(Some(row))
}

pub fn overlay_of(alloc: Global, written: &str) -> Result<Overlay, AllocError> {
    let mut overlay = Overlay::new(alloc);
    for word in written.split_whitespace() {
        if let Some(row) = word.strip_prefix("+") {
            if let Some(row) = one_row(alloc, row)? {
                overlay.put(row)?;
            }
        } else if let Some(id) = word.strip_prefix("-") {
            if let Some(id) = id_of(id) {
                overlay.remove(id)?;
            }
        }
    }
    Ok(overlay)
}

pub fn add_row(alloc: Global, out: &mut String, row: &Row) -> Result<(), AllocError> {
    let id = row.id.bytes();
    let id = str::from_utf8(&id).unwrap_or("?");
    let text = match row.cells.get(1) {
        Some(apex_num::Cell::Text(text)) => text.as_str(),
        _ => "?",
    };
    let shown = format!(in alloc; "{}:{id}:{text} ", row.object)?;
    out.push_str(shown.as_str())?;
    Ok(())
}

// The rows of an object that a transaction sees.
pub fn seen(alloc: Global, text: &str) -> Result<String, AllocError> {
    let (object, rest) = text.split_once(' ').unwrap_or((text, ""));
    let (changes, answered) = rest.split_once(" ; ").unwrap_or((rest, ""));
    let overlay = overlay_of(alloc, changes)?;
    let mut rows: Vec<Row> = Vec::new(alloc);
    for word in answered.split_whitespace() {
        if let Some(row) = one_row(alloc, word)? {
            rows.push(row)?;
        }
    }
    let merged = overlay.merge(object.parse().unwrap_or(0), rows)?;
    let mut out = String::new(alloc);
    for row in merged.as_slice() {
        add_row(alloc, &mut out, row)?;
    }
    Ok(out)
}

// What a transaction writes.
pub fn written(alloc: Global, text: &str) -> Result<String, AllocError> {
    let (session, rest) = text.split_once(' ').unwrap_or((text, ""));
    let (request, changes) = rest.split_once(' ').unwrap_or((rest, ""));
    let ticket = Ticket {
        session: session.parse().unwrap_or(0),
        index: request.parse().unwrap_or(0),
        user: 0,
        now: 0,
    };
    let overlay = overlay_of(alloc, changes)?;
    let mut out = String::new(alloc);
    if ticket.session >= 1_000_000 || ticket.index >= 1_000_000 {
        return String::from_str(alloc, "no ticket");
    }
    let writes = overlay.into_writes(&ticket)?;
    for row in writes.puts.as_slice() {
        add_row(alloc, &mut out, row)?;
    }
    for id in writes.drops.as_slice() {
        let id = id.bytes();
        let shown = format!(in alloc; "-{} ", str::from_utf8(&id).unwrap_or("?"))?;
        out.push_str(shown.as_str())?;
    }
    Ok(out)
}

// The rows of an object behind statements that end and are undone.
pub fn journal_rows(alloc: Global, text: &str) -> Result<String, AllocError> {
    let (object, words) = text.split_once(' ').unwrap_or((text, ""));
    let mut journal = Journal::new(alloc);
    for word in words.split_whitespace() {
        match word {
            "(" => journal.save()?,
            ")" => journal.keep(),
            "~" => journal.undo(),
            _ => {
                if let Some(row) = one_row(alloc, word.strip_prefix("+").unwrap_or(word))? {
                    journal.put(row)?;
                }
            }
        }
    }
    let none: Vec<Row> = Vec::new(alloc);
    let merged = journal.overlay().merge(object.parse().unwrap_or(0), none)?;
    let mut out = String::new(alloc);
    for row in merged.as_slice() {
        add_row(alloc, &mut out, row)?;
    }
    Ok(out)
}
