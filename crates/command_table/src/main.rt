//! Runs a table of calls of the program, over a source and a sink in memory, and prints each row that comes to another
//! end than it says, and at the end how many rows there are and how many differ.
//!
//! A row is a line with a JSON object. `words` are those of the command line. `input` is a text, a list of bytes, or an
//! object, which stands for its JSON text. `status` is the status that is due; `output` is the text, or a list of lines, in
//! which `ops=#` stands for any number. The others may be left out: `times`, how often the input stands behind itself;
//! `give` and `take`, the most bytes that the source gives and the sink takes at once; `bad_pulls` and `bad_pushes`, the
//! numbers of their calls, from 0, that fail. An empty line, and one that begins with `#`, is no row.
#![tactic(auto)]

mod output;
mod row;

use apex_io::{MemSink, MemSource, StdSource, read_all};
use commands::{Kept, top};
use output::is_due;
use row::{Row, row_of};
use std::alloc::{AllocError, Global};
use std::process::ExitCode;

// The greatest table that is read.
const MOST_BYTES: usize = 100_000_000;

// What a row comes to: nothing where that is what is due, and else a line for it.
fn difference(alloc: Global, number: usize, row: Row) -> Result<Option<String>, AllocError> {
    let mut source = MemSource::new(row.input, row.give.max(1), row.bad_pulls);
    let mut sink = MemSink::new(alloc, row.take.max(1), row.bad_pushes);
    let mut kept = Kept::new(alloc);
    let status = top(alloc, &row.words, &mut source, &mut sink, &mut kept);
    if u64::from(status) == row.status && is_due(&row.output, sink.bytes()) {
        return Ok(None);
    }
    let text = str::from_utf8(sink.bytes()).unwrap_or("no text\n");
    let line = format!(in alloc; "row {number}: status {status}, {text}")?;
    Ok(Some(line))
}

// What is told of a line of the table.
fn told(alloc: Global, number: usize, line: &[u8]) -> Result<Option<String>, AllocError> {
    match row_of(alloc, line)? {
        Some(row) => difference(alloc, number, row),
        None => Ok(Some(format!(in alloc; "row {number}: no row\n")?)),
    }
}

fn is_row(line: &[u8]) -> bool {
    match line.first() {
        None | Some(b'#') => false,
        Some(_) => true,
    }
}

fn main(rt: HostRuntime) -> anyhow::Result<ExitCode> {
    let mut source = StdSource::new(rt.stdin());
    let Ok(table) = read_all(rt.alloc(), &mut source, MOST_BYTES) else {
        return Ok(ExitCode::FAILURE);
    };
    let mut rows: usize = 0;
    let mut others: usize = 0;
    for line in table.split(|b| *b == b'\n') {
        if is_row(line) {
            rows = rows.saturating_add(1);
            if let Some(told) = told(rt.alloc(), rows, line)? {
                others = others.saturating_add(1);
                print!(rt; "{told}")?;
            }
        }
    }
    println!(rt; "{rows} rows, {others} differ")?;
    Ok(ExitCode::SUCCESS)
}
