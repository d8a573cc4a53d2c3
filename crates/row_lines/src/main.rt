//! Tells what conditions hold of rows, and what overlays come to, one line each. `like TEXT PATTERN` prints whether the
//! text is like the pattern. `holds CELLS ; CONDITION` prints whether a condition holds of a row with these cells.
//! `sees OBJECT CHANGES ; IDS` prints the rows of an object that a transaction sees over what a store answered, and
//! `writes SESSION REQUEST CHANGES` what it writes. `stores WRITES ; TENANT OBJECT CONDITION` prints the rows of a
//! tenant's object for which a condition holds, behind writes of tenants with ` | ` between them. `goes OBJECT WORDS`
//! prints the rows of an object behind statements that end and are undone, and `asks CONDITION` for how many conditions a
//! query with this one asks its store.
#![tactic(auto)]

mod cells;
mod conds;
mod overlays;
mod stores;

use apex_io::{StdSource, read_all};
use row_conditions::{holds, local_part, text_like};
use std::alloc::{AllocError, Global};
use std::process::ExitCode;

// The greatest input that is read.
const MOST_BYTES: usize = 10_000_000;

fn answer_of(found: bool) -> &'static str {
    if found { "yes" } else { "no" }
}

fn like_line(alloc: Global, text: &str) -> Result<String, AllocError> {
    let (text, pattern) = text.split_once(' ').unwrap_or((text, ""));
    let found = text_like(alloc, text, pattern)?;
    String::from_str(alloc, answer_of(found))
}

fn holds_line(alloc: Global, text: &str) -> Result<String, AllocError> {
    let (written, condition) = text.split_once(" ; ").unwrap_or((text, ""));
    let row = cells::row_of(alloc, 1, "001000000000001", written)?;
    match conds::cond_of(alloc, condition)? {
        Some(cond) => {
            let found = holds(alloc, &cond, &row)?;
            String::from_str(alloc, answer_of(found))
        }
        None => String::from_str(alloc, "no condition"),
    }
}

fn asks_line(alloc: Global, text: &str) -> Result<String, AllocError> {
    match conds::cond_of(alloc, text)? {
        Some(cond) => {
            let asked = local_part(alloc, &cond)?;
            format!(in alloc; "{}", asked.len())
        }
        None => String::from_str(alloc, "no condition"),
    }
}

// What is told of a line.
fn answer(alloc: Global, line: &str) -> Result<String, AllocError> {
    let (word, text) = line.split_once(' ').unwrap_or((line, ""));
    match word {
        "like" => like_line(alloc, text),
        "holds" => holds_line(alloc, text),
        "sees" => overlays::seen(alloc, text),
        "writes" => overlays::written(alloc, text),
        "stores" => stores::stored(alloc, text),
        "goes" => overlays::journal_rows(alloc, text),
        "asks" => asks_line(alloc, text),
        _ => String::from_str(alloc, "no such word"),
    }
}

fn main(rt: HostRuntime) -> anyhow::Result<ExitCode> {
    let mut source = StdSource::new(rt.stdin());
    let Ok(bytes) = read_all(rt.alloc(), &mut source, MOST_BYTES) else {
        return Ok(ExitCode::FAILURE);
    };
    let Ok(text) = str::from_utf8(bytes.as_slice()) else {
        return Ok(ExitCode::FAILURE);
    };
    for line in text.lines() {
        let answer = answer(rt.alloc(), line)?;
        println!(rt; "{answer}")?;
    }
    Ok(ExitCode::SUCCESS)
}
