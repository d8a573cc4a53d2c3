//! Calls built-in methods, one a line, and prints what each answers or throws, with the size that was told before.
//!
//! A line has a type, a name with the number of arguments, and the values, its receiver first: `String|indexOf/1|'abc|'b`.
//! A value is `null`, `true`, `false`, `'TEXT`, a whole number, `mDECIMAL`, `iID`, `dYYYY-MM-DD` or `tYYYY-MM-DD hh:mm:ss`.
#![tactic(auto)]

use apex_io::{StdSource, read_all};
use apex_num::{Cell, Text, read_dec, read_id};
use apex_text::Name;
use builtin_names::signature;
use builtin_sizes::text_size;
use builtin_table::{Builtin, BuiltinEnd, call_builtin, text_of};
use civil_dates::{read_date, read_stamp};
use std::alloc::{AllocError, Global};
use std::process::ExitCode;

// The greatest input that is read.
const MOST_BYTES: usize = 10_000_000;

// A value behind its mark.
fn marked(alloc: Global, mark: u8, rest: &str) -> Result<Option<Cell>, AllocError> {
    Ok(match mark {
        b'\'' => Some(Cell::Text(Text::from_str(alloc, rest)?)),
        b'm' => read_dec(rest.as_bytes()).ok().map(Cell::Num),
        b'i' => read_id(rest.as_bytes()).map(Cell::Id),
        b'd' => read_date(rest.as_bytes()).map(Cell::Day),
        b't' => read_stamp(rest.as_bytes()).map(Cell::Moment),
        _ => None,
    })
}

fn value(alloc: Global, text: &str) -> Result<Option<Cell>, AllocError> {
    if let Ok(n) = text.parse::<i64>() {
        return Ok(Some(Cell::Whole(n)));
    }
    match text {
        "null" => return Ok(Some(Cell::Null)),
        "true" => return Ok(Some(Cell::Bool(true))),
        "false" => return Ok(Some(Cell::Bool(false))),
        _ => {}
    }
    match text.split_at_checked(1) {
        Some((mark, rest)) => marked(alloc, mark.as_bytes()[0], rest),
        None => Ok(None),
    }
}

// The values of a line, if each is one.
fn values(alloc: Global, parts: &[&str]) -> Result<Option<Vec<Cell>>, AllocError> {
    let mut all = Vec::new(alloc);
    for part in parts {
        match value(alloc, part)? {
            Some(cell) => all.push(cell)?,
            None => return Ok(None),
        }
    }
    Ok(Some(all))
}

// The method of a type, and of a name with a number of arguments.
fn method(alloc: Global, kind: &str, name: &str) -> Result<Option<Builtin>, AllocError> {
    let Some((name, count)) = name.split_once('/') else {
        return Ok(None);
    };
    let Ok(count) = count.parse::<usize>() else {
        return Ok(None);
    };
    let kind = Name::of(alloc, kind.as_bytes())?;
    let name = Name::of(alloc, name.as_bytes())?;
    Ok(signature(&kind, &name, count))
}

fn kind_of(cell: &Cell) -> &'static str {
    match cell {
        Cell::Null => "null",
        Cell::Bool(_) => "Boolean",
        Cell::Whole(_) => "whole",
        Cell::Num(_) => "Decimal",
        Cell::Text(_) => "String",
        Cell::Id(_) => "Id",
        Cell::Day(_) => "Date",
        Cell::Moment(_) => "Datetime",
    }
}

// What a call comes to.
fn called(alloc: Global, which: Builtin, args: &[Cell]) -> Result<String, AllocError> {
    let size = text_size(which, args);
    match call_builtin(alloc, which, args) {
        Ok(cell) => {
            let text = text_of(alloc, &cell)?;
            match size {
                Some(n) => format!(in alloc; "{} [{}] {n}", kind_of(&cell), text.as_str()),
                None => format!(in alloc; "{} [{}]", kind_of(&cell), text.as_str()),
            }
        }
        Err(BuiltinEnd::Throw(class, message)) => match size {
            Some(n) => format!(in alloc; "{}: {} {n}", class.name(), message.as_str()),
            None => format!(in alloc; "{}: {}", class.name(), message.as_str()),
        },
        Err(BuiltinEnd::NoMemory) => Err(AllocError),
    }
}

fn line_of(alloc: Global, line: &str) -> Result<String, AllocError> {
    let parts: Vec<&str> = line.split('|').collect(alloc)?;
    let [kind, name, rest @ ..] = parts.as_slice() else {
        return String::from_str(alloc, "no call");
    };
    let Some(which) = method(alloc, kind, name)? else {
        return String::from_str(alloc, "no method");
    };
    match values(alloc, rest)? {
        Some(args) => called(alloc, which, args.as_slice()),
        None => String::from_str(alloc, "no value"),
    }
}

fn main(rt: HostRuntime) -> anyhow::Result<ExitCode> {
    let mut source = StdSource::new(rt.stdin());
    let Ok(bytes) = read_all(rt.alloc(), &mut source, MOST_BYTES) else {
        return Ok(ExitCode::FAILURE);
    };
    let Ok(text) = str::from_utf8(bytes.as_slice()) else {
        return Ok(ExitCode::FAILURE);
    };
    for line in text.lines() {
        let answer = line_of(rt.alloc(), line)?;
        println!(rt; "{answer}")?;
    }
    Ok(ExitCode::SUCCESS)
}
