// Rows of a table.

use serde_json::Value;
use std::alloc::{AllocError, Global};

/// A call, and what is due of it.
#[derive(Drop)]
pub struct Row {
    pub words: Vec<String>,
    pub input: Vec<u8>,
    pub give: usize,
    pub take: usize,
    pub bad_pulls: Vec<u64>,
    pub bad_pushes: Vec<u64>,
    pub status: u64,
    pub output: Vec<u8>,
}

// A list of texts; what is no text in it counts for nothing.
fn texts(alloc: Global, value: Option<&Value>) -> Result<Vec<String>, AllocError> {
    let mut all = Vec::new(alloc);
    if let Some(Value::Array(items)) = value {
        for item in items {
            if let Some(text) = item.as_str() {
                all.push(String::from_str(alloc, text)?)?;
            }
        }
    }
    Ok(all)
}

// A list of numbers.
fn numbers(alloc: Global, value: Option<&Value>) -> Result<Vec<u64>, AllocError> {
    let mut all = Vec::new(alloc);
    if let Some(Value::Array(items)) = value {
        for item in items {
            if let Some(n) = item.as_u64() {
                all.push(n)?;
            }
        }
    }
    Ok(all)
}

fn number(value: Option<&Value>, otherwise: u64) -> u64 {
    value.and_then(Value::as_u64).unwrap_or(otherwise)
}

fn size(value: Option<&Value>, otherwise: usize) -> usize {
    match value.and_then(Value::as_u64) {
        Some(n) => n as usize,
        None => otherwise,
    }
}

// A text as it is, numbers as bytes, and anything else as its JSON text.
fn bytes(alloc: Global, value: &Value) -> Result<Vec<u8>, AllocError> {
    match value {
        Value::String(text) => Vec::from_slice(alloc, text.as_bytes()),
        Value::Array(_) => {
            let mut all = Vec::new(alloc);
            for n in numbers(alloc, Some(value))? {
                if let Ok(byte) = u8::try_from(n) {
                    all.push(byte)?;
                }
            }
            Ok(all)
        }
        _ => Ok(value.to_string(alloc)?.into_bytes()),
    }
}

fn repeated(alloc: Global, bytes: Vec<u8>, times: u64) -> Result<Vec<u8>, AllocError> {
    if times == 1 {
        return Ok(bytes);
    }
    let mut all = Vec::new(alloc);
    for _ in 0..times {
        all.extend_from_slice(&bytes)?;
    }
    Ok(all)
}

// A text as it is, or lines, each with its line feed.
fn output(alloc: Global, value: Option<&Value>) -> Result<Vec<u8>, AllocError> {
    let mut all = Vec::new(alloc);
    if let Some(Value::String(text)) = value {
        all.extend_from_slice(text.as_bytes())?;
        return Ok(all);
    }
    for line in texts(alloc, value)? {
        all.extend_from_slice(line.as_bytes())?;
        all.push(b'\n')?;
    }
    Ok(all)
}

// What the source is given.
fn input(alloc: Global, row: &Value) -> Result<Vec<u8>, AllocError> {
    match row.get("input") {
        Some(value) => repeated(alloc, bytes(alloc, value)?, number(row.get("times"), 1)),
        None => Ok(Vec::new(alloc)),
    }
}

fn read(alloc: Global, row: &Value) -> Result<Row, AllocError> {
    Ok(Row {
        words: texts(alloc, row.get("words"))?,
        input: input(alloc, row)?,
        give: size(row.get("give"), 7),
        take: size(row.get("take"), 5),
        bad_pulls: numbers(alloc, row.get("bad_pulls"))?,
        bad_pushes: numbers(alloc, row.get("bad_pushes"))?,
        status: number(row.get("status"), 256),
        output: output(alloc, row.get("output"))?,
    })
}

/// The row that a line is, where it is one.
pub fn row_of(alloc: Global, line: &[u8]) -> Result<Option<Row>, AllocError> {
    match Value::from_slice(alloc, line) {
        Ok(row) => Ok(Some(read(alloc, &row)?)),
        Err(fault) => {
            if fault.is_memory() {
                return Err(AllocError);
            }
            Ok(None)
        }
    }
}
