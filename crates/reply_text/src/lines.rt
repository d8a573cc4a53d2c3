// The parts of lines.

ghost use Rattle.std.specs.Prelude.{◌≡◌, ◌++◌, decimal, OnOk};
ghost use Rattle.reply_text.specs.Lines as spec;

use crate::words::{limit_word, word};
use apex_num::{LimitKind, Text};
use apex_requests::{Counts, Outcome, Reply};
use fault_words::Fault;
use itoa::Buffer;
use std::alloc::AllocError;

// Puts a label, and a number behind it.
pub fn put_number(out: &mut Vec<u8>, label: &[u8], n: u64) -> Result<(), AllocError>
    ensures { OnOk result (out.new.items ≡ out.old.items ++ label.now ++ decimal n) }
{
    let mut buffer = Buffer::new();
    out.extend_from_slice(label)?;
    out.extend_from_slice(buffer.format(n).as_bytes())
}

fn put_byte(out: &mut Vec<u8>, b: u8) -> Result<(), AllocError>
    ensures { OnOk result (out.new.items ≡ out.old.items ++ spec.escape b) }
{
    if b == b'\\' {
        return out.extend_from_slice(b"\\\\");
    }
    if b == b'\n' {
        return out.extend_from_slice(b"\\n");
    }
    if b == b'\r' {
        return out.extend_from_slice(b"\\r");
    }
    out.push(b)?;
    Ok(())
}

/// Puts a text behind others: a backslash, a line feed and a carriage return as a backslash and a letter.
pub fn put_escaped(out: &mut Vec<u8>, text: &[u8]) -> Result<(), AllocError>
    ensures { OnOk result (out.new.items ≡ out.old.items ++ spec.escaped text.now) }
{
    for b in text {
        put_byte(out, *b)?;
    }
    Ok(())
}

/// Puts the place of a fault, a blank and its word.
pub fn put_fault(out: &mut Vec<u8>, fault: &Fault) -> Result<(), AllocError>
    ensures { OnOk result (out.new.items ≡ out.old.items ++ spec.fault_text fault.now) }
{
    put_escaped(out, fault.place.bytes())?;
    out.extend_from_slice(b" ")?;
    out.extend_from_slice(word(fault.word))
}

/// Puts the counters of a reply, and the steps of its machine.
pub fn put_counts(out: &mut Vec<u8>, counts: &Counts, ops: u64) -> Result<(), AllocError>
    ensures { OnOk result (out.new.items ≡ out.old.items ++ spec.counts_text counts.now ops) }
{
    put_number(out, b"queries=", u64::from(counts.queries))?;
    put_number(out, b" rows=", u64::from(counts.rows))?;
    put_number(out, b" dml=", u64::from(counts.dml))?;
    put_number(out, b" saved=", u64::from(counts.saved))?;
    put_number(out, b" steps=", u64::from(counts.steps))?;
    put_number(out, b" ops=", ops)
}

/// Puts that an exception was thrown: its class and its message.
pub fn put_thrown(out: &mut Vec<u8>, class: &[u8], text: &[u8]) -> Result<(), AllocError>
    ensures { OnOk result (out.new.items ≡ out.old.items ++ spec.thrown_text class.now text.now) }
{
    out.extend_from_slice(b"thrown ")?;
    out.extend_from_slice(class)?;
    out.extend_from_slice(b": ")?;
    put_escaped(out, text)
}

/// Puts that a limit was passed, and to which number.
pub fn put_limit(out: &mut Vec<u8>, kind: LimitKind, number: u32) -> Result<(), AllocError>
    ensures { OnOk result (out.new.items ≡ out.old.items ++ spec.limit_text kind number) }
{
    out.extend_from_slice(b"limit ")?;
    out.extend_from_slice(limit_word(kind))?;
    put_number(out, b" ", u64::from(number))
}

/// Puts debug lines, each behind `| `.
pub fn put_debug(out: &mut Vec<u8>, lines: &[Text]) -> Result<(), AllocError>
    ensures { OnOk result (out.new.items ≡ out.old.items ++ spec.debug_text lines.now) }
{
    for line in lines {
        out.extend_from_slice(b"| ")?;
        put_escaped(out, line.bytes())?;
        out.extend_from_slice(b"\n")?;
    }
    Ok(())
}

// Puts what a line says of a reply.
fn put_line(out: &mut Vec<u8>, reply: &Reply) -> Result<(), AllocError>
    ensures { OnOk result (out.new.items ≡ out.old.items ++ spec.line_by reply.now.outcome reply.now) }
{
    match &reply.outcome {
        Outcome::Ok => {
            put_counts(out, &reply.counts, reply.ops)?;
            out.extend_from_slice(b" ok")
        }
        Outcome::Thrown(class, text) => {
            put_counts(out, &reply.counts, reply.ops)?;
            out.extend_from_slice(b" ")?;
            put_thrown(out, class.bytes(), text.bytes())
        }
        Outcome::Limit(kind, number) => {
            put_counts(out, &reply.counts, reply.ops)?;
            out.extend_from_slice(b" ")?;
            put_limit(out, *kind, *number)
        }
        Outcome::Refused(fault) => {
            out.extend_from_slice(b"refused ")?;
            put_fault(out, fault)
        }
    }
}

/// Puts what a line says of a reply, to the end of the line, and its debug lines. Of a refused request it says why, and of
/// any other its counters and its outcome.
pub fn put_reply(out: &mut Vec<u8>, reply: &Reply) -> Result<(), AllocError>
    ensures { OnOk result (out.new.items ≡ out.old.items ++ spec.reply_text reply.now) }
{
    put_line(out, reply)?;
    out.extend_from_slice(b"\n")?;
    put_debug(out, reply.debug.as_slice())
}
