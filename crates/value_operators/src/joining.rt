// Joined texts of two values.

ghost use Rattle.std.specs.Prelude.{◌≡◌, ◌++◌, ◌<◌, ◌^◌, length, IfOk, OnOk, string_bytes};
ghost use Rattle.value_operators.specs.Operators as spec;

use apex_num::{NoMemory, Text};
use builtin_table::{text_length, text_of};
use std::alloc::Global;
use txn_heap::Value;

fn size(v: &Value) -> usize
    ensures value { result ≡ length (spec.plain_text v.now) }
    ensures small { result < 2 ^ 63 }
{
    match v {
        Value::Plain(cell) => text_length(cell),
        Value::Object(_) => 0,
    }
}

/// The number of bytes that the joined text of two values has. It takes no memory.
pub fn joined_size(v: &Value, w: &Value) -> usize
    ensures { result ≡ length (spec.joined v.now w.now) }
{
    size(v) + size(w)
}

fn push(alloc: Global, v: &Value, line: &mut String) -> Result<(), NoMemory>
    ensures { OnOk result (string_bytes line.new ≡ string_bytes line.old ++ spec.plain_text v.now) }
{
    match v {
        Value::Plain(cell) => {
            let text = text_of(alloc, cell)?;
            line.push_str(text.as_str())
        }
        Value::Object(_) => Ok(()),
    }
}

/// The text of two primitives, one behind the other.
pub fn joined(alloc: Global, v: &Value, w: &Value) -> Result<Text, NoMemory>
    ensures { IfOk result (λ t. t ≡ spec.joined v.now w.now) }
{
    let mut line = String::new(alloc);
    push(alloc, v, &mut line)?;
    push(alloc, w, &mut line)?;
    Text::from_string(alloc, line)
}
