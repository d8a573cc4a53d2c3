// What a text literal stands for.

ghost use Rattle.std.specs.Prelude.{◌≡◌, IfOk, false};
ghost use Rattle.token_grammar.specs.Literals as literals;

use apex_list::Items;
use std::alloc::{AllocError, Global};

// The byte of an escape.
fn escape(byte: u8) -> u8
    ensures { result ≡ literals.escape byte }
{
    match byte {
        b'n' => 10,
        b't' => 9,
        b'r' => 13,
        b'b' => 8,
        b'f' => 12,
        _ => byte,
    }
}

/// The bytes that a text literal stands for: what is between its quotes, with each escape as its byte.
pub fn literal_bytes(alloc: Global, text: &[u8]) -> Result<Items<u8>, AllocError>
    ensures { IfOk result (λ bytes. bytes ≡ literals.literal_bytes text.now) }
{
    let inside = match text.split_first() {
        Some((_, rest)) => rest,
        None => text,
    };
    let body = inside.split_at(inside.len().saturating_sub(1)).0;
    said(alloc, body)
}

fn said(alloc: Global, body: &[u8]) -> Result<Items<u8>, AllocError>
    ensures { IfOk result (λ bytes. bytes ≡ literals.said false body.now) }
{
    let mut bytes = Items::new(alloc);
    let mut escaped = false;
    'bytes: for byte in body {
        if escaped {
            bytes.push(escape(*byte))?;
            escaped = false;
        } else if *byte == b'\\' {
            escaped = true;
        } else {
            bytes.push(*byte)?;
        }
    }
    Ok(bytes)
}
