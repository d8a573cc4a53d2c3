// Names as they are written.

ghost use Rattle.std.specs.Prelude.{◌≡◌, IfOk};
ghost use Rattle.apex_types.specs.Written as spec;

use apex_list::Items;
use apex_num::{NoMemory, Text};
use std::alloc::Global;
use std::str;

/// A name as it is written, in these bytes; those that are no UTF-8 give the empty text.
#[tactic(auto, using(crate::proofs::Texts::told, crate::proofs::Texts::none))]
pub fn text_of(alloc: Global, bytes: &Items<u8>) -> Result<Text, NoMemory>
    ensures { IfOk result (λ text. text ≡ spec.text_of bytes.now) }
{
    match str::from_utf8(bytes.as_slice()) {
        Ok(text) => Text::from_str(alloc, text),
        Err(_) => Text::from_str(alloc, ""),
    }
}
