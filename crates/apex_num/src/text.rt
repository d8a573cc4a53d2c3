// Text that is shared.

ghost use Rattle.std.specs.Prelude.{◌≡◌, ◌<◌, ◌^◌, length, chars, IfOk, IfNone, IfSome, MatchBool, string_bytes};
ghost use Rattle.std.specs.Str.{IsUtf8, IsAscii, IsNotAscii};
ghost use Rattle.std.specs.Cmp as Cmp;
ghost use Rattle.std.specs.Hash as fed;
ghost use Rattle.std.specs.Cmp.Rules.{comparing, hashing};
ghost use Rattle.std.proofs.Common.{rules};
ghost use Rattle.std.proofs.lemmas.Cmp.{nat_list_eq_equiv};

use std::alloc::{AllocError, Global};
use std::hash::{Hash, Hasher};
use std::marker::Model;
use std::str;
use std::sync::Arc;

/// Memory was refused.
pub type NoMemory = AllocError;

/// A text: bytes that are UTF-8, which contracts see as the list of them. It never changes, its copies share the
/// bytes, and it knows whether they are all ASCII.
#[derive(Debug, Drop)]
pub struct Text {
    shared: Arc<Vec<u8>>,
    ascii: bool,
}

impl Model for Text {
    ghost use Rattle.std.specs.Prelude.{ℕ, List, MatchBool};
    ghost use Rattle.std.specs.Str.{IsUtf8, IsAscii, IsNotAscii};

    ghost Value = { List ℕ };

    ghost view = { λ t. t.shared.value.items };

    ghost invariant = { λ t. IsUtf8 t.shared.value.items × MatchBool t.ascii (IsAscii t.shared.value.items) (IsNotAscii t.shared.value.items) };
}

impl Text {
    /// The text of these bytes, or `None` exactly where they aren't UTF-8. Want of memory is an error.
    pub fn of(alloc: Global, bytes: Vec<u8>) -> Result<Option<Text>, NoMemory>
        ensures some { IfOk result (λ answer. IfSome answer (λ text. (text ≡ bytes.items) × IsUtf8 bytes.items)) }
        ensures none { IfOk result (λ answer. IfNone answer (IsUtf8 bytes.items → ⊥)) }
    {
        if str::from_utf8(&bytes).is_err() {
            return Ok(None);
        }
        let ascii = bytes.is_ascii();
        Ok(Some(Text {
            shared: Arc::new(alloc, bytes)?,
            ascii,
        }))
    }

    /// A text of its own with these bytes.
    pub fn from_str(alloc: Global, text: &str) -> Result<Text, NoMemory>
        ensures { IfOk result (λ t. t ≡ text.now) }
    {
        let bytes = Vec::from_slice(alloc, text.as_bytes())?;
        Ok(Text {
            shared: Arc::new(alloc, bytes)?,
            ascii: text.is_ascii(),
        })
    }

    /// The text of a string, whose bytes it takes over.
    pub fn from_string(alloc: Global, text: String) -> Result<Text, NoMemory>
        ensures { IfOk result (λ t. t ≡ string_bytes text) }
    {
        // A string slice tells the proof that its bytes are UTF-8.
        let ascii = text.as_str().is_ascii();
        Ok(Text {
            shared: Arc::new(alloc, text.into_bytes())?,
            ascii,
        })
    }

    /// The text as a string slice. Nothing is looked at again.
    pub fn as_str(&self) -> &str
        ensures { result.now ≡ self.now }
    {
        unsafe { str::from_utf8_unchecked(self.shared.as_slice()) }
    }

    /// The bytes, which are UTF-8.
    pub fn bytes(&self) -> &[u8]
        ensures value { result.now ≡ self.now }
        ensures utf8 { IsUtf8 self.now }
    {
        self.shared.as_slice()
    }

    /// Whether all bytes are ASCII, so that each is a scalar of its own. Nothing is looked at again.
    pub fn is_ascii(&self) -> bool
        ensures { MatchBool result (IsAscii self.now) (IsNotAscii self.now) }
    {
        self.ascii
    }

    /// How many scalars the text has. One that is ASCII isn't looked at again.
    pub fn length(&self) -> usize
        ensures value { result ≡ length (chars self.now) }
        ensures small { result < 2 ^ 63 }
    {
        if self.ascii {
            return self.shared.len();
        }
        self.as_str().chars().count()
    }

    /// An equal text, which shares the bytes. It fails only where 2^63 copies are alive.
    pub fn copy(&self) -> Result<Text, NoMemory>
        ensures { IfOk result (λ t. t ≡ self.now) }
    {
        Ok(Text {
            shared: Arc::try_clone(&self.shared)?,
            ascii: self.ascii,
        })
    }
}

impl PartialEq for Text {
    ghost use Rattle.std.specs.Prelude.{bytes_eq};

    ghost eq = { λ a b. bytes_eq a b };

    ghost laws = { Cmp.partial_equiv_from_equiv nat_list_eq_equiv };

    fn eq(&self, other: &Text) -> bool {
        self.bytes() == other.bytes()
    }
}

impl Eq for Text {
    ghost laws = { nat_list_eq_equiv };
}

impl Hash for Text {
    ghost hash_input = { λ t. fed.str t };

    ghost respects_eq = { Prim.search (hashing, rules) };

    fn hash<H: Hasher>(&self, state: &mut H) {
        state.write(self.bytes());
        state.write_u8(255);
    }
}
