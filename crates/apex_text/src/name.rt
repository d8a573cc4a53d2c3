// Names, folded.

ghost use Rattle.std.specs.Prelude.{◌≡◌, ◌↔◌, IsTrue, IfOk};
ghost use Rattle.std.specs.Cmp as Cmp;
ghost use Rattle.std.specs.Hash as fed;
ghost use Rattle.std.specs.Cmp.Rules.{comparing, hashing};
ghost use Rattle.std.proofs.Common.{rules};
ghost use Rattle.std.proofs.lemmas.Cmp.{nat_list_eq_equiv};
ghost use Rattle.apex_text.specs.Fold.{folded};

use std::alloc::{AllocError, Global};
use std::hash::{Hash, Hasher};
use std::marker::Model;
use std::sync::Arc;

/// True exactly where two texts agree but for the case of their ASCII letters.
pub fn fold_eq(a: &[u8], b: &[u8]) -> bool
    ensures { IsTrue result ↔ (folded a.now ≡ folded b.now) }
{
    a.eq_ignore_ascii_case(b)
}

/// A name, with its ASCII letters folded to small ones. Contracts see it as its bytes. Its copies share them.
#[derive(Debug, Drop)]
pub struct Name {
    shared: Arc<Vec<u8>>,
}

impl Model for Name {
    ghost use Rattle.std.specs.Prelude.{ℕ, List};

    ghost Value = { List ℕ };

    ghost view = { λ n. n.shared.value.items };
}

impl Name {
    /// The name that is written so.
    pub fn of(alloc: Global, written: &[u8]) -> Result<Name, AllocError>
        ensures { IfOk result (λ name. name ≡ folded written.now) }
    {
        let folded = written.to_ascii_lowercase(alloc)?;
        Ok(Name {
            shared: Arc::new(alloc, folded)?,
        })
    }

    /// The bytes of the folded name.
    pub fn bytes(&self) -> &[u8]
        ensures { result.now ≡ self.now }
    {
        self.shared.as_slice()
    }

    /// An equal name, which shares the bytes. It fails only where 2^63 copies are alive.
    pub fn copy(&self) -> Result<Name, AllocError>
        ensures { IfOk result (λ name. name ≡ self.now) }
    {
        Ok(Name {
            shared: Arc::try_clone(&self.shared)?,
        })
    }
}

impl PartialEq for Name {
    ghost use Rattle.std.specs.Prelude.{bytes_eq};

    ghost eq = { λ a b. bytes_eq a b };

    ghost laws = { Cmp.partial_equiv_from_equiv nat_list_eq_equiv };

    fn eq(&self, other: &Name) -> bool {
        self.bytes() == other.bytes()
    }
}

impl Eq for Name {
    ghost laws = { nat_list_eq_equiv };
}

impl Hash for Name {
    ghost hash_input = { λ n. fed.str n };

    ghost respects_eq = { Prim.search (hashing, rules) };

    fn hash<H: Hasher>(&self, state: &mut H) {
        state.write(self.bytes());
        state.write_u8(255);
    }
}
